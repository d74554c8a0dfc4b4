//! The rule of the majority.
ghost use Rattle.quorum.specs.Rules.{more_than_half};
ghost use Rattle.quorum.specs.MajorityLaws.{majorities_meet, everyone_is_majority};
ghost use Rattle.std.proofs.Common.{rules};

use crate::QuorumRule;
use crate::sets::in_bounds;

/// A set wins if it has more than half of the places.
#[derive(Clone, Copy, Debug, PartialEq, Eq)]
pub struct Majority;

impl QuorumRule for Majority {
    ghost winning = { λ _ size set. more_than_half size set };

    ghost winners_in_bounds = { Prim.search rules };

    ghost winners_meet = { λ _. majorities_meet };

    ghost everyone_wins = { λ _. everyone_is_majority };

    fn wins(&self, size: u8, set: u8) -> bool {
        in_bounds(size, set) && 2 * set.count_ones() > u32::from(size)
    }
}
