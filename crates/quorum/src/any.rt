//! What holds under every rule, by the laws alone.
ghost use Rattle.std.specs.Prelude.{◌≡◌, false};
ghost use Rattle.quorum.specs.Sets.{is_size};

use crate::sets::everyone;
use crate::{LARGEST_GROUP, QuorumRule};

/// Whether all places together win: under every rule they do, at each size that a group may have.
pub fn everyone_wins<Q: QuorumRule>(rule: &Q, size: u8) -> bool
    ensures { result ≡ is_size size }
{
    usize::from(size) <= LARGEST_GROUP && rule.wins(size, everyone(size))
}

/// Whether two sets win that share no place: under no rule they do.
pub fn both_win_apart<Q: QuorumRule>(rule: &Q, size: u8, one: u8, other: u8) -> bool
    ensures { result ≡ false }
{
    one & other == 0 && rule.wins(size, one) && rule.wins(size, other)
}
