//! The rule by weight.
ghost use Rattle.std.specs.Prelude.{◌≡◌, ℕ, ◌≤◌, length, slice_index};
ghost use Rattle.quorum.specs.Limits.{largest_group, heaviest};

use crate::sets::{everyone, in_bounds};
use crate::weights::{none_too_heavy, weight_of_members};
use crate::{LARGEST_GROUP, QuorumRule};
use refusal::Refusal;

/// A set wins if it has more than half of the weight. Each place weighs 0 to 100, the first at least 1: there is no other such rule.
#[derive(Clone, Copy, Debug, PartialEq, Eq)]
pub struct Weighted {
    weights: [u8; LARGEST_GROUP],
    ghost seven: { length weights ≡ largest_group },
    ghost first: { 1 ≤ slice_index weights 0 },
    ghost light: { (place : ℕ) → slice_index weights place ≤ heaviest },
}

impl Weighted {
    ghost use Rattle.std.specs.Prelude.{◌≡◌, ◌*◌};
    ghost use Rattle.quorum.specs.Rules.{weighted, weight, rule_weights};

    /// The rule with these weights, as `Weighted::new([3, 1, 1, 0, 0, 0, 0])?`; refused if the first is 0 or one is above 100.
    #[tactic(auto, using(crate::specs::Weights::light_at))]
    pub fn new(weights: [u8; LARGEST_GROUP]) -> Result<Weighted, Refusal>
        ensures { rule_weights result ≡ weighted weights }
    {
        if weights[0] < 1 || !none_too_heavy(&weights) {
            return Err(Refusal::Unlawful);
        }
        Ok(Weighted { weights })
    }

    // The weight of a set.
    #[tactic(auto, using(crate::specs::Weights::weight_of_members_is, crate::specs::Weights::weight_most))]
    fn weight(&self, set: u8) -> u16
        ensures value { result ≡ weight self.now.weights set }
        ensures bound { result ≤ heaviest * largest_group }
    {
        weight_of_members(&self.weights, set)
    }
}

impl QuorumRule for Weighted {
    ghost use Rattle.quorum.specs.Rules.{outweighs_half, weights_of};
    ghost use Rattle.quorum.specs.WeightedLaws.{outweighing_halves_meet, everyone_outweighs_half};
    ghost use Rattle.std.proofs.Common.{rules};

    ghost winning = { λ rule size set. outweighs_half (weights_of rule) size set };

    ghost winners_in_bounds = { Prim.search rules };

    ghost winners_meet = { λ rule. outweighing_halves_meet rule.weights };

    ghost everyone_wins = { λ rule size. everyone_outweighs_half rule.weights size rule.first };

    fn wins(&self, size: u8, set: u8) -> bool {
        in_bounds(size, set) && 2 * self.weight(set) > self.weight(everyone(size))
    }
}
