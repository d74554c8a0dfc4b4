//! The weights of places.
ghost use Rattle.std.specs.Prelude.{◌≡◌, ◌≤◌, length, if◌then◌else◌};
ghost use Rattle.quorum.specs.Limits.{largest_group};
ghost use Rattle.quorum.specs.Rules.{none_too_heavy};
ghost use Rattle.quorum.specs.Sets.{member};
ghost use Rattle.quorum.specs.Weights.{weight_of_members};

use crate::HEAVIEST;
use crate::sets::member;

// Whether no weight is above 100.
pub(crate) fn none_too_heavy(weights: &[u8]) -> bool
    ensures { result ≡ none_too_heavy weights.now }
{
    weights.iter().all(|weight| *weight <= HEAVIEST)
}

// The weights whose places are in the set, summed. Each place adds its weight or 0: a chain that filters the places first takes more than twice the time.
pub(crate) fn weight_of_members(weights: &[u8], set: u8) -> u16
    requires { length weights.now ≤ largest_group }
    ensures { result ≡ weight_of_members weights.now set }
{
    weights
        .iter()
        .enumerate()
        .map(|(place, weight)| added_by(place, *weight, set))
        .sum()
}

// What a place adds to the weight of a set.
fn added_by(place: usize, weight: u8, set: u8) -> u16
    ensures { result ≡ (if member place set then weight else 0) }
{
    if member(place, set) {
        u16::from(weight)
    } else {
        0
    }
}
