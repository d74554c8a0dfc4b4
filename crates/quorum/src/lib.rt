//! Which sets of acknowledgements suffice: the interface that a quorum rule keeps, and the two rules that come with the library.
#![tactic(auto)]

ghost use Rattle.std.specs.Prelude.{◌≡◌, ℕ, ◌≤◌, Bool, true};
ghost use Rattle.quorum.specs.Limits.{largest_group};
ghost use Rattle.quorum.specs.Sets.{in_bounds, everyone, Share};

mod any;
mod majority;
mod sets;
mod weighted;
mod weights;

pub use any::{both_win_apart, everyone_wins};
pub use majority::Majority;
pub use sets::member;
pub use weighted::Weighted;

/// The most members of a group.
pub const LARGEST_GROUP: usize = 7;

/// The most that one place may weigh.
pub const HEAVIEST: u8 = 100;

/// A quorum rule. A group has a size of 1 to 7; its places are counted from 0, and place i is bit i of a set.
/// A rule need not favour the larger set: one that wins may be part of one that loses.
pub trait QuorumRule {
    /// Whether a set wins at a size.
    ghost winning: { Self → ℕ → ℕ → Bool };

    /// Whether the set wins at the size: `Majority.wins(4, 0b0111)` is true. Any two numbers may be asked about, so they are no type of their own.
    fn wins(&self, size: u8, set: u8) -> bool
        ensures { result ≡ winning self.now size set };

    /// Only a set of places below a size of 1 to 7 wins.
    ghost winners_in_bounds: { (rule : Self) (size set : ℕ) → winning rule size set ≡ true → in_bounds size set ≡ true };

    /// Two winning sets of one size share a place.
    ghost winners_meet: { (rule : Self) (size one other : ℕ) → winning rule size one ≡ true → winning rule size other ≡ true → Share size one other };

    /// All places together win.
    ghost everyone_wins: { (rule : Self) (size : ℕ) → 1 ≤ size → size ≤ largest_group → winning rule size (everyone size) ≡ true };
}
