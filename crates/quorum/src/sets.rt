//! Sets of places.
ghost use Rattle.std.specs.Prelude.{◌≡◌, ◌<◌, ◌≤◌};
ghost use Rattle.quorum.specs.Limits.{largest_group};
ghost use Rattle.quorum.specs.Sets.{in_bounds, everyone as all_places, member};

use crate::LARGEST_GROUP;

// How many places a set can have.
const SET_BITS: usize = 8;

// Whether the size is 1 to 7 and the set has only places below it.
pub(crate) fn in_bounds(size: u8, set: u8) -> bool
    ensures { result ≡ in_bounds size set }
{
    (1..=LARGEST_GROUP).contains(&usize::from(size)) && set < 1 << size
}

// The set of all places below a size.
pub(crate) fn everyone(size: u8) -> u8
    requires { size ≤ largest_group }
    ensures { result ≡ all_places size }
{
    (1 << size) - 1
}

/// Whether the place is in the set: `member(1, 0b010)` is true.
pub fn member(place: usize, set: u8) -> bool
    ensures { result ≡ member place set }
{
    place < SET_BITS && (set >> place) & 1 == 1
}
