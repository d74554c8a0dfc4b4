//! Searches that begin at any place of a slice.
use frame::SLOT;

/// The place of an item that fits: the first from `start` on, or the first of all.
pub(crate) fn find_from<T, F: Fn(usize, &T) -> bool + Drop>(
    items: &[T],
    start: usize,
    fits: F,
) -> Option<usize>
    requires { F.IsAlwaysCallable fits }
{
    let mut first = None;
    for (place, item) in items.iter().enumerate() {
        if fits(place, item) {
            if place >= start {
                return Some(place);
            }
            first = first.or(Some(place));
        }
    }
    first
}

/// The slot that holds a frame which fits: the first from `start` on, or the first of all.
pub(crate) fn find_slot<F: Fn(&[u8]) -> bool + Drop>(
    frames: &[u8],
    start: usize,
    fits: F,
) -> Option<usize>
    requires { F.IsAlwaysCallable fits }
{
    let mut first = None;
    for (slot, frame) in frames.chunks_exact(SLOT).enumerate() {
        if kind_of(frame) != 0 && fits(frame) {
            if slot >= start {
                return Some(slot);
            }
            first = first.or(Some(slot));
        }
    }
    first
}

// The first byte of a slot, which is 0 of an empty one.
fn kind_of(frame: &[u8]) -> u8 {
    frame.first().copied().unwrap_or(0)
}
