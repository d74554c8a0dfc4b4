//! Ballots and sets of acceptors.
ghost use Rattle.std.specs.Prelude.{◌≡◌};
ghost use Rattle.ballots.specs.Instance.{sole, within};

use crate::{ACCEPTORS, LAST_BALLOT};

// Whether there is such a ballot and such a set.
pub(crate) fn within(ballot: u8, set: u8) -> bool
    ensures { result ≡ within ballot set }
{
    (1..=LAST_BALLOT).contains(&ballot) && set < 1 << ACCEPTORS
}

// The acceptor of a set that has only one.
pub(crate) fn sole(set: u8) -> Option<usize>
    ensures { result ≡ sole set }
{
    match set {
        0b00001 => Some(0),
        0b00010 => Some(1),
        0b00100 => Some(2),
        0b01000 => Some(3),
        0b10000 => Some(4),
        _ => None,
    }
}
