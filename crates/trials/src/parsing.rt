//! What the history has to know of a frame that is delivered, read off its bytes.
use calls::Call;
use content::Content;
use frame::{SLOT, Tag};
use tables::{Configuration, Members};

// The kind of frame that installs a configuration.
const UPDATE: u8 = 7;

/// What a frame names.
#[derive(Clone, Copy, Debug, PartialEq, Eq)]
pub(crate) enum Seen {
    /// no frame was delivered
    Nothing,
    /// a frame of this operation
    Operation(u16),
    /// an update, which gives its receiver a configuration
    Update { receiver: u8, given: Configuration },
}

impl Seen {
    /// What the frame names that a call is going to deliver.
    pub(crate) fn before<C: Content>(call: &Call<C>, frames: &[u8]) -> Seen {
        let Call::Deliver { slot } = call else {
            return Seen::Nothing;
        };
        let start = usize::from(*slot) * SLOT;
        match frames.get(start..start + SLOT) {
            Some(frame) => named(frame),
            None => Seen::Nothing,
        }
    }
}

// What a frame names: an update has the receiver at 1, the number at 3, the count at 4, the members from 5 on, and the tag at 12; other frames have the operation at 4.
fn named(frame: &[u8]) -> Seen {
    if byte(frame, 0) != UPDATE {
        return Seen::Operation(two_bytes(frame, 4));
    }
    let listed = usize::from(byte(frame, 4));
    let members = frame.get(5..5 + listed).unwrap_or(&[]);
    Seen::Update {
        receiver: byte(frame, 1),
        given: Configuration {
            number: byte(frame, 3),
            members: Members::new(members),
            opening: Tag {
                version: two_bytes(frame, 12),
                node: byte(frame, 14),
            },
        },
    }
}

fn byte(frame: &[u8], offset: usize) -> u8 {
    frame.get(offset).copied().unwrap_or(0)
}

// The high byte stands first.
fn two_bytes(frame: &[u8], offset: usize) -> u16 {
    let low = offset.saturating_add(1);
    u16::from_be_bytes([byte(frame, offset), byte(frame, low)])
}
