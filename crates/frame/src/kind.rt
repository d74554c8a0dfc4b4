//! The kinds of frame.
ghost use Rattle.std.specs.Prelude.{◌≡◌, Some};
ghost use Rattle.frame.specs.Kinds.{kind_number, kind_from, shown_kind};

use crate::fault::{Cause, FrameFault};
use std::fmt;

/// What a frame is for. Its first byte is the number of its kind.
#[derive(Clone, Copy, Debug, PartialEq, Eq)]
pub enum FrameKind {
    Get = 1,
    GetAck = 2,
    Put = 3,
    PutAck = 4,
    Freeze = 5,
    Held = 6,
    Update = 7,
}

impl FrameKind {
    /// The number of the kind: `FrameKind::Put.number()` is 3.
    pub fn number(self) -> u8
        ensures { result ≡ kind_number self }
    {
        self as u8
    }
}

impl TryFrom<u8> for FrameKind {
    type Error = FrameFault;

    ghost try_from_gives = { λ number kind. kind ≡ kind_from number };

    fn try_from(number: u8) -> Result<FrameKind, FrameFault> {
        match number {
            1 => Ok(FrameKind::Get),
            2 => Ok(FrameKind::GetAck),
            3 => Ok(FrameKind::Put),
            4 => Ok(FrameKind::PutAck),
            5 => Ok(FrameKind::Freeze),
            6 => Ok(FrameKind::Held),
            7 => Ok(FrameKind::Update),
            _ => Err(FrameFault {
                cause: Cause::Kind,
                offset: 0,
            }),
        }
    }
}

impl fmt::Display for FrameKind {
    ghost output = { λ kind. Some (shown_kind kind) };

    fn fmt<W: fmt::Write>(&self, f: &mut fmt::Formatter<W>) -> fmt::Result {
        f.write_str(match self {
            FrameKind::Get => "get",
            FrameKind::GetAck => "get-ack",
            FrameKind::Put => "put",
            FrameKind::PutAck => "put-ack",
            FrameKind::Freeze => "freeze",
            FrameKind::Held => "held",
            FrameKind::Update => "update",
        })
    }
}
