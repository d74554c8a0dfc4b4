//! Why bytes are no frame.
ghost use Rattle.std.specs.Prelude.{◌≡◌, Some};
ghost use Rattle.frame.specs.Faults.{number, shown_cause, shown_fault};

use std::error::Error;
use std::fmt;

/// Which part of a frame is at fault.
#[derive(Clone, Copy, Debug, PartialEq, Eq)]
pub enum Cause {
    /// The first byte is no kind of frame.
    Kind = 1,
    /// A field other than kind, content and rest has no lawful value.
    Field = 2,
    /// The content's bytes are none of its kind's own.
    Content = 3,
    /// The bytes behind the frame are not all 0, or there are not 32 in all.
    Rest = 4,
}

/// Why bytes are no frame: what is at fault, and the place of its first byte; 0 if there are not 32 bytes.
#[derive(Clone, Copy, Debug, PartialEq, Eq)]
pub struct FrameFault {
    pub cause: Cause,
    pub offset: usize,
}

impl Cause {
    /// The number of the cause: `Cause::Field.number()` is 2.
    pub fn number(self) -> u8
        ensures { result ≡ number self }
    {
        self as u8
    }
}

impl fmt::Display for Cause {
    ghost output = { λ cause. Some (shown_cause cause) };

    fn fmt<W: fmt::Write>(&self, f: &mut fmt::Formatter<W>) -> fmt::Result {
        f.write_str(match self {
            Cause::Kind => "kind",
            Cause::Field => "field",
            Cause::Content => "content",
            Cause::Rest => "rest",
        })
    }
}

impl fmt::Display for FrameFault {
    ghost output = { λ fault. Some (shown_fault fault) };

    fn fmt<W: fmt::Write>(&self, f: &mut fmt::Formatter<W>) -> fmt::Result {
        let number = self.cause.number();
        write!(f, "cause {number} ({}), offset {}", self.cause, self.offset)
    }
}

impl Error for FrameFault {}
