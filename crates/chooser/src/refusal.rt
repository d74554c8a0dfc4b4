//! Why a chooser refuses.
ghost use Rattle.std.specs.Prelude.{◌≡◌, Some};
ghost use Rattle.chooser.specs.Refusals.{refusal_number, refusal_words, shown_refusal};

use std::error::Error;
use std::fmt;

/// Why a chooser does not take an offer or a step of work.
#[derive(Clone, Copy, Debug, PartialEq, Eq)]
pub enum ChooserRefusal {
    /// There is no such number: the last is 15.
    TooHigh = 1,
    /// Eight offers stand under the number already.
    Full = 2,
    /// The chooser does not allow this step, at least not now.
    NotAllowed = 3,
}

impl ChooserRefusal {
    /// The number of the reason: `ChooserRefusal::Full.number()` is 2.
    pub fn number(self) -> u8
        ensures { result ≡ refusal_number self }
    {
        self as u8
    }

    // The reason in words.
    fn words(self) -> &'static str
        ensures { result.now ≡ refusal_words self }
    {
        match self {
            ChooserRefusal::TooHigh => "number above 15",
            ChooserRefusal::Full => "eight offers stand",
            ChooserRefusal::NotAllowed => "step not allowed",
        }
    }
}

impl fmt::Display for ChooserRefusal {
    ghost output = { λ refusal. Some (shown_refusal refusal) };

    fn fmt<W: fmt::Write>(&self, f: &mut fmt::Formatter<W>) -> fmt::Result {
        write!(f, "{}: {}", self.number(), self.words())
    }
}

impl Error for ChooserRefusal {}
