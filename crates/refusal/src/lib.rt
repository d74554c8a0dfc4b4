//! Why something is refused: each reason has a number that callers and printed answers share.
#![tactic(auto)]

ghost use Rattle.std.specs.Prelude.{◌≡◌, Some};
ghost use Rattle.refusal.specs.Numbers.{number, words, shown_refusal};

use std::error::Error;
use std::fmt;

/// The reason of a refusal.
#[derive(Clone, Copy, Debug, PartialEq, Eq)]
pub enum Refusal {
    /// The frame table has no such slot, or the slot is empty.
    NoSlot = 3,
    /// What is to be made lies outside the bounds of its kind.
    Unlawful = 13,
    /// The frame table has fewer empty slots than frames are to be sent.
    TooFewSlots = 19,
}

impl Refusal {
    /// The number of the reason: `Refusal::Unlawful.number()` is 13.
    pub fn number(self) -> u8
        ensures { result ≡ number self }
    {
        self as u8
    }

    /// The reason in words: `Refusal::Unlawful.words()` is "outside its bounds".
    pub fn words(self) -> &'static str
        ensures { result.now ≡ words self }
    {
        match self {
            Refusal::NoSlot => "slot too high or empty",
            Refusal::Unlawful => "outside its bounds",
            Refusal::TooFewSlots => "too few empty slots",
        }
    }
}

impl fmt::Display for Refusal {
    ghost output = { λ refusal. Some (shown_refusal refusal) };

    fn fmt<W: fmt::Write>(&self, f: &mut fmt::Formatter<W>) -> fmt::Result {
        write!(f, "{}: {}", self.number(), self.words())
    }
}

impl Error for Refusal {}
