//! Which group follows which is decided once under each number: the interface that a chooser keeps.
#![tactic(auto)]

ghost use Rattle.std.specs.Prelude.{◌≡◌, ℕ, ◌≤◌, length, true, Some};
ghost use Rattle.chooser.specs.Limits.{numbers, most_offers, highest_offer};
ghost use Rattle.chooser.specs.Meaning.{OfferLists, Decisions, Answer, offers_at, decision_at, one_of, DecidedIsOffered};
ghost use Rattle.chooser.specs.Laws.{Offered, Worked};

mod calls;
mod offers;
mod refusal;

pub use calls::{Call, Turn, make_call, play};
pub use offers::{OfferTable, Offers};
pub use refusal::ChooserRefusal;

/// How many numbers a chooser decides: 0 to 15.
pub const NUMBERS: u8 = 16;

/// The most offers under one number.
pub const MOST_OFFERS: usize = 8;

/// A chooser decides, for each number 0 to 15, at most one of the values offered under it, once for ever.
/// When and what it decides is its own affair, and it may ask for steps of work before it does.
pub trait Chooser {
    /// What is decided.
    ghost decided: { Self → Decisions };

    /// What was offered.
    ghost offers: { Self → OfferLists };

    /// What offering does in this implementation: the chooser before, number, value, answer, the chooser after.
    /// It says no less than the laws below; callers of generic code learn what it says.
    ghost offering: { Self → ℕ → ℕ → Answer → Self → Type 0 };

    /// What work does in this implementation: the chooser before, number, step, ballot, set, answer, the chooser after.
    ghost working: { Self → ℕ → ℕ → ℕ → ℕ → Answer → Self → Type 0 };

    /// What is decided under the number, if something is.
    fn decision(&self, number: u8) -> Option<u8>
        ensures { result ≡ decision_at (decided self.now) number };

    /// Offers a value under the number.
    fn offer(&mut self, number: u8, value: u8) -> Result<(), ChooserRefusal>
        ensures { offering self.old number value result self.new };

    /// A step of work under the number. What step, ballot and set mean is up to the chooser; any may be asked for, so they are no types of their own.
    fn work(&mut self, number: u8, step: u8, ballot: u8, set: u8) -> Result<(), ChooserRefusal>
        ensures { working self.old number step ballot set result self.new };

    /// Each number has its decision or none.
    ghost sixteen_decisions: { (s : Self) → length (decided s) ≡ numbers };

    /// Each number has its offers.
    ghost sixteen_lists: { (s : Self) → length (offers s) ≡ numbers };

    /// At most eight under one number.
    ghost eight_at_most: { (s : Self) (number : ℕ) → length (offers_at (offers s) number) ≤ most_offers };

    /// Each is 0 to 255.
    ghost offers_are_bytes: { (s : Self) (number value : ℕ) → one_of (offers_at (offers s) number) value ≡ true → value ≤ highest_offer };

    /// A decision is one of the offers.
    ghost decided_is_offered: { (s : Self) → DecidedIsOffered (decided s) (offers s) };

    /// Offering keeps to the rules.
    ghost offering_is_lawful: { (s t : Self) (number value : ℕ) (answer : Answer) → offering s number value answer t → Offered (decided s) (offers s) number value answer (decided t) (offers t) };

    /// Work keeps to the rules.
    ghost working_is_lawful: { (s t : Self) (number step ballot set : ℕ) (answer : Answer) → working s number step ballot set answer t → Worked (decided s) (offers s) number answer (decided t) (offers t) };
}
