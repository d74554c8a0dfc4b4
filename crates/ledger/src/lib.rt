//! The chooser that decides the first offer.
#![tactic(auto)]

ghost use Rattle.std.specs.Prelude.{◌≡◌};
ghost use Rattle.chooser.specs.Meaning.{no_offers};
ghost use Rattle.chooser.specs.TableLaws.{sixteen_lists as lists_stand, eight_at_most as eight_stand, offers_are_bytes as bytes_stand};
ghost use Rattle.ledger.specs.Ledger.{ledger_lists, firsts, LedgerOffered, LedgerWorked};
ghost use Rattle.ledger.specs.LedgerLaws.{sixteen_firsts, first_is_offered, offering_keeps, working_keeps};

use chooser::{Chooser, ChooserRefusal, NUMBERS, OfferTable};

/// The first offer under a number is decided at once. No step of work is allowed.
/// It is not `Copy`: two copies of one ledger could decide two values.
#[derive(Debug, PartialEq, Eq, Drop)]
pub struct Ledger {
    offers: OfferTable,
}

impl Ledger {
    /// Nothing is offered yet.
    pub fn new() -> Ledger
        ensures { ledger_lists result ≡ no_offers }
    {
        Ledger {
            offers: OfferTable::new(),
        }
    }
}

impl Chooser for Ledger {
    ghost decided = { λ ledger. firsts (ledger_lists ledger) };

    ghost offers = { ledger_lists };

    ghost offering = { λ before number value answer after. LedgerOffered (ledger_lists before) number value answer (ledger_lists after) };

    ghost working = { λ before number step ballot set answer after. LedgerWorked (ledger_lists before) number answer (ledger_lists after) };

    ghost sixteen_decisions = { sixteen_firsts };

    ghost sixteen_lists = { λ ledger. lists_stand ledger.offers };

    ghost eight_at_most = { λ ledger. eight_stand ledger.offers };

    ghost offers_are_bytes = { λ ledger. bytes_stand ledger.offers };

    ghost decided_is_offered = { λ ledger. first_is_offered (ledger_lists ledger) };

    ghost offering_is_lawful = { offering_keeps };

    ghost working_is_lawful = { λ before after number step ballot set. working_keeps (ledger_lists before) (ledger_lists after) number };

    fn decision(&self, number: u8) -> Option<u8> {
        self.offers.under(number).as_slice().first().copied()
    }

    fn offer(&mut self, number: u8, value: u8) -> Result<(), ChooserRefusal> {
        self.offers.add(number, value)
    }

    fn work(&mut self, number: u8, _step: u8, _ballot: u8, _set: u8) -> Result<(), ChooserRefusal> {
        if number >= NUMBERS {
            return Err(ChooserRefusal::TooHigh);
        }
        Err(ChooserRefusal::NotAllowed)
    }
}
