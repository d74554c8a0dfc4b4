//! The examples of choosers, run: the ledger's by `chooser::make_call`, the contested ballot by `synod::play`.
ghost use Rattle.std.specs.Prelude.{◌≡◌, Some};
ghost use Rattle.chooser.specs.Runs.{calls_of};
ghost use Rattle.chooser.specs.declared.calls.Call.TheVariants.{Offer};
ghost use Rattle.cases.specs.ChooserExamples.{ChooserExamples, contested};

use chooser::{Call, Chooser, Turn, make_call};
use ledger::Ledger;
use quorum::Majority;
use synod::{Synod, play};

/// A ledger decides 4, where 4 and then 9 are offered.
pub fn first_offer_decided() -> Option<u8>
    ensures { result ≡ Some 4 }
{
    let mut ledger = Ledger::new();
    make_call(&mut ledger, offer(4)).ok()?;
    make_call(&mut ledger, offer(9)).ok()?;
    ledger.decision(0)
}

/// Every worked example of choosers comes out as it is written down; the contested ballot is played, too, and decides 9.
pub fn contested_ballot() -> Option<u8>
    ensures listed { ChooserExamples }
    ensures decided { result ≡ Some 9 }
{
    let mut synod = Synod::new(&Majority);
    play(&mut synod, &mut contested());
    synod.decision(0)
}

// The offer of a value under number 0.
fn offer(value: u8) -> Call
    ensures { result ≡ Offer 0 value }
{
    Call::Offer { number: 0, value }
}

// The calls of the contested ballot, as on the page of ballots.
fn contested() -> [Turn; 19]
    ensures { calls_of result ≡ contested }
{
    let work = |step, ballot, set| Call::Work {
        number: 0,
        step,
        ballot,
        set,
    };
    [
        offer(4),
        offer(9),
        offer(6),
        work(1, 1, 0b00001),
        work(1, 1, 0b00010),
        work(1, 1, 0b00100),
        work(2, 1, 0b00111),
        work(3, 1, 0b00100),
        work(1, 2, 0b00100),
        work(1, 2, 0b01000),
        work(1, 2, 0b10000),
        work(3, 1, 0b00010),
        work(3, 1, 0b00100),
        work(2, 2, 0b11100),
        work(3, 2, 0b00100),
        work(3, 2, 0b01000),
        work(3, 2, 0b10000),
        work(4, 1, 0b00111),
        work(4, 2, 0b11100),
    ]
    .map(|call| Turn { call, answer: None })
}
