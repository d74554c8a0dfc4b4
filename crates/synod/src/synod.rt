//! The synod.
ghost use Rattle.std.specs.Prelude.{◌≡◌, ◌^◌, true, length};
ghost use Rattle.chooser.specs.Limits.{numbers};
ghost use Rattle.chooser.specs.Listed.{lists_of};
ghost use Rattle.quorum.specs.Sets.{everyone as all_places};
ghost use Rattle.ballots.specs.Limits.{acceptors};
ghost use Rattle.synod.specs.Lookup.{won, rule_answers};
ghost use Rattle.synod.specs.Invariant.{NeverApart, AllKept};

use ballots::{ACCEPTORS, Instance};
use chooser::{Chooser, ChooserRefusal, NUMBERS, OfferTable};
use quorum::QuorumRule;

/// A chooser by ballots: a ballot's value is decided when the ballot is counted for a winning set of the number's five acceptors, each of which accepted it last.
/// It is not `Copy`: two copies of one synod could decide two values.
#[derive(Debug, PartialEq, Eq, Drop)]
pub struct Synod {
    wins: [bool; 1 << ACCEPTORS],
    offers: OfferTable,
    instances: [Instance; NUMBERS as usize],
    ghost all_sets: { length wins ≡ 2 ^ acceptors },
    ghost never_apart: { NeverApart (won wins) (won wins) },
    ghost everyone_wins: { won wins (all_places acceptors) ≡ true },
    ghost sixteen: { length instances ≡ numbers },
    ghost all_kept: { AllKept (won wins) (won wins) (lists_of offers) instances },
}

impl Synod {
    ghost use Rattle.synod.specs.Synod.{tables_of, start, ballot_value};

    /// A synod by this rule, which is asked about each set of five now and never again.
    pub fn new<Q: QuorumRule>(rule: &Q) -> Synod
        ensures { tables_of result ≡ start (Q.winning rule.now acceptors) }
    {
        Synod {
            wins: answers(rule),
            offers: OfferTable::new(),
            instances: [Instance::new(); NUMBERS as usize],
        }
    }

    /// The value of a ballot of a number, if it is fixed.
    pub fn value(&self, number: u8, ballot: u8) -> Option<u8>
        ensures { result ≡ ballot_value self.now number ballot }
    {
        self.instances.get(usize::from(number))?.value(ballot)
    }

    // Whether the set wins, as the rule answered; no set wins that has others than the five.
    fn wins(&self, set: u8) -> bool
        ensures { result ≡ won self.now.wins set }
    {
        self.wins.get(usize::from(set)).copied().unwrap_or(false)
    }
}

impl Chooser for Synod {
    ghost use Rattle.chooser.specs.declared.calls.Call.TheVariants.{Offer, Work};
    ghost use Rattle.chooser.specs.TableLaws.{sixteen_lists as lists_stand, eight_at_most as eight_stand, offers_are_bytes as bytes_stand};
    ghost use Rattle.synod.specs.Synod.{decided_in, offered_in, Made};
    ghost use Rattle.synod.specs.SynodLaws.{sixteen_decisions as decisions_stand, decided_is_offered as decided_among, offering_keeps, working_keeps};

    ghost decided = { decided_in };

    ghost offers = { offered_in };

    ghost offering = { λ before number value answer after. Made before (Offer number value) answer after };

    ghost working = { λ before number step ballot set answer after. Made before (Work number step ballot set) answer after };

    ghost sixteen_decisions = { decisions_stand };

    ghost sixteen_lists = { λ synod. lists_stand synod.offers };

    ghost eight_at_most = { λ synod. eight_stand synod.offers };

    ghost offers_are_bytes = { λ synod. bytes_stand synod.offers };

    ghost decided_is_offered = { decided_among };

    ghost offering_is_lawful = { offering_keeps };

    ghost working_is_lawful = { working_keeps };

    fn decision(&self, number: u8) -> Option<u8> {
        self.instances.get(usize::from(number))?.decision
    }

    fn offer(&mut self, number: u8, value: u8) -> Result<(), ChooserRefusal> {
        self.offers.add(number, value)
    }

    fn work(&mut self, number: u8, step: u8, ballot: u8, set: u8) -> Result<(), ChooserRefusal> {
        if number >= NUMBERS {
            return Err(ChooserRefusal::TooHigh);
        }
        let wins = self.wins(set);
        let offers = self.offers.under(number);
        self.instances[usize::from(number)].work(step, ballot, set, wins, offers.as_slice())
    }
}

// The rule's answers for the 32 sets of five.
fn answers<Q: QuorumRule>(rule: &Q) -> [bool; 1 << ACCEPTORS]
    ensures { result ≡ rule_answers (Q.winning rule.now acceptors) }
{
    let mut wins = [false; 1 << ACCEPTORS];
    for set in 0..1 << ACCEPTORS {
        wins[usize::from(set)] = rule.wins(ACCEPTORS as u8, set);
    }
    wins
}
