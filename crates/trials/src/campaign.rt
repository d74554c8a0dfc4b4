//! Ballots under way at a synod: which step of work comes next.
use crate::random::Random;

// The acceptors of a synod.
const ACCEPTORS: u8 = 5;

// The steps of work, by their numbers.
const PROMISE: u8 = 1;

const FIX: u8 = 2;

const ACCEPT: u8 = 3;

const COUNT: u8 = 4;

/// A step of work: the arguments of the call.
#[derive(Clone, Copy, Debug, PartialEq, Eq)]
pub(crate) struct Work {
    pub number: u8,
    pub step: u8,
    pub ballot: u8,
    pub set: u8,
}

/// A ballot that is carried through, one step after the other.
#[derive(Clone, Copy, Debug, PartialEq, Eq)]
pub(crate) struct Campaign {
    number: u8,
    ballot: u8,
    step: u8,
    acceptor: u8,
    promised: u8,
    accepted: u8,
}

impl Campaign {
    /// A campaign that is over.
    pub(crate) fn over() -> Campaign {
        Campaign {
            number: 0,
            ballot: 0,
            step: COUNT + 1,
            acceptor: 0,
            promised: 0,
            accepted: 0,
        }
    }

    /// A campaign for one of the offers under a number.
    pub(crate) fn new(random: &mut Random, number: u8, offers: u8) -> Campaign {
        let offer = random.byte_below(offers.min(8));
        let ballot = if offer == 0 || random.in_hundred(50) {
            offer.saturating_add(8)
        } else {
            offer
        };
        Campaign {
            number,
            ballot: ballot.min(15),
            step: PROMISE,
            ..Campaign::over()
        }
    }

    /// Whether all its steps were made.
    pub(crate) fn is_over(&self) -> bool {
        self.step > COUNT
    }

    /// The next step, which it takes as made.
    pub(crate) fn next(&mut self) -> Work {
        let set = match self.step {
            PROMISE | ACCEPT => 1 << (self.acceptor % ACCEPTORS),
            FIX => self.promised,
            _ => self.accepted,
        };
        let work = Work {
            number: self.number,
            step: self.step,
            ballot: self.ballot,
            set,
        };
        self.pass_on();
        work
    }

    /// Notes a step of work that was taken.
    pub(crate) fn note(&mut self, work: &Work) {
        if work.number != self.number || work.ballot != self.ballot {
            return;
        }
        match work.step {
            PROMISE => self.promised |= work.set,
            ACCEPT => self.accepted |= work.set,
            _ => {}
        }
    }

    // Passes on to the next acceptor, or to the next step.
    fn pass_on(&mut self) {
        let each = self.step == PROMISE || self.step == ACCEPT;
        if each && self.acceptor < ACCEPTORS - 1 {
            self.acceptor += 1;
            return;
        }
        self.acceptor = 0;
        self.step = self.step.saturating_add(1);
    }
}

/// Whether this step decides, if it is taken.
pub(crate) fn decides(work: &Work) -> bool {
    work.step == COUNT
}
