//! What is kept under one number, and the four steps that change it.
ghost use Rattle.std.specs.Prelude.{◌≡◌, ◌≤◌};
ghost use Rattle.ballots.specs.Limits.{last_ballot, owner};
ghost use Rattle.ballots.specs.Instance.{blank, value_at, highest_accepted, value_for, all_promised, all_accepted, promise_step, fix_step, accept_step, count_step, work_step, after_work, answer_of, or_same};
ghost use Rattle.ballots.specs.Kept.{StaysKept};

use crate::sets::{sole, within};
use crate::{ACCEPTORS, LAST_BALLOT};
use chooser::{ChooserRefusal, MOST_OFFERS};
use quorum::member;

/// What an acceptor keeps: the ballot that it promised and the one that it accepted last, 0 for none.
#[derive(Clone, Copy, Debug, PartialEq, Eq)]
pub struct Acceptor {
    pub promised: u8,
    pub accepted: u8,
}

/// What is kept under one number: the acceptors, the value of each ballot that is fixed, the decision.
#[derive(Clone, Copy, Debug, PartialEq, Eq)]
pub struct Instance {
    pub acceptors: [Acceptor; ACCEPTORS],
    pub values: [Option<u8>; LAST_BALLOT as usize + 1],
    pub decision: Option<u8>,
}

impl Instance {
    /// Nobody has promised anything.
    pub fn new() -> Instance
        ensures { result ≡ blank }
    {
        let acceptor = Acceptor {
            promised: 0,
            accepted: 0,
        };
        Instance {
            acceptors: [acceptor; ACCEPTORS],
            values: [None; LAST_BALLOT as usize + 1],
            decision: None,
        }
    }

    /// The value of a ballot, if it is fixed.
    pub fn value(&self, ballot: u8) -> Option<u8>
        ensures { result ≡ value_at self.now ballot }
    {
        self.values.get(usize::from(ballot)).copied().flatten()
    }

    /// A step of work on a ballot, for a set of acceptors; `wins` says whether the set does, by the rule that the host goes by.
    pub fn work(
        &mut self,
        step: u8,
        ballot: u8,
        set: u8,
        wins: bool,
        offers: &[u8],
    ) -> Result<(), ChooserRefusal>
        ensures answered { result ≡ answer_of (after_work self.old offers.now step ballot set wins) }
        ensures after { self.new ≡ or_same (after_work self.old offers.now step ballot set wins) self.old }
        ensures stays_kept { StaysKept self.old offers.now step set wins self.new }
    {
        if !within(ballot, set) {
            return Err(ChooserRefusal::NotAllowed);
        }
        self.step(step, ballot, set, wins, offers)
    }

    // One of the four steps, by its number.
    fn step(
        &mut self,
        step: u8,
        ballot: u8,
        set: u8,
        wins: bool,
        offers: &[u8],
    ) -> Result<(), ChooserRefusal>
        requires { ballot ≤ last_ballot }
        ensures answered { result ≡ answer_of (work_step self.old offers.now step ballot set wins) }
        ensures after { self.new ≡ or_same (work_step self.old offers.now step ballot set wins) self.old }
    {
        match step {
            1 => self.promise(ballot, set, offers),
            2 => self.fix(ballot, set, wins, offers),
            3 => self.accept(ballot, set),
            4 => self.count(ballot, set, wins),
            _ => Err(ChooserRefusal::NotAllowed),
        }
    }

    // Step 1: one acceptor promises a ballot above its promise.
    fn promise(&mut self, ballot: u8, set: u8, offers: &[u8]) -> Result<(), ChooserRefusal>
        ensures answered { result ≡ answer_of (promise_step self.old offers.now ballot set) }
        ensures after { self.new ≡ or_same (promise_step self.old offers.now ballot set) self.old }
    {
        let acceptor = sole(set).ok_or(ChooserRefusal::NotAllowed)?;
        if owner(ballot) >= offers.len() || self.acceptors[acceptor].promised >= ballot {
            return Err(ChooserRefusal::NotAllowed);
        }
        self.acceptors[acceptor].promised = ballot;
        Ok(())
    }

    // Step 2: a winning set that has promised the ballot fixes its value.
    fn fix(&mut self, ballot: u8, set: u8, wins: bool, offers: &[u8]) -> Result<(), ChooserRefusal>
        requires { ballot ≤ last_ballot }
        ensures answered { result ≡ answer_of (fix_step self.old offers.now ballot set wins) }
        ensures after { self.new ≡ or_same (fix_step self.old offers.now ballot set wins) self.old }
    {
        let fixed = self.values[usize::from(ballot)].is_some();
        if fixed || !self.all_promised(ballot, set) || !wins {
            return Err(ChooserRefusal::NotAllowed);
        }
        self.values[usize::from(ballot)] = self.value_for(ballot, set, offers);
        Ok(())
    }

    // Step 3: one acceptor accepts a fixed ballot that is not below its promise.
    fn accept(&mut self, ballot: u8, set: u8) -> Result<(), ChooserRefusal>
        requires { ballot ≤ last_ballot }
        ensures answered { result ≡ answer_of (accept_step self.old ballot set) }
        ensures after { self.new ≡ or_same (accept_step self.old ballot set) self.old }
    {
        let acceptor = sole(set).ok_or(ChooserRefusal::NotAllowed)?;
        let fixed = self.values[usize::from(ballot)].is_some();
        if !fixed || self.acceptors[acceptor].promised > ballot {
            return Err(ChooserRefusal::NotAllowed);
        }
        self.acceptors[acceptor] = Acceptor {
            promised: ballot,
            accepted: ballot,
        };
        Ok(())
    }

    // Step 4: a winning set that accepted the ballot last decides its value.
    fn count(&mut self, ballot: u8, set: u8, wins: bool) -> Result<(), ChooserRefusal>
        requires { ballot ≤ last_ballot }
        ensures answered { result ≡ answer_of (count_step self.old ballot set wins) }
        ensures after { self.new ≡ or_same (count_step self.old ballot set wins) self.old }
    {
        if !self.all_accepted(ballot, set) || !wins {
            return Err(ChooserRefusal::NotAllowed);
        }
        self.decision = self.values[usize::from(ballot)];
        Ok(())
    }

    // What a ballot is fixed at: the value of the highest ballot that the set accepted, else the ballot's own offer.
    fn value_for(&self, ballot: u8, set: u8, offers: &[u8]) -> Option<u8>
        ensures { result ≡ value_for self.now offers.now ballot set }
    {
        let highest = self.highest_accepted(set);
        if highest == 0 {
            offers.get(owner(ballot)).copied()
        } else {
            self.value(highest)
        }
    }

    // Whether every acceptor of the set has promised just this ballot.
    fn all_promised(&self, ballot: u8, set: u8) -> bool
        ensures { result ≡ all_promised self.now ballot set }
    {
        self.acceptors
            .iter()
            .enumerate()
            .filter(|(place, _)| member(*place, set))
            .all(|(_, acceptor)| acceptor.promised == ballot)
    }

    // Whether every acceptor of the set accepted this ballot last.
    fn all_accepted(&self, ballot: u8, set: u8) -> bool
        ensures { result ≡ all_accepted self.now ballot set }
    {
        self.acceptors
            .iter()
            .enumerate()
            .filter(|(place, _)| member(*place, set))
            .all(|(_, acceptor)| acceptor.accepted == ballot)
    }

    // The highest ballot that an acceptor of the set accepted last, 0 if none accepted any.
    fn highest_accepted(&self, set: u8) -> u8
        ensures { result ≡ highest_accepted self.now set }
    {
        self.acceptors
            .iter()
            .enumerate()
            .filter(|(place, _)| member(*place, set))
            .fold(0, |highest, (_, acceptor)| acceptor.accepted.max(highest))
    }
}

// The place of the offer that a ballot belongs to.
fn owner(ballot: u8) -> usize
    ensures { result ≡ owner ballot }
{
    usize::from(ballot) % MOST_OFFERS
}
