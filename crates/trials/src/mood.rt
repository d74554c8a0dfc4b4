//! How often which call is drawn.
use crate::random::Random;

/// What kind of call is drawn next.
#[derive(Clone, Copy, Debug, PartialEq, Eq)]
pub(crate) enum Sort {
    Deliver,
    Lose,
    Read,
    Write,
    Regroup,
    Propose,
    Settle,
    Work,
    GiveUp,
    Stop,
    Look,
    /// a call with any arguments
    Stray,
    /// a call that is bound to be refused, mostly with a table altered for it
    OnPurpose,
}

const SORTS: usize = 13;

/// How often each sort is drawn, beside the others.
#[derive(Clone, Copy, Debug, PartialEq, Eq)]
pub(crate) struct Mood {
    shares: [(Sort, u16); SORTS],
    /// of a hundred frames that are delivered, how many stay in their slots
    pub staying: u16,
    /// of a hundred times that it is asked, how often some nodes fall behind
    pub lagging: u16,
}

impl Mood {
    /// A mood. A chooser that has to be worked on gets its share of the calls.
    pub(crate) fn drawn(random: &mut Random, is_synod: bool) -> Mood {
        let work = if is_synod { 300 } else { 4 };
        match random.below(4) {
            0 => calm(work),
            1 => rough(work),
            _ => handing_over(work),
        }
    }

    /// The sort of the next call.
    pub(crate) fn sort(&self, random: &mut Random) -> Sort {
        let mut total = 0u16;
        for (_, share) in self.shares.iter() {
            total = total.saturating_add(*share);
        }
        let mut left = random.below(total);
        for (sort, share) in self.shares.iter() {
            if left < *share {
                return *sort;
            }
            left -= *share;
        }
        Sort::Deliver
    }
}

// Mostly reads and writes, of a group that seldom changes.
fn calm(work: u16) -> Mood {
    Mood {
        shares: [
            (Sort::Deliver, 500),
            (Sort::Lose, 10),
            (Sort::Read, 60),
            (Sort::Write, 60),
            (Sort::Regroup, 3),
            (Sort::Propose, 10),
            (Sort::Settle, 8),
            (Sort::Work, work / 4),
            (Sort::GiveUp, 5),
            (Sort::Stop, 0),
            (Sort::Look, 15),
            (Sort::Stray, 10),
            (Sort::OnPurpose, 4),
        ],
        staying: 10,
        lagging: 1,
    }
}

// Frames are lost and repeated, nodes stop and fall behind.
fn rough(work: u16) -> Mood {
    Mood {
        shares: [
            (Sort::Deliver, 500),
            (Sort::Lose, 40),
            (Sort::Read, 50),
            (Sort::Write, 50),
            (Sort::Regroup, 12),
            (Sort::Propose, 30),
            (Sort::Settle, 20),
            (Sort::Work, work),
            (Sort::GiveUp, 10),
            (Sort::Stop, 2),
            (Sort::Look, 10),
            (Sort::Stray, 25),
            (Sort::OnPurpose, 4),
        ],
        staying: 35,
        lagging: 2,
    }
}

// The group changes again and again, and some nodes do not hear of it.
fn handing_over(work: u16) -> Mood {
    Mood {
        shares: [
            (Sort::Deliver, 500),
            (Sort::Lose, 15),
            (Sort::Read, 45),
            (Sort::Write, 45),
            (Sort::Regroup, 20),
            (Sort::Propose, 45),
            (Sort::Settle, 35),
            (Sort::Work, work),
            (Sort::GiveUp, 5),
            (Sort::Stop, 0),
            (Sort::Look, 10),
            (Sort::Stray, 5),
            (Sort::OnPurpose, 4),
        ],
        staying: 15,
        lagging: 1,
    }
}
