//! Drawing a schedule, call by call.
use crate::campaign::{Campaign, Work, decides};
use crate::choosing::{
    Lag, Missing, is_missed, left_behind, member, number_bit, primary, proposed_numbers, regroup,
    some_frame, undecided,
};
use crate::drawn::Drawn;
use crate::mood::{Mood, Sort};
use crate::random::Random;
use crate::setting::{AnyChooser, Setting};
use calls::{Answer, Call};
use desk::Desk;
use fault::Fault;
use frame::HIGHEST_NODE;
use host::HostTables;
use quorum::LARGEST_GROUP;
use tables::Members;

// After so many starts that found all operation rows used, a schedule is over.
const PATIENCE: u8 = 20;

/// What the next call is drawn by.
#[derive(Drop)]
pub(crate) struct Drawer {
    pub random: Random,
    mood: Mood,
    chooser: AnyChooser,
    node_count: u8,
    // how many contents were drawn
    contents: u16,
    // a slot that is to be lost next
    to_lose: Option<u16>,
    // whether a call found too few empty slots
    is_crowded: bool,
    lag: Lag,
    // two ballots that are carried through at the same time
    one: Campaign,
    other: Campaign,
    // the numbers under which ballots were counted, as bits
    counted: u32,
    // how many starts found all operation rows used
    idle: u8,
}

impl Drawer {
    /// The drawer of a schedule.
    pub(crate) fn new(random: Random, setting: &Setting) -> Drawer {
        Drawer {
            random,
            mood: setting.mood,
            chooser: setting.chooser,
            node_count: setting.node_count,
            contents: 0,
            to_lose: None,
            is_crowded: false,
            lag: Lag::NONE,
            one: Campaign::over(),
            other: Campaign::over(),
            counted: 0,
            idle: 0,
        }
    }

    /// Whether there is nothing left to do.
    pub(crate) fn is_done(&self) -> bool {
        self.idle >= PATIENCE
    }

    /// The sort of the next call.
    pub(crate) fn sort(&mut self) -> Sort {
        if self.to_lose.is_some() || self.is_crowded {
            return Sort::Lose;
        }
        self.mood.sort(&mut self.random)
    }

    /// A call of this sort; another where it finds nothing to do.
    pub(crate) fn call<C: Drawn>(
        &mut self,
        sort: Sort,
        tables: &HostTables,
        desk: &Desk,
    ) -> Call<C> {
        if !desk.is_open {
            return self.opening();
        }
        if self.random.in_hundred(self.mood.lagging) {
            self.lag = self.any_lag(tables);
        }
        let found = match sort {
            Sort::Deliver => self.deliver(tables),
            Sort::Lose => self.lose(tables),
            Sort::Read => self.read(tables),
            Sort::Write => self.write(tables),
            Sort::Regroup => self.regroup(tables),
            Sort::Propose => self.propose(tables, desk),
            Sort::Settle => self.settle(tables, desk),
            Sort::Work => self.work(tables, desk),
            Sort::GiveUp => Some(Call::GiveUp {
                operation: self.operation(desk),
            }),
            Sort::Stop => Some(Call::Stop {
                node: self.any_node(),
            }),
            Sort::Look => Some(Call::Look {
                operation: self.operation(desk),
            }),
            Sort::Stray | Sort::OnPurpose => Some(self.stray()),
        };
        match found {
            Some(call) => call,
            None => self.instead(tables, desk),
        }
    }

    /// Takes notice of what a call was answered.
    pub(crate) fn note<C: Drawn>(&mut self, call: &Call<C>, answer: &Result<Answer, Fault>) {
        match (call, answer) {
            (Call::Lose { .. }, _) => {
                self.to_lose = None;
                self.is_crowded = false;
            }
            (Call::Deliver { slot }, Ok(_)) => {
                if !self.random.in_hundred(self.mood.staying) {
                    self.to_lose = Some(*slot);
                }
            }
            (Call::Deliver { slot }, Err(Fault::Stopped)) => self.to_lose = Some(*slot),
            (_, Err(Fault::TooFewSlots)) => self.is_crowded = self.random.in_hundred(90),
            (_, Err(Fault::OperationsUsed)) => self.idle = self.idle.saturating_add(1),
            (
                Call::Work {
                    number,
                    step,
                    ballot,
                    set,
                },
                Ok(_),
            ) => self.note_work(&Work {
                number: *number,
                step: *step,
                ballot: *ballot,
                set: *set,
            }),
            _ => {}
        }
    }

    fn note_work(&mut self, work: &Work) {
        self.one.note(work);
        self.other.note(work);
        if decides(work) {
            self.counted |= number_bit(work.number);
        }
    }

    // The numbers under which something is decided, as far as is known here.
    fn decided(&self, tables: &HostTables, desk: &Desk) -> u32 {
        match self.chooser {
            AnyChooser::Ledger => proposed_numbers(tables, desk),
            AnyChooser::Synod(_) => self.counted,
        }
    }

    // Mostly opens the floor; now and then a call that a closed floor refuses.
    fn opening<C: Drawn>(&mut self) -> Call<C> {
        match self.random.below(12) {
            0 => self.stray(),
            1 => Call::Open {
                count: self.node_count,
                members: self.any_members(),
                content: self.content(),
            },
            _ => Call::Open {
                count: self.node_count,
                members: self.members(),
                content: self.content(),
            },
        }
    }

    // Where a call of the wanted sort finds nothing to do: a step towards the next group, or a delivery, or any start.
    fn instead<C: Drawn>(&mut self, tables: &HostTables, desk: &Desk) -> Call<C> {
        let step = match self.random.below(4) {
            0 => self.propose(tables, desk),
            1 => self.settle(tables, desk),
            2 => self.work(tables, desk),
            _ => None,
        };
        if let Some(call) = step {
            return call;
        }
        if let Some(call) = self.deliver(tables) {
            return call;
        }
        let start = match self.random.below(2) {
            0 => self.read(tables),
            _ => self.write(tables),
        };
        match start {
            Some(call) => call,
            None => Call::Regroup {
                node: member(&mut self.random, tables).unwrap_or(1),
                members: self.members(),
            },
        }
    }

    // Some nodes fall behind, others catch up: mostly a primary falls behind, or nobody. What missed acknowledgements first gets these.
    fn any_lag(&mut self, tables: &HostTables) -> Lag {
        if self.lag.missing == Missing::Acknowledgements {
            return Lag {
                missing: Missing::Changes,
                ..self.lag
            };
        }
        let drawn = self.random.next() & self.random.next();
        let nodes = match self.random.below(4) {
            0 => 0,
            1 => (drawn & 0x1_ffff) as u32,
            _ => match primary(&mut self.random, tables) {
                Some(node) => number_bit(node),
                None => 0,
            },
        };
        let missing = match self.random.below(3) {
            0 => Missing::Changes,
            1 => Missing::Acknowledgements,
            _ => Missing::All,
        };
        Lag { nodes, missing }
    }

    // Delivers a frame. One to a node that has fallen behind is mostly lost, or left where it is.
    fn deliver<C: Drawn>(&mut self, tables: &HostTables) -> Option<Call<C>> {
        let slot = some_frame(&mut self.random, tables, Lag::NONE)?;
        if self.random.in_hundred(4) || !is_missed(tables, slot, self.lag) {
            return Some(Call::Deliver { slot });
        }
        let is_lossy = self.lag.missing != Missing::Acknowledgements;
        if is_lossy && self.random.in_hundred(50) {
            return Some(Call::Lose { slot });
        }
        let slot = some_frame(&mut self.random, tables, self.lag)?;
        Some(Call::Deliver { slot })
    }

    // Loses the frame that was just delivered, or any.
    fn lose<C: Drawn>(&mut self, tables: &HostTables) -> Option<Call<C>> {
        let slot = match self.to_lose {
            Some(slot) => slot,
            None => some_frame(&mut self.random, tables, Lag::NONE)?,
        };
        Some(Call::Lose { slot })
    }

    fn read<C: Drawn>(&mut self, tables: &HostTables) -> Option<Call<C>> {
        let found = primary(&mut self.random, tables);
        let node = self.or_any_node(found)?;
        Some(Call::Read { node })
    }

    fn write<C: Drawn>(&mut self, tables: &HostTables) -> Option<Call<C>> {
        let found = primary(&mut self.random, tables);
        let node = self.or_any_node(found)?;
        let content = self.content();
        Some(Call::Write { node, content })
    }

    fn regroup<C: Drawn>(&mut self, tables: &HostTables) -> Option<Call<C>> {
        let found = member(&mut self.random, tables);
        let node = self.or_any_node(found)?;
        let members = self.members();
        Some(Call::Regroup { node, members })
    }

    fn propose<C: Drawn>(&mut self, tables: &HostTables, desk: &Desk) -> Option<Call<C>> {
        let operation = match regroup(&mut self.random, tables, desk) {
            Some(operation) => operation,
            None if self.random.in_hundred(10) => self.operation(desk),
            None => return None,
        };
        Some(Call::Propose { operation })
    }

    fn settle<C: Drawn>(&mut self, tables: &HostTables, desk: &Desk) -> Option<Call<C>> {
        let decided = self.decided(tables, desk);
        let found = left_behind(&mut self.random, tables, decided);
        let node = self.or_any_node(found)?;
        Some(Call::Settle { node })
    }

    // A step of one of the two campaigns. One that is over begins anew, under a number that is not decided yet.
    fn work<C: Drawn>(&mut self, tables: &HostTables, desk: &Desk) -> Option<Call<C>> {
        let decided = self.decided(tables, desk);
        let fresh = undecided(&mut self.random, tables, desk, decided);
        let is_one = self.random.in_hundred(75);
        let mut campaign = if is_one { self.one } else { self.other };
        if campaign.is_over() {
            let (number, offers) = fresh?;
            campaign = Campaign::new(&mut self.random, number, offers);
        }
        let work = campaign.next();
        if is_one {
            self.one = campaign;
        } else {
            self.other = campaign;
        }
        Some(Call::Work {
            number: work.number,
            step: work.step,
            ballot: work.ballot,
            set: work.set,
        })
    }

    // The node that was found; now and then, and more often where none was found, any.
    fn or_any_node(&mut self, found: Option<u8>) -> Option<u8> {
        let share = if found.is_some() { 3 } else { 12 };
        if self.random.in_hundred(share) {
            return Some(self.any_node());
        }
        found
    }

    // Any node of the floor.
    fn any_node(&mut self) -> u8 {
        self.random.byte_below(self.node_count).saturating_add(1)
    }

    // An operation; now and then the first that was not started.
    fn operation(&mut self, desk: &Desk) -> u16 {
        self.random.below(desk.operations_used.saturating_add(1))
    }

    // A content that no other of this schedule is like.
    fn content<C: Drawn>(&mut self) -> C {
        self.contents = self.contents.wrapping_add(1);
        C::numbered(self.contents, &mut self.random)
    }

    // A lawful list of nodes of the floor.
    fn members(&mut self) -> Members {
        let most = if self.random.in_hundred(70) { 3 } else { 7 };
        let wanted = 1 + self.random.byte_below(most);
        let mut nodes = [0; LARGEST_GROUP];
        let mut count = 0usize;
        for _ in 0..wanted {
            let node = self.any_node();
            if !nodes.contains(&node) {
                if let Some(place) = nodes.get_mut(count) {
                    *place = node;
                }
                count = count.saturating_add(1);
            }
        }
        Members::new(nodes.get(..count).unwrap_or(&[]))
    }

    // A list that is seldom lawful.
    fn any_members(&mut self) -> Members {
        let mut nodes = [0; LARGEST_GROUP];
        for node in nodes.iter_mut() {
            *node = self.random.byte_below(HIGHEST_NODE + 3);
        }
        Members {
            nodes,
            count: self.random.byte_below(10),
        }
    }

    // A call with any arguments, most of them near the bounds of what is allowed.
    fn stray<C: Drawn>(&mut self) -> Call<C> {
        let node = self.random.byte_below(HIGHEST_NODE + 2);
        let operation = self.random.below(200);
        let slot = self.random.below(300);
        match self.random.below(12) {
            0 => Call::Open {
                count: self.random.byte_below(HIGHEST_NODE + 4),
                members: self.any_members(),
                content: self.content(),
            },
            1 => Call::Read { node },
            2 => Call::Write {
                node,
                content: self.content(),
            },
            3 => Call::Regroup {
                node,
                members: self.any_members(),
            },
            4 => Call::Propose { operation },
            5 => Call::Settle { node },
            6 => Call::Work {
                number: self.random.byte_below(18),
                step: self.random.byte_below(6),
                ballot: self.random.byte_below(17),
                set: self.random.byte_below(34),
            },
            7 => Call::Deliver { slot },
            8 => Call::Lose { slot },
            9 => Call::GiveUp { operation },
            10 => Call::Look { operation },
            _ => Call::Regroup {
                node: self.any_node(),
                members: self.any_members(),
            },
        }
    }
}
