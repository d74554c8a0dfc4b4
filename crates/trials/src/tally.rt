//! What is counted over all schedules, and how it is printed.
use crate::damage::{DAMAGES, Damage};
use crate::history::{History, Holding};
use crate::known::{Knowledge, Known};
use calls::{Answer, Call};
use content::Content;
use fault::Fault;
use std::io;

// The numbers of the grounds are 1 to 21.
const GROUNDS: usize = 22;

// The names of the calls, in the order of kind_of.
const NAMES: [&str; CALLS] = [
    "open", "read", "write", "regroup", "propose", "settle", "work", "deliver", "lose", "give up",
    "stop", "look",
];

const CALLS: usize = 12;

/// What is counted.
#[derive(Drop)]
pub(crate) struct Tally {
    schedules: u64,
    calls: u64,
    /// calls that are no part of a run, and have to be refused
    aside: u64,
    taken: [u64; CALLS],
    refused: [u64; CALLS],
    grounds: [u64; GROUNDS],
    reads_answered: u64,
    writes_answered: u64,
    counted: u64,
    /// writes that no call answered, whose tag an answered read gave
    came_to_light: u64,
    /// reads and writes started under a number after a node held a higher one
    started_late: u64,
    answered_late: u64,
    hand_overs: u64,
    highest: u8,
    most_regroups: u32,
    pub broken: u64,
    made: [u64; DAMAGES],
    found: [u64; DAMAGES],
}

impl Tally {
    /// Nothing is counted yet.
    pub(crate) fn new() -> Tally {
        Tally {
            schedules: 0,
            calls: 0,
            aside: 0,
            taken: [0; CALLS],
            refused: [0; CALLS],
            grounds: [0; GROUNDS],
            reads_answered: 0,
            writes_answered: 0,
            counted: 0,
            came_to_light: 0,
            started_late: 0,
            answered_late: 0,
            hand_overs: 0,
            highest: 0,
            most_regroups: 0,
            broken: 0,
            made: [0; DAMAGES],
            found: [0; DAMAGES],
        }
    }

    /// Counts a call of a run.
    pub(crate) fn count_call<C: Content>(
        &mut self,
        call: &Call<C>,
        answer: &Result<Answer, Fault>,
    ) {
        one_more(&mut self.calls);
        let kind = kind_of(call);
        match answer {
            Ok(_) => count_at(&mut self.taken, kind),
            Err(fault) => {
                count_at(&mut self.refused, kind);
                count_at(&mut self.grounds, usize::from(fault.number()));
            }
        }
    }

    /// Counts a call that is no part of the run. It has to be refused.
    pub(crate) fn count_aside(&mut self, answer: &Result<Answer, Fault>) {
        one_more(&mut self.aside);
        match answer {
            Ok(_) => one_more(&mut self.broken),
            Err(fault) => count_at(&mut self.grounds, usize::from(fault.number())),
        }
    }

    /// Counts how many nodes have a regroup under way at once.
    pub(crate) fn count_regroups(&mut self, nodes: u32) {
        self.most_regroups = self.most_regroups.max(nodes);
    }

    /// Counts a schedule that was played to its end.
    pub(crate) fn count_schedule(&mut self, history: &History, knowledge: &Knowledge) {
        one_more(&mut self.schedules);
        self.count_configurations(history.held.as_slice());
        for known in knowledge.operations.iter() {
            self.count_operation(known, history.held.as_slice());
        }
    }

    fn count_configurations(&mut self, held: &[Holding]) {
        let mut seen = 0u32;
        for holding in held.iter() {
            let number = holding.found.number;
            let bit = 1 << u32::from(number % 32);
            if number > 0 && seen & bit == 0 {
                one_more(&mut self.hand_overs);
            }
            seen |= bit;
            self.highest = self.highest.max(number);
        }
    }

    fn count_operation(&mut self, known: &Known, held: &[Holding]) {
        if known.counted {
            one_more(&mut self.counted);
        }
        if let Some(start) = known.started {
            if is_late(known.row.number, start.place, held) {
                one_more(&mut self.started_late);
            }
        }
        match known.answered {
            Some(place) => self.count_answer(known, place, held),
            None if known.counted => one_more(&mut self.came_to_light),
            None => {}
        }
    }

    fn count_answer(&mut self, known: &Known, place: usize, held: &[Holding]) {
        if known.is_read() {
            one_more(&mut self.reads_answered);
        } else {
            one_more(&mut self.writes_answered);
        }
        if is_late(known.row.number, place, held) {
            one_more(&mut self.answered_late);
        }
    }

    /// Counts a damage that was made, and whether it was found.
    pub(crate) fn count_damage(&mut self, damage: Damage, is_found: bool) {
        let counts = self.made.iter_mut().zip(self.found.iter_mut());
        for (other, (made, found)) in Damage::ALL.iter().zip(counts) {
            if *other == damage {
                one_more(made);
                if is_found {
                    one_more(found);
                }
            }
        }
    }

    /// Whether the law was kept, and each damage was found.
    pub(crate) fn is_well(&self) -> bool {
        self.broken == 0 && self.made == self.found
    }

    /// Prints all that was counted.
    pub(crate) fn print(&self, rt: &impl Print) -> io::Result<()> {
        let Tally {
            schedules,
            calls,
            aside,
            ..
        } = self;
        println!(rt; "schedules: {schedules}")?;
        println!(rt; "calls: {calls}, and {aside} that have to be refused")?;
        self.print_calls(rt)?;
        self.print_grounds(rt)?;
        self.print_operations(rt)?;
        self.print_damages(rt)?;
        let broken = self.broken;
        println!(rt; "order broken: {broken}")
    }

    fn print_calls(&self, rt: &impl Print) -> io::Result<()> {
        let counts = self.taken.iter().zip(self.refused.iter());
        for (name, (taken, refused)) in NAMES.iter().zip(counts) {
            println!(rt; "  {name}: {taken} taken, {refused} refused")?;
        }
        Ok(())
    }

    fn print_grounds(&self, rt: &impl Print) -> io::Result<()> {
        println!(rt; "refused on ground")?;
        for (number, count) in self.grounds.iter().enumerate().skip(1) {
            println!(rt; "  {number}: {count}")?;
        }
        Ok(())
    }

    fn print_operations(&self, rt: &impl Print) -> io::Result<()> {
        let reads = self.reads_answered;
        let writes = self.writes_answered;
        let counted = self.counted;
        println!(rt; "answered: {reads} reads, {writes} writes")?;
        let came_to_light = self.came_to_light;
        println!(rt; "counted: {counted}, of them {came_to_light} writes that were not answered")?;
        let started = self.started_late;
        let answered = self.answered_late;
        println!(rt;
            "left behind by a later configuration: {started} reads and writes started, {answered} answered"
        )?;
        let hand_overs = self.hand_overs;
        let highest = self.highest;
        let most = self.most_regroups;
        println!(rt;
            "hand-overs: {hand_overs}, the highest configuration {highest}, regroups under way at once at most {most}"
        )
    }

    fn print_damages(&self, rt: &impl Print) -> io::Result<()> {
        println!(rt; "damaged histories")?;
        let counts = self.made.iter().zip(self.found.iter());
        for (damage, (made, found)) in Damage::ALL.iter().zip(counts) {
            let part = damage.part();
            println!(rt; "  {damage}: {made} made, {found} found to break {part}")?;
        }
        Ok(())
    }
}

fn one_more(count: &mut u64) {
    *count = count.saturating_add(1);
}

fn count_at(counts: &mut [u64], place: usize) {
    if let Some(count) = counts.get_mut(place) {
        one_more(count);
    }
}

// Whether a node held a higher number before this place.
fn is_late(number: u8, place: usize, held: &[Holding]) -> bool {
    held.iter().any(|holding| holding.found.number > number && holding.place < place)
}

fn kind_of<C: Content>(call: &Call<C>) -> usize {
    match call {
        Call::Open { .. } => 0,
        Call::Read { .. } => 1,
        Call::Write { .. } => 2,
        Call::Regroup { .. } => 3,
        Call::Propose { .. } => 4,
        Call::Settle { .. } => 5,
        Call::Work { .. } => 6,
        Call::Deliver { .. } => 7,
        Call::Lose { .. } => 8,
        Call::GiveUp { .. } => 9,
        Call::Stop { .. } => 10,
        Call::Look { .. } => 11,
    }
}
