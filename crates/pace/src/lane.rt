//! A floor and its tables, and the calls that are made on it.
use crate::digest::Digest;
use crate::phase::Step;
use chooser::Chooser;
use delivery::Delivery;
use fault::Fault;
use floor::Floor;
use host::{HostTables, TableLengths};
use quorum::Majority;
use quote::Quote;
use refusal::Refusal;
use std::alloc::{AllocError, Global};
use tables::{Members, NodeRecord, OperationRow, SheetCopy};

/// How many nodes there are.
const NODES: u8 = 16;

/// The ballot of the offer that stands first.
const BALLOT: u8 = 8;

/// A floor, and the tables that are handed to it.
#[derive(Drop)]
pub(crate) struct Lane<S: Chooser + Drop> {
    floor: Floor<Quote, Majority, S>,
    host: HostTables,
    /// What the next write writes is made of this.
    price: u32,
}

impl<S: Chooser + Drop> Lane<S> {
    pub(crate) fn new(
        alloc: Global,
        lengths: TableLengths,
        chooser: S,
    ) -> Result<Lane<S>, AllocError> {
        Ok(Lane {
            floor: Floor::new(Majority, chooser),
            host: HostTables::new(alloc, lengths)?,
            price: 0,
        })
    }

    /// A new floor on the same tables.
    pub(crate) fn renew(&mut self, chooser: S) {
        self.floor = Floor::new(Majority, chooser);
    }

    /// Makes the calls of a step.
    pub(crate) fn make(&mut self, step: &Step, digest: &mut Digest) {
        match step {
            Step::Open { members } => digest.add(self.open(*members)),
            Step::Read { node, count } => self.read_often(*node, *count, digest),
            Step::Write { node, count } => self.write_often(*node, *count, digest),
            Step::Deliver { first, end } => self.deliver_each(*first, *end, digest),
            Step::Lose { first, end } => self.lose_each(*first, *end, digest),
            Step::Regroup { node, members } => digest.add(self.regroup(*node, *members)),
            Step::Propose { operation } => digest.add(self.propose(*operation)),
            Step::Work { number } => self.decide(*number, digest),
            Step::Settle { node } => digest.add(self.settle(*node)),
        }
    }

    /// Adds what the tables hold, but for opening tags, stopped marks and proposal rows.
    pub(crate) fn add_tables(&self, digest: &mut Digest) {
        digest.add_bytes(&self.host.frames);
        for record in self.host.nodes.iter() {
            add_record(record, digest);
        }
        for row in self.host.operations.iter() {
            add_row(row, digest);
        }
    }

    fn read_often(&mut self, node: u8, count: u16, digest: &mut Digest) {
        for _ in 0..count {
            digest.add(self.read(node));
        }
    }

    fn write_often(&mut self, node: u8, count: u16, digest: &mut Digest) {
        for _ in 0..count {
            digest.add(self.write(node));
        }
    }

    fn deliver_each(&mut self, first: u16, end: u16, digest: &mut Digest) {
        for slot in first..end {
            digest.add(self.deliver(slot));
        }
    }

    fn lose_each(&mut self, first: u16, end: u16, digest: &mut Digest) {
        for slot in first..end {
            digest.add(self.lose(slot));
        }
    }

    // Three of five acceptors promise and accept the ballot of the first offer, and it is counted.
    fn decide(&mut self, number: u8, digest: &mut Digest) {
        for (step, set) in WORK {
            digest.add(self.work(number, step, set));
        }
    }

    fn open(&mut self, members: Members) -> u64 {
        let Ok(content) = Quote::new(500, 510) else {
            return 0;
        };
        done(
            self.floor.open(
                &mut self.host.nodes,
                &self.host.operations,
                &mut self.host.frames,
                &self.host.proposals,
                NODES,
                members,
                &content,
            ),
        )
    }

    fn read(&mut self, node: u8) -> u64 {
        row(
            self.floor.read(
                &self.host.nodes,
                &mut self.host.operations,
                &mut self.host.frames,
                &self.host.proposals,
                node,
            ),
        )
    }

    fn write(&mut self, node: u8) -> u64 {
        self.price = self.price.wrapping_add(1);
        let Ok(content) = Quote::new(self.price, u32::MAX) else {
            return 0;
        };
        row(
            self.floor.write(
                &mut self.host.nodes,
                &mut self.host.operations,
                &mut self.host.frames,
                &self.host.proposals,
                node,
                &content,
            ),
        )
    }

    fn deliver(&mut self, slot: u16) -> u64 {
        delivered(
            self.floor.deliver(
                &mut self.host.nodes,
                &mut self.host.operations,
                &mut self.host.frames,
                &self.host.proposals,
                slot,
            ),
        )
    }

    fn lose(&mut self, slot: u16) -> u64 {
        done(
            self.floor.lose(
                &self.host.nodes,
                &self.host.operations,
                &mut self.host.frames,
                &self.host.proposals,
                slot,
            ),
        )
    }

    fn regroup(&mut self, node: u8, members: Members) -> u64 {
        row(
            self.floor.regroup(
                &mut self.host.nodes,
                &mut self.host.operations,
                &mut self.host.frames,
                &self.host.proposals,
                node,
                members,
            ),
        )
    }

    fn propose(&mut self, operation: u16) -> u64 {
        small(
            self.floor.propose(
                &self.host.nodes,
                &mut self.host.operations,
                &self.host.frames,
                &mut self.host.proposals,
                operation,
            ),
        )
    }

    fn work(&mut self, number: u8, step: u8, set: u8) -> u64 {
        done(
            self.floor.work(
                &self.host.nodes,
                &self.host.operations,
                &self.host.frames,
                &self.host.proposals,
                number,
                step,
                BALLOT,
                set,
            ),
        )
    }

    fn settle(&mut self, node: u8) -> u64 {
        small(
            self.floor.settle(
                &self.host.nodes,
                &self.host.operations,
                &mut self.host.frames,
                &self.host.proposals,
                node,
            ),
        )
    }
}

// The steps of work by which a synod decides, with their sets: three promise, the ballot is fixed, three accept, it is counted.
const WORK: [(u8, u8); 8] = [
    (1, 0b00001),
    (1, 0b00010),
    (1, 0b00100),
    (2, 0b00111),
    (3, 0b00001),
    (3, 0b00010),
    (3, 0b00100),
    (4, 0b00111),
];

// A ground's number, apart from all other answers.
fn refused(fault: Fault) -> u64 {
    10_000 + u64::from(fault.number())
}

fn done(answer: Result<(), Fault>) -> u64 {
    match answer {
        Ok(()) => 0,
        Err(fault) => refused(fault),
    }
}

fn row(answer: Result<u16, Fault>) -> u64 {
    match answer {
        Ok(row) => u64::from(row),
        Err(fault) => refused(fault),
    }
}

fn small(answer: Result<u8, Fault>) -> u64 {
    match answer {
        Ok(number) => u64::from(number),
        Err(fault) => refused(fault),
    }
}

fn delivered(answer: Result<Delivery, Fault>) -> u64 {
    match answer {
        Ok(delivery) => u64::from(delivery.number()),
        Err(fault) => refused(fault),
    }
}

fn add_copy(copy: &SheetCopy, digest: &mut Digest) {
    digest.add(u64::from(copy.tag.version));
    digest.add(u64::from(copy.tag.node));
    digest.add_bytes(&copy.content);
}

fn add_members(members: &Members, digest: &mut Digest) {
    digest.add(u64::from(members.count));
    digest.add_bytes(&members.nodes);
}

fn add_record(record: &NodeRecord, digest: &mut Digest) {
    digest.add(record.status as u64);
    digest.add(u64::from(record.configuration.number));
    add_members(&record.configuration.members, digest);
    add_copy(&record.stored, digest);
    add_copy(&record.served, digest);
    digest.add(u64::from(record.newest));
}

fn add_row(row: &OperationRow, digest: &mut Digest) {
    digest.add(row.kind as u64);
    digest.add(row.state as u64);
    digest.add(u64::from(row.node));
    digest.add(u64::from(row.number));
    add_copy(&row.copy, digest);
    add_members(&row.members, digest);
    digest.add(u64::from(row.set));
    digest.add(u64::from(row.start));
    digest.add(u64::from(row.answer));
}
