//! Choosing what a call is about from the host's tables, so that most calls have something to do.
use crate::find::{find_from, find_slot};
use crate::random::Random;
use desk::Desk;
use frame::SLOT;
use host::HostTables;
use tables::{NodeRecord, OperationKind, OperationRow, OperationState, ProposalRow, Status};

/// A primary that may start reads and writes.
pub(crate) fn primary(random: &mut Random, tables: &HostTables) -> Option<u8> {
    let records = tables.nodes.as_slice();
    let start = random.index(records.len());
    let place = find_from(records, start, |place: usize, record: &NodeRecord| {
        let leads = record.configuration.members.primary() == node_at(place);
        leads && record.status == Status::Active && !record.stopped
    })?;
    Some(node_at(place))
}

/// A node that is in a group, mostly in the latest.
pub(crate) fn member(random: &mut Random, tables: &HostTables) -> Option<u8> {
    with_number(random, tables, u32::MAX)
}

/// A node in a group that something is decided to follow, by the bits of these numbers, mostly in the latest group.
pub(crate) fn left_behind(random: &mut Random, tables: &HostTables, decided: u32) -> Option<u8> {
    with_number(random, tables, decided)
}

// A node that is in a group with one of these numbers, mostly in the latest group.
fn with_number(random: &mut Random, tables: &HostTables, numbers: u32) -> Option<u8> {
    let records = tables.nodes.as_slice();
    let start = random.index(records.len());
    let lowest = if random.in_hundred(80) {
        latest_number(records)
    } else {
        0
    };
    let place = find_from(records, start, |_: usize, record: &NodeRecord| {
        let number = record.configuration.number;
        let fits = numbers & number_bit(number) != 0 && number >= lowest;
        fits && record.status != Status::Idle && !record.stopped
    })?;
    Some(node_at(place))
}

// The highest number of a configuration that a node is in.
fn latest_number(records: &[NodeRecord]) -> u8 {
    let mut latest = 0;
    for record in records.iter() {
        latest = latest.max(record.configuration.number);
    }
    latest
}

/// An open regroup that may be proposed as far as is seen here, or, now and then, any for which a place froze. Later ones are found more often.
pub(crate) fn regroup(random: &mut Random, tables: &HostTables, desk: &Desk) -> Option<u16> {
    let used = usize::from(desk.operations_used);
    let start = random.index(used).max(random.index(used));
    let is_careless = random.in_hundred(10);
    let rows = tables.operations.get(..used).unwrap_or(&[]);
    let place = find_from(rows, start, |_: usize, row: &OperationRow| {
        let is_open = row.kind == OperationKind::Regroup && row.state == OperationState::Open;
        is_open && row.set != 0 && (is_careless || is_ready(row, tables))
    })?;
    Some(two_bytes(place))
}

// Whether the node is still under the regroup's number, and more than half of its group froze.
fn is_ready(row: &OperationRow, tables: &HostTables) -> bool {
    let place = usize::from(row.node).saturating_sub(1);
    let Some(record) = tables.nodes.get(place) else {
        return false;
    };
    let size = u32::from(record.configuration.members.size());
    record.configuration.number == row.number && row.set.count_ones() * 2 > size
}

/// A number under which something is proposed and nothing is decided, and how many proposals it has.
pub(crate) fn undecided(
    random: &mut Random,
    tables: &HostTables,
    desk: &Desk,
    decided: u32,
) -> Option<(u8, u8)> {
    let rows = proposed(tables, desk);
    let start = random.index(rows.len());
    let place = find_from(rows, start, |_: usize, row: &ProposalRow| {
        decided & number_bit(row.number) == 0
    })?;
    let number = rows.get(place)?.number;
    let count = rows.iter().filter(|row| row.number == number).count();
    Some((number, u8::try_from(count).unwrap_or(u8::MAX)))
}

/// The numbers under which something is proposed, as bits.
pub(crate) fn proposed_numbers(tables: &HostTables, desk: &Desk) -> u32 {
    let mut numbers = 0;
    for row in proposed(tables, desk).iter() {
        numbers |= number_bit(row.number);
    }
    numbers
}

/// Nodes that miss frames for a while, as bits.
#[derive(Clone, Copy, Debug, PartialEq, Eq)]
pub(crate) struct Lag {
    pub nodes: u32,
    pub missing: Missing,
}

/// Which frames are missed.
#[derive(Clone, Copy, Debug, PartialEq, Eq)]
pub(crate) enum Missing {
    /// those by which a node hears of a change of its group
    Changes,
    /// these, and acknowledgements
    Acknowledgements,
    All,
}

impl Lag {
    /// No node misses anything.
    pub(crate) const NONE: Lag = Lag {
        nodes: 0,
        missing: Missing::Changes,
    };

    // Whether a frame is missed: its kind is its first byte, its receiver the second.
    fn misses(&self, frame: &[u8]) -> bool {
        let kind = frame.first().copied().unwrap_or(0);
        let receiver = frame.get(1).copied().unwrap_or(0);
        let is_hidden = match self.missing {
            Missing::Changes => is_change(kind),
            Missing::Acknowledgements => is_change(kind) || kind == GET_ACK || kind == PUT_ACK,
            Missing::All => true,
        };
        is_hidden && self.nodes & number_bit(receiver) != 0
    }
}

// Kinds of frames.
const GET_ACK: u8 = 2;

const PUT_ACK: u8 = 4;

const FREEZE: u8 = 5;

const UPDATE: u8 = 7;

fn is_change(kind: u8) -> bool {
    kind == FREEZE || kind == UPDATE
}

/// A slot with a frame that is not missed.
pub(crate) fn some_frame(random: &mut Random, tables: &HostTables, lag: Lag) -> Option<u16> {
    let frames = tables.frames.as_slice();
    let start = random.index(frames.len() / SLOT);
    let slot = find_slot(frames, start, |frame: &[u8]| !lag.misses(frame))?;
    Some(two_bytes(slot))
}

/// Whether the frame in a slot is missed.
pub(crate) fn is_missed(tables: &HostTables, slot: u16, lag: Lag) -> bool {
    let start = usize::from(slot) * SLOT;
    match tables.frames.get(start..start + SLOT) {
        Some(frame) => lag.misses(frame),
        None => false,
    }
}

/// A number as a bit.
pub(crate) fn number_bit(number: u8) -> u32 {
    1 << u32::from(number % 32)
}

// The rows of proposals that are used.
fn proposed<'a>(tables: &'a HostTables, desk: &Desk) -> &'a [ProposalRow] {
    let used = usize::from(desk.proposals_used);
    tables.proposals.get(..used).unwrap_or(&[])
}

// The node whose record stands at a place.
fn node_at(place: usize) -> u8 {
    u8::try_from(place).unwrap_or(u8::MAX).saturating_add(1)
}

fn two_bytes(number: usize) -> u16 {
    u16::try_from(number).unwrap_or(u16::MAX)
}
