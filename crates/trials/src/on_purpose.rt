//! Calls that are bound to be refused, mostly since a table was altered for them, which is put back.
//! They are no calls of the run: a refused call changes nothing, so the run goes on as if they had not been made.
use crate::drawer::Drawer;
use crate::drawn::Drawn;
use crate::find::find_slot;
use crate::host_floor::HostFloor;
use crate::mood::Sort;
use crate::random::Random;
use calls::{Answer, Call};
use chooser::Chooser;
use fault::Fault;
use frame::{HIGHEST_VERSION, SLOT};
use quorum::QuorumRule;

/// Makes such a call, and tells what it was answered.
pub(crate) fn refused_on_purpose<C: Drawn, Q: QuorumRule + Drop, S: Chooser + Drop>(
    host: &mut HostFloor<C, Q, S>,
    drawer: &mut Drawer,
) -> Result<Answer, Fault> {
    if !host.floor.desk().is_open {
        return host.make(&Call::Settle { node: 1 });
    }
    match drawer.random.below(3) {
        0 => short_table(host, drawer),
        1 => damaged_slot(host, &mut drawer.random),
        _ => last_version(host, drawer),
    }
}

// Any call, with too short a table.
fn short_table<C: Drawn, Q: QuorumRule + Drop, S: Chooser + Drop>(
    host: &mut HostFloor<C, Q, S>,
    drawer: &mut Drawer,
) -> Result<Answer, Fault> {
    let call = drawer.call::<C>(Sort::Stray, &host.tables, &host.floor.desk());
    host.make_with_short_table(&call)
}

// A byte of a slot, and a value that no frame has there: the kind, the receiver, the number, or the last byte of the rest.
fn damaged_byte(random: &mut Random) -> (usize, u8) {
    match random.below(4) {
        0 => (0, random.byte_below(248).saturating_add(8)),
        1 => (1, random.byte_below(239).saturating_add(17)),
        2 => (3, random.byte_below(239).saturating_add(17)),
        _ => (31, random.byte_below(255).saturating_add(1)),
    }
}

// Delivers a frame with a damaged byte.
fn damaged_slot<C: Drawn, Q: QuorumRule + Drop, S: Chooser + Drop>(
    host: &mut HostFloor<C, Q, S>,
    random: &mut Random,
) -> Result<Answer, Fault> {
    let frames = host.tables.frames.as_slice();
    let start = random.index(frames.len() / SLOT);
    let Some(slot) = find_slot(frames, start, |_: &[u8]| true) else {
        return host.make(&Call::Deliver { slot: u16::MAX });
    };
    let (offset, value) = damaged_byte(random);
    let place = slot.saturating_mul(SLOT).saturating_add(offset);
    let whole = frames.get(place).copied().unwrap_or(0);
    put_byte(host, place, value);
    let answer = host.make(&Call::Deliver {
        slot: u16::try_from(slot).unwrap_or(u16::MAX),
    });
    put_byte(host, place, whole);
    answer
}

fn put_byte<C: Drawn, Q: QuorumRule + Drop, S: Chooser + Drop>(
    host: &mut HostFloor<C, Q, S>,
    place: usize,
    value: u8,
) {
    if let Some(byte) = host.tables.frames.get_mut(place) {
        *byte = value;
    }
}

// Starts a write at a node that has given out the last version.
fn last_version<C: Drawn, Q: QuorumRule + Drop, S: Chooser + Drop>(
    host: &mut HostFloor<C, Q, S>,
    drawer: &mut Drawer,
) -> Result<Answer, Fault> {
    let call = drawer.call::<C>(Sort::Write, &host.tables, &host.floor.desk());
    let Call::Write { node, .. } = &call else {
        return host.make(&Call::Look {
            operation: u16::MAX,
        });
    };
    let place = usize::from(*node).saturating_sub(1);
    let newest = match host.tables.nodes.get(place) {
        Some(record) => record.newest,
        None => 0,
    };
    put_newest(host, place, HIGHEST_VERSION);
    let answer = host.make(&call);
    put_newest(host, place, newest);
    answer
}

fn put_newest<C: Drawn, Q: QuorumRule + Drop, S: Chooser + Drop>(
    host: &mut HostFloor<C, Q, S>,
    place: usize,
    newest: u16,
) {
    if let Some(record) = host.tables.nodes.get_mut(place) {
        record.newest = newest;
    }
}
