//! What a call did, told from its answer and from the tables before and after it.
ghost use Rattle.std.specs.Prelude.{◌≡◌, slice_get};
ghost use Rattle.desk.specs.Asking.{record_of};
ghost use Rattle.chart.specs.Events.{happened, numbered, opening_copy, started, proposed, settled, delivered, answered, lost, given_up, change_at, change_of, node_of, row_node, receiver};

use crate::arrow::Arrow;
use calls::{Answer, Call};
use content::Content;
use desk::record_of;
use fault::Fault;
use frame::Tag;
use tables::{Configuration, Members, NodeRecord, OperationRow, SheetCopy, Status};

/// What is seen of a floor round a call.
#[derive(Clone, Copy)]
pub struct Sight<'a> {
    /// The frame that lay before the call in the slot that it names.
    pub arrow: Option<Arrow>,
    /// Whether that frame was delivered before.
    pub repeat: bool,
    /// The records of the nodes before the call.
    pub before: &'a [NodeRecord],
    /// The same after it.
    pub after: &'a [NodeRecord],
    /// The rows of the operations that were started, after the call.
    pub operations: &'a [OperationRow],
}

/// What a call did, as far as a chart shows it.
#[derive(Clone, Copy)]
pub enum Event {
    /// The floor was opened: configuration 0, and its copy.
    Opened {
        members: Members,
        copy: SheetCopy,
    },
    /// An operation was started.
    Started {
        operation: u16,
        row: OperationRow,
    },
    /// What a regroup gathered was offered to the chooser.
    Proposed {
        operation: u16,
        proposal: u16,
        row: OperationRow,
    },
    /// The chooser took a step of work.
    Worked {
        number: u8,
        step: u8,
        ballot: u8,
        set: u8,
    },
    /// The decision under a number was sent to the next group.
    Settled {
        node: u8,
        number: u8,
        frames: u16,
    },
    /// A frame was delivered, and its receiver did nothing with it.
    Ignored(Arrow),
    /// A frame was delivered, and its receiver took it.
    Handled {
        arrow: Arrow,
        change: Change,
    },
    /// A frame was delivered, and its operation is answered by it.
    Answered {
        arrow: Arrow,
        operation: u16,
        row: OperationRow,
    },
    /// A frame was lost; a repeat is one that was delivered before.
    Lost {
        arrow: Arrow,
        repeat: bool,
    },
    /// An operation was given up.
    GivenUp {
        operation: u16,
        row: OperationRow,
    },
    /// A node stopped.
    Stopped {
        node: u8,
    },
    /// The call was refused; it speaks of this node, if of any.
    Refused {
        node: Option<u8>,
        fault: Fault,
    },
    /// Nothing that a chart shows, as after a look.
    Unseen,
}

/// What taking a frame changed at a node, beside its copies.
#[derive(Clone, Copy)]
pub enum Change {
    Nothing,
    /// It serves the configuration of this number no longer.
    Froze { number: u8 },
    /// It is in this configuration from now on.
    Joined(Configuration),
}

/// What a call did, by its answer. The kind of answer that a call never gets shows nothing, and so does a frame or a row that is not there.
pub fn happened<C: Content>(
    call: &Call<C>,
    answer: Result<Answer, Fault>,
    sight: &Sight<'_>,
) -> Event
    ensures { result ≡ happened C.meaning call.now answer sight.now }
{
    match answer {
        Ok(Answer::Number(number)) => numbered(call, number, sight),
        Ok(Answer::Row(_)) => Event::Unseen,
        Err(fault) => Event::Refused {
            node: node_of(call, sight),
            fault,
        },
    }
}

// What a call did that was answered this number.
fn numbered<C: Content>(call: &Call<C>, number: u16, sight: &Sight<'_>) -> Event
    ensures { result ≡ numbered C.meaning call.now number sight.now }
{
    match call {
        Call::Open {
            members,
            content,
            ..
        } => Event::Opened {
            members: *members,
            copy: opening_copy(content),
        },
        Call::Read { .. } | Call::Write { .. } | Call::Regroup { .. } => {
            started(number, sight.operations)
        }
        Call::Propose { operation } => proposed(*operation, number, sight.operations),
        Call::Settle { node } => settled(*node, number, sight.after),
        Call::Work {
            number,
            step,
            ballot,
            set,
        } => Event::Worked {
            number: *number,
            step: *step,
            ballot: *ballot,
            set: *set,
        },
        Call::Deliver { .. } => delivered(number, sight),
        Call::Lose { .. } => lost(sight),
        Call::GiveUp { operation } => given_up(*operation, sight.operations),
        Call::Stop { node } => Event::Stopped { node: *node },
        Call::Look { .. } => Event::Unseen,
    }
}

fn opening_copy<C: Content>(content: &C) -> SheetCopy
    ensures { result ≡ opening_copy (C.meaning content.now) }
{
    SheetCopy {
        tag: Tag {
            version: 0,
            node: 0,
        },
        content: content.to_bytes(),
    }
}

fn started(operation: u16, operations: &[OperationRow]) -> Event
    ensures { result ≡ started operation (slice_get operations.now operation) }
{
    match operations.get(usize::from(operation)).copied() {
        Some(row) => Event::Started { operation, row },
        None => Event::Unseen,
    }
}

fn proposed(operation: u16, proposal: u16, operations: &[OperationRow]) -> Event
    ensures { result ≡ proposed operation proposal (slice_get operations.now operation) }
{
    match operations.get(usize::from(operation)).copied() {
        Some(row) => Event::Proposed {
            operation,
            proposal,
            row,
        },
        None => Event::Unseen,
    }
}

fn given_up(operation: u16, operations: &[OperationRow]) -> Event
    ensures { result ≡ given_up operation (slice_get operations.now operation) }
{
    match operations.get(usize::from(operation)).copied() {
        Some(row) => Event::GivenUp { operation, row },
        None => Event::Unseen,
    }
}

fn settled(node: u8, frames: u16, after: &[NodeRecord]) -> Event
    ensures { result ≡ settled node frames (record_of after.now node) }
{
    match record_of(after, node) {
        Some(record) => Event::Settled {
            node,
            number: record.configuration.number,
            frames,
        },
        None => Event::Unseen,
    }
}

// What became of the frame, by the number that a delivery answers.
fn delivered(number: u16, sight: &Sight<'_>) -> Event
    ensures { result ≡ delivered number sight.now sight.now.arrow }
{
    let Some(arrow) = sight.arrow else {
        return Event::Unseen;
    };
    match number {
        0 => Event::Ignored(arrow),
        1 => Event::Handled {
            arrow,
            change: change_at(sight.before, sight.after, arrow.head.receiver),
        },
        2 => answered(arrow, sight.operations),
        _ => Event::Unseen,
    }
}

fn answered(arrow: Arrow, operations: &[OperationRow]) -> Event
    ensures { result ≡ answered arrow operations.now arrow.operation }
{
    let Some(operation) = arrow.operation else {
        return Event::Unseen;
    };
    match operations.get(usize::from(operation)).copied() {
        Some(row) => Event::Answered {
            arrow,
            operation,
            row,
        },
        None => Event::Unseen,
    }
}

fn lost(sight: &Sight<'_>) -> Event
    ensures { result ≡ lost sight.now.repeat sight.now.arrow }
{
    match sight.arrow {
        Some(arrow) => Event::Lost {
            arrow,
            repeat: sight.repeat,
        },
        None => Event::Unseen,
    }
}

// What is other at a node than it was.
fn change_at(before: &[NodeRecord], after: &[NodeRecord], node: u8) -> Change
    ensures { result ≡ change_at (record_of before.now node) (record_of after.now node) }
{
    match (record_of(before, node), record_of(after, node)) {
        (Some(old), Some(new)) => change_of(&old, &new),
        _ => Change::Nothing,
    }
}

fn change_of(old: &NodeRecord, new: &NodeRecord) -> Change
    ensures { result ≡ change_of old.now new.now }
{
    if old.configuration.number < new.configuration.number {
        return Change::Joined(new.configuration);
    }
    if old.status != Status::Frozen && new.status == Status::Frozen {
        return Change::Froze {
            number: new.configuration.number,
        };
    }
    Change::Nothing
}

// The node that a call speaks of: by its number, by the operation that was started there, or by the frame that goes there.
fn node_of<C: Content>(call: &Call<C>, sight: &Sight<'_>) -> Option<u8>
    ensures { result ≡ node_of call.now sight.now }
{
    match call {
        Call::Read { node }
        | Call::Write { node, .. }
        | Call::Regroup { node, .. }
        | Call::Settle { node }
        | Call::Stop { node } => Some(*node),
        Call::Propose { operation } | Call::GiveUp { operation } | Call::Look { operation } => {
            row_node(sight.operations, *operation)
        }
        Call::Deliver { .. } | Call::Lose { .. } => receiver(sight.arrow),
        Call::Open { .. } | Call::Work { .. } => None,
    }
}

fn row_node(operations: &[OperationRow], operation: u16) -> Option<u8>
    ensures { result ≡ row_node (slice_get operations.now operation) }
{
    let row = operations.get(usize::from(operation))?;
    Some(row.node)
}

fn receiver(arrow: Option<Arrow>) -> Option<u8>
    ensures { result ≡ receiver arrow }
{
    Some(arrow?.head.receiver)
}
