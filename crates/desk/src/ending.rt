//! The calls that end something, and the look at an operation.
ghost use Rattle.std.specs.Prelude.{◌≡◌};
ghost use Rattle.desk.specs.Tables.{tables};
ghost use Rattle.desk.specs.Ending.{lose_step, may_give_up, give_up_step, may_stop, stop_step, look_step};

use crate::asking::{running, served, started};
use crate::desk::Desk;
use fault::Fault;
use node::{write_record, write_row};
use tables::{NodeRecord, OperationRow, OperationState, ProposalRow};

/// Loses the frame in a slot: all its bytes are 0. Refused with 3 if there is no such slot, or it is empty.
pub fn lose(
    desk: &Desk,
    nodes: &[NodeRecord],
    operations: &[OperationRow],
    frames: &mut [u8],
    proposals: &[ProposalRow],
    slot: u16,
) -> Result<(), Fault>
    ensures { (result, tables nodes.now operations.now frames.new proposals.now) ≡ lose_step desk.now (tables nodes.now operations.now frames.old proposals.now) slot }
{
    served(desk, nodes, operations, frames, proposals)?;
    slots::lose(frames, usize::from(slot))?;
    Ok(())
}

/// Gives up an operation that is open. Refused with 5 if it was not started, with 6 if it is no longer open.
pub fn give_up(
    desk: &Desk,
    nodes: &[NodeRecord],
    operations: &mut [OperationRow],
    frames: &[u8],
    proposals: &[ProposalRow],
    operation: u16,
) -> Result<(), Fault>
    ensures { (result, tables nodes.now operations.new frames.now proposals.now) ≡ give_up_step desk.now (tables nodes.now operations.old frames.now proposals.now) operation }
{
    let mut row = may_give_up(desk, nodes, operations, frames, proposals, operation)?;
    row.state = OperationState::GivenUp;
    write_row(operations, operation, row);
    Ok(())
}

// The row of the operation if it is open, or the first ground on which the call stops.
fn may_give_up(
    desk: &Desk,
    nodes: &[NodeRecord],
    operations: &[OperationRow],
    frames: &[u8],
    proposals: &[ProposalRow],
    operation: u16,
) -> Result<OperationRow, Fault>
    ensures { result ≡ may_give_up desk.now (tables nodes.now operations.now frames.now proposals.now) operation }
{
    served(desk, nodes, operations, frames, proposals)?;
    let row = started(desk, operations, operation)?;
    if row.state != OperationState::Open {
        return Err(Fault::NotOpen);
    }
    Ok(row)
}

/// Stops a node: from now on it takes no frame, and no call is made on it. Refused with 7 if there is no such node, with 8 if it has stopped already.
pub fn stop(
    desk: &Desk,
    nodes: &mut [NodeRecord],
    operations: &[OperationRow],
    frames: &[u8],
    proposals: &[ProposalRow],
    node: u8,
) -> Result<(), Fault>
    ensures { (result, tables nodes.new operations.now frames.now proposals.now) ≡ stop_step desk.now (tables nodes.old operations.now frames.now proposals.now) node }
{
    let mut record = may_stop(desk, nodes, operations, frames, proposals, node)?;
    record.stopped = true;
    write_record(nodes, node, record);
    Ok(())
}

// The record of the node if it is running, or the first ground on which the call stops.
fn may_stop(
    desk: &Desk,
    nodes: &[NodeRecord],
    operations: &[OperationRow],
    frames: &[u8],
    proposals: &[ProposalRow],
    node: u8,
) -> Result<NodeRecord, Fault>
    ensures { result ≡ may_stop desk.now (tables nodes.now operations.now frames.now proposals.now) node }
{
    served(desk, nodes, operations, frames, proposals)?;
    running(desk, nodes, node)
}

/// Answers the row of an operation into the place that is handed along; a refused look leaves that as it was. Refused with 5 if the operation was not started.
pub fn look(
    desk: &Desk,
    nodes: &[NodeRecord],
    operations: &[OperationRow],
    frames: &[u8],
    proposals: &[ProposalRow],
    operation: u16,
    row: &mut OperationRow,
) -> Result<(), Fault>
    ensures { (result, row.new) ≡ look_step desk.now (tables nodes.now operations.now frames.now proposals.now) operation row.old }
{
    served(desk, nodes, operations, frames, proposals)?;
    *row = started(desk, operations, operation)?;
    Ok(())
}
