//! What calls ask before they do anything.
ghost use Rattle.std.specs.Prelude.{◌≡◌, ◌≤◌, length, Ok};
ghost use Rattle.desk.specs.Limits.{most_operations, most_proposals};
ghost use Rattle.desk.specs.Tables.{tables};
ghost use Rattle.desk.specs.Asking.{served, record_of, running, started};

use crate::desk::{Desk, allowed_lengths, lengths_of};
use fault::Fault;
use tables::{NodeRecord, OperationRow, ProposalRow};

/// Whether the floor serves these tables: refused with 1 if it is closed, with 2 if a table's length is not allowed, or not that of the opening.
pub fn served(
    desk: &Desk,
    nodes: &[NodeRecord],
    operations: &[OperationRow],
    frames: &[u8],
    proposals: &[ProposalRow],
) -> Result<(), Fault>
    ensures answer { result ≡ served desk.now (tables nodes.now operations.now frames.now proposals.now) }
    ensures bounded { result ≡ Ok tt → (length operations.now ≤ most_operations) × (length proposals.now ≤ most_proposals) }
{
    if !desk.is_open {
        return Err(Fault::Closed);
    }
    if !allowed_lengths(nodes, operations, frames, proposals)
        || lengths_of(operations, frames, proposals) != desk.lengths
    {
        return Err(Fault::TableLength);
    }
    Ok(())
}

/// The record of a node of the floor that is running: refused with 7 if it is zero or above the node count, with 8 if it has stopped.
pub fn running(desk: &Desk, nodes: &[NodeRecord], node: u8) -> Result<NodeRecord, Fault>
    ensures { result ≡ running desk.now nodes.now node }
{
    if node > desk.node_count {
        return Err(Fault::NoNode);
    }
    let Some(record) = record_of(nodes, node) else {
        return Err(Fault::NoNode);
    };
    if record.stopped {
        return Err(Fault::Stopped);
    }
    Ok(record)
}

/// The row of an operation that was started: refused with 5 if none was.
pub fn started(
    desk: &Desk,
    operations: &[OperationRow],
    operation: u16,
) -> Result<OperationRow, Fault>
    ensures { result ≡ started desk.now operations.now operation }
{
    if operation >= desk.operations_used {
        return Err(Fault::NotStarted);
    }
    operations
        .get(usize::from(operation))
        .copied()
        .ok_or(Fault::NotStarted)
}

/// The record of a node; the first is node 1's.
pub fn record_of(nodes: &[NodeRecord], node: u8) -> Option<NodeRecord>
    ensures { result ≡ record_of nodes.now node }
{
    nodes.get(usize::from(node).checked_sub(1)?).copied()
}
