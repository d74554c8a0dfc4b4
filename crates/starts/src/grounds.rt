//! On which grounds starts stop.
ghost use Rattle.std.specs.Prelude.{◌≡◌, ◌<◌, ◌≤◌, Ok, length};
ghost use Rattle.frame.specs.Limits.{highest_node, highest_version};
ghost use Rattle.tables.specs.Lawful.{LawfulList};
ghost use Rattle.desk.specs.Limits.{most_operations};
ghost use Rattle.desk.specs.Tables.{tables};
ghost use Rattle.starts.specs.declared.start.Start.{Start};
ghost use Rattle.starts.specs.Grounds.{taking_part, leading, row_left, slots_left, version_left, may_read, may_write, may_regroup};

use crate::start::{Start, read_start, regroup_start, write_start};
use content::Content;
use desk::{Desk, is_lawful, running, served};
use fault::Fault;
use frame::HIGHEST_VERSION;
use slots::may_send;
use tables::{Members, NodeRecord, OperationRow, ProposalRow, Status};

/// How a read starts, or the first ground on which it stops.
pub(crate) fn may_read(
    desk: &Desk,
    nodes: &[NodeRecord],
    operations: &[OperationRow],
    frames: &[u8],
    proposals: &[ProposalRow],
    node: u8,
) -> Result<Start, Fault>
    ensures answer { result ≡ may_read desk.now (tables nodes.now operations.now frames.now proposals.now) node }
    ensures room { (start : Start) → result ≡ Ok start → desk.now.operations_used < most_operations }
{
    served(desk, nodes, operations, frames, proposals)?;
    let found = leading(desk, nodes, node)?;
    row_left(desk, operations)?;
    slots_left(frames, &found)?;
    Ok(read_start(desk, node, found))
}

/// How a write starts, or the first ground on which it stops.
pub(crate) fn may_write<C: Content>(
    desk: &Desk,
    nodes: &[NodeRecord],
    operations: &[OperationRow],
    frames: &[u8],
    proposals: &[ProposalRow],
    node: u8,
    content: &C,
) -> Result<Start, Fault>
    ensures answer { result ≡ may_write desk.now (tables nodes.now operations.now frames.now proposals.now) node (C.meaning content.now) }
    ensures room { (start : Start) → result ≡ Ok start → desk.now.operations_used < most_operations }
{
    served(desk, nodes, operations, frames, proposals)?;
    let found = leading(desk, nodes, node)?;
    row_left(desk, operations)?;
    version_left(&found)?;
    slots_left(frames, &found)?;
    Ok(write_start(desk, node, found, content))
}

/// How a regroup starts, or the first ground on which it stops.
pub(crate) fn may_regroup(
    desk: &Desk,
    nodes: &[NodeRecord],
    operations: &[OperationRow],
    frames: &[u8],
    proposals: &[ProposalRow],
    node: u8,
    members: Members,
) -> Result<Start, Fault>
    ensures answer { result ≡ may_regroup desk.now (tables nodes.now operations.now frames.now proposals.now) node members }
    ensures room { (start : Start) → result ≡ Ok start → desk.now.operations_used < most_operations }
    ensures lawful { (start : Start) → result ≡ Ok start → desk.now.node_count ≤ highest_node → LawfulList members }
{
    served(desk, nodes, operations, frames, proposals)?;
    let found = taking_part(desk, nodes, node)?;
    if !is_lawful(&members, desk.node_count) {
        return Err(Fault::Unlawful);
    }
    row_left(desk, operations)?;
    slots_left(frames, &found)?;
    Ok(regroup_start(desk, node, found, members))
}

/// The record of a running node that is in a group: refused as `running` is, and with 9 if the node is idle.
pub fn taking_part(desk: &Desk, nodes: &[NodeRecord], node: u8) -> Result<NodeRecord, Fault>
    ensures { result ≡ taking_part desk.now nodes.now node }
{
    let found = running(desk, nodes, node)?;
    if found.status == Status::Idle {
        return Err(Fault::Idle);
    }
    Ok(found)
}

// The record of a running node that may start reads and writes.
fn leading(desk: &Desk, nodes: &[NodeRecord], node: u8) -> Result<NodeRecord, Fault>
    ensures { result ≡ leading desk.now nodes.now node }
{
    let found = taking_part(desk, nodes, node)?;
    if found.status == Status::Frozen {
        return Err(Fault::Frozen);
    }
    if node != found.configuration.members.primary() {
        return Err(Fault::NotPrimary);
    }
    Ok(found)
}

fn row_left(desk: &Desk, operations: &[OperationRow]) -> Result<(), Fault>
    ensures answer { result ≡ row_left desk.now operations.now }
    ensures room { result ≡ Ok tt → desk.now.operations_used < length operations.now }
{
    if usize::from(desk.operations_used) >= operations.len() {
        return Err(Fault::OperationsUsed);
    }
    Ok(())
}

fn version_left(found: &NodeRecord) -> Result<(), Fault>
    ensures answer { result ≡ version_left found.now }
    ensures below { result ≡ Ok tt → found.now.newest < highest_version }
{
    if found.newest >= HIGHEST_VERSION {
        return Err(Fault::LastVersion);
    }
    Ok(())
}

fn slots_left(frames: &[u8], found: &NodeRecord) -> Result<(), Fault>
    ensures { result ≡ slots_left frames.now found.now }
{
    may_send(frames, usize::from(found.configuration.members.size()))?;
    Ok(())
}
