//! Read, write and regroup.
ghost use Rattle.std.specs.Prelude.{◌≡◌, ◌<◌, slice_set};
ghost use Rattle.slots.specs.Slots.{sent_to_each};
ghost use Rattle.tables.specs.Members.{listed};
ghost use Rattle.desk.specs.LawfulTables.{LawfulTables};
ghost use Rattle.desk.specs.Limits.{most_operations};
ghost use Rattle.desk.specs.Tables.{tables};
ghost use Rattle.starts.specs.Starts.{counted, read_step, write_step, regroup_step};

use crate::grounds::{may_read, may_regroup, may_write};
use crate::start::Start;
use content::Content;
use desk::Desk;
use fault::Fault;
use node::{write_record, write_row};
use slots::send;
use tables::{Members, NodeRecord, OperationRow, ProposalRow};

/// Starts a read at the primary of a group, and answers the number of its row. A get goes to each member.
pub fn read<C: Content>(
    desk: &mut Desk,
    nodes: &[NodeRecord],
    operations: &mut [OperationRow],
    frames: &mut [u8],
    proposals: &[ProposalRow],
    node: u8,
) -> Result<u16, Fault>
    ensures does { (result, desk.new, tables nodes.now operations.new frames.new proposals.now) ≡ read_step C.width desk.old (tables nodes.now operations.old frames.old proposals.now) node }
    ensures lawful_stays { LawfulTables C.meaning desk.old (tables nodes.now operations.old frames.old proposals.now) → LawfulTables C.meaning desk.new (tables nodes.now operations.new frames.new proposals.now) }
{
    let start = may_read(desk, nodes, operations, frames, proposals, node)?;
    Ok(begin::<C>(desk, operations, frames, &start))
}

/// Starts a write at the primary of a group, and answers the number of its row. A put goes to each member.
pub fn write<C: Content>(
    desk: &mut Desk,
    nodes: &mut [NodeRecord],
    operations: &mut [OperationRow],
    frames: &mut [u8],
    proposals: &[ProposalRow],
    node: u8,
    content: &C,
) -> Result<u16, Fault>
    ensures does { (result, desk.new, tables nodes.new operations.new frames.new proposals.now) ≡ write_step C.width desk.old (tables nodes.old operations.old frames.old proposals.now) node (C.meaning content.now) }
    ensures lawful_stays { LawfulTables C.meaning desk.old (tables nodes.old operations.old frames.old proposals.now) → LawfulTables C.meaning desk.new (tables nodes.new operations.new frames.new proposals.now) }
{
    let start = may_write(desk, nodes, operations, frames, proposals, node, content)?;
    write_record(nodes, node, start.node);
    Ok(begin::<C>(desk, operations, frames, &start))
}

/// Starts a change of a group to new members at any of its nodes, which freezes, and answers the number of its row. A freeze goes to each present member.
pub fn regroup<C: Content>(
    desk: &mut Desk,
    nodes: &mut [NodeRecord],
    operations: &mut [OperationRow],
    frames: &mut [u8],
    proposals: &[ProposalRow],
    node: u8,
    members: Members,
) -> Result<u16, Fault>
    ensures does { (result, desk.new, tables nodes.new operations.new frames.new proposals.now) ≡ regroup_step C.width desk.old (tables nodes.old operations.old frames.old proposals.now) node members }
    ensures lawful_stays { LawfulTables C.meaning desk.old (tables nodes.old operations.old frames.old proposals.now) → LawfulTables C.meaning desk.new (tables nodes.new operations.new frames.new proposals.now) }
{
    let start = may_regroup(desk, nodes, operations, frames, proposals, node, members)?;
    write_record(nodes, node, start.node);
    Ok(begin::<C>(desk, operations, frames, &start))
}

// Puts the row behind those that are used, sends the letter, and answers the row's number.
fn begin<C: Content>(
    desk: &mut Desk,
    operations: &mut [OperationRow],
    frames: &mut [u8],
    start: &Start,
) -> u16
    requires { desk.old.operations_used < most_operations }
    ensures answer { result ≡ desk.old.operations_used }
    ensures desk { desk.new ≡ counted desk.old start.now }
    ensures operations { operations.new ≡ slice_set operations.old desk.old.operations_used start.now.row }
    ensures frames { frames.new ≡ sent_to_each C.width frames.old (listed start.now.node.configuration.members) start.now.letter }
{
    let operation = desk.operations_used;
    write_row(operations, operation, start.row);
    send::<C>(
        frames,
        start.node.configuration.members.as_slice(),
        &start.letter,
    );
    desk.operations_used = operation + 1;
    desk.moment = start.row.start;
    operation
}
