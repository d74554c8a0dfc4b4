//! Opening a floor.
ghost use Rattle.std.specs.Prelude.{◌≡◌, ◌≤◌, length, Ok};
ghost use Rattle.frame.specs.Limits.{highest_node};
ghost use Rattle.tables.specs.Lawful.{LawfulList};
ghost use Rattle.desk.specs.LawfulTables.{LawfulTables};
ghost use Rattle.desk.specs.Limits.{node_records};
ghost use Rattle.desk.specs.Tables.{tables, one_to, lengths_of};
ghost use Rattle.desk.specs.Opening.{may_open, open_step, opened_nodes, opening_record, opened_desk, opening_copy};

use crate::desk::{Desk, NODES, allowed_lengths, lengths_of};
use crate::lists::is_lawful;
use content::Content;
use fault::Fault;
use frame::Tag;
use node::write_record;
use tables::{Configuration, Members, NodeRecord, OperationRow, ProposalRow, SheetCopy, Status};

/// Opens a floor: nodes 1 to the count hold configuration 0 with these members, and this content under the opening tag. Members are active, others idle, none has stopped; all slots are zeros. Records above the count and all rows keep every byte.
/// Refused with 1 if the floor is open already, with 2 if a table's length is not allowed, with 7 if the count is not 1 to 16, with 13 if the members are no lawful list or one is above the count.
pub fn open<C: Content>(
    desk: &mut Desk,
    nodes: &mut [NodeRecord],
    operations: &[OperationRow],
    frames: &mut [u8],
    proposals: &[ProposalRow],
    count: u8,
    members: Members,
    content: &C,
) -> Result<(), Fault>
    ensures does { (result, desk.new, tables nodes.new operations.now frames.new proposals.now) ≡ open_step desk.old (tables nodes.old operations.now frames.old proposals.now) count members (C.meaning content.now) }
    ensures lawful { result ≡ Ok tt → LawfulTables C.meaning desk.new (tables nodes.new operations.now frames.new proposals.now) }
    ensures lawful_stays { LawfulTables C.meaning desk.old (tables nodes.old operations.now frames.old proposals.now) → LawfulTables C.meaning desk.new (tables nodes.new operations.now frames.new proposals.now) }
{
    may_open(desk, nodes, operations, frames, proposals, count, &members)?;
    *desk = opened_desk(count, operations, frames, proposals);
    open_nodes(nodes, count, members, opening_copy(content));
    frames.fill(0);
    Ok(())
}

// The first ground on which the opening stops, if there is one.
fn may_open(
    desk: &Desk,
    nodes: &[NodeRecord],
    operations: &[OperationRow],
    frames: &[u8],
    proposals: &[ProposalRow],
    count: u8,
    members: &Members,
) -> Result<(), Fault>
    ensures answer { result ≡ may_open desk.now (tables nodes.now operations.now frames.now proposals.now) count members.now }
    ensures lawful { result ≡ Ok tt → count ≤ highest_node → LawfulList members.now }
{
    if desk.is_open {
        return Err(Fault::AlreadyOpen);
    }
    if !allowed_lengths(nodes, operations, frames, proposals) {
        return Err(Fault::TableLength);
    }
    if !is_node_count(count) {
        return Err(Fault::NodeCount);
    }
    if !is_lawful(members, count) {
        return Err(Fault::Unlawful);
    }
    Ok(())
}

// Whether a floor may have this many nodes.
fn is_node_count(count: u8) -> bool
    ensures { result ≡ one_to node_records count }
{
    (1..=NODES).contains(&usize::from(count))
}

fn opened_desk(
    count: u8,
    operations: &[OperationRow],
    frames: &[u8],
    proposals: &[ProposalRow],
) -> Desk
    ensures { result ≡ opened_desk count (lengths_of operations.now frames.now proposals.now) }
{
    Desk {
        is_open: true,
        node_count: count,
        lengths: lengths_of(operations, frames, proposals),
        operations_used: 0,
        proposals_used: 0,
        moment: 0,
    }
}

// The copy that a sheet begins with: version 0, node 0.
fn opening_copy<C: Content>(content: &C) -> SheetCopy
    ensures { result ≡ opening_copy (C.meaning content.now) }
{
    SheetCopy {
        tag: Tag {
            version: 0,
            node: 0,
        },
        content: content.to_bytes(),
    }
}

// Writes the records of nodes 1 to the count.
fn open_nodes(nodes: &mut [NodeRecord], count: u8, members: Members, copy: SheetCopy)
    requires { count ≤ length nodes.old }
    ensures { nodes.new ≡ opened_nodes nodes.old count members copy }
{
    for place in 0..count {
        let node = place + 1;
        write_record(nodes, node, opening_record(members, copy, node));
    }
}

// The record of a node at the opening.
fn opening_record(members: Members, copy: SheetCopy, node: u8) -> NodeRecord
    ensures { result ≡ opening_record members copy node }
{
    let status = if members.place_of(node).is_some() {
        Status::Active
    } else {
        Status::Idle
    };
    NodeRecord {
        status,
        stopped: false,
        configuration: Configuration {
            number: 0,
            members,
            opening: copy.tag,
        },
        stored: copy,
        served: copy,
        newest: 0,
    }
}
