//! What a node waits for: acknowledgements of its reads and writes, and copies held out to its regroups.
ghost use Rattle.std.specs.Prelude.{◌≡◌};
ghost use Rattle.node.specs.Rules.{counted_set, enough, answered, held_copy, on_get_ack, on_put_ack, on_held};

use crate::conditions::waits_for;
use crate::plan::{Plan, counted_as};
use frame::Head;
use quorum::QuorumRule;
use tables::{NodeRecord, OperationKind, OperationRow, OperationState, SheetCopy, next_moment};

/// The sender's place joins a read; if that is enough, the read is answered with the copy that the node serves at this moment.
pub(crate) fn on_get_ack<Q: QuorumRule>(
    rule: &Q,
    node: &NodeRecord,
    rows: &[OperationRow],
    moment: u32,
    head: Head,
    operation: u16,
) -> Option<Plan>
    ensures { result ≡ on_get_ack (Q.winning rule.now) node.now rows.now moment head operation }
{
    let mut row = *rows.get(usize::from(operation))?;
    row.set = counted_set(OperationKind::Read, node, head, &row)?;
    if enough(rule, node, row.set) {
        row.copy = node.served;
        row = answered(row, moment);
    }
    Some(counted_as(head, *node, operation, row))
}

/// The sender's place joins a write; if that is enough, the write is answered, and served from now on unless what is served is higher.
pub(crate) fn on_put_ack<Q: QuorumRule>(
    rule: &Q,
    node: &NodeRecord,
    rows: &[OperationRow],
    moment: u32,
    head: Head,
    operation: u16,
) -> Option<Plan>
    ensures { result ≡ on_put_ack (Q.winning rule.now) node.now rows.now moment head operation }
{
    let mut node = *node;
    let mut row = *rows.get(usize::from(operation))?;
    row.set = counted_set(OperationKind::Write, &node, head, &row)?;
    if enough(rule, &node, row.set) {
        node.served = node.served.newer(row.copy);
        row = answered(row, moment);
    }
    Some(counted_as(head, node, operation, row))
}

/// The sender's place joins a regroup; the first copy that is held out to it, or a higher one than before, becomes the row's.
pub(crate) fn on_held(
    node: &NodeRecord,
    rows: &[OperationRow],
    head: Head,
    operation: u16,
    copy: SheetCopy,
) -> Option<Plan>
    ensures { result ≡ on_held node.now rows.now head operation copy }
{
    let mut row = *rows.get(usize::from(operation))?;
    let set = counted_set(OperationKind::Regroup, node, head, &row)?;
    row.copy = held_copy(&row, copy);
    row.set = set;
    Some(counted_as(head, *node, operation, row))
}

// The set of an operation with the sender's place joined, where the sender is counted: the node waits for the operation, and the sender is a member.
fn counted_set(kind: OperationKind, node: &NodeRecord, head: Head, row: &OperationRow) -> Option<u8>
    ensures { result ≡ counted_set kind node.now head row.now }
{
    if !waits_for(kind, node, head, row) {
        return None;
    }
    let place = node.configuration.members.place_of(head.sender)?;
    Some(row.set | 1 << place)
}

// Whether the places are enough to answer.
fn enough<Q: QuorumRule>(rule: &Q, node: &NodeRecord, set: u8) -> bool
    ensures { result ≡ enough (Q.winning rule.now) node.now set }
{
    rule.wins(node.configuration.members.size(), set)
}

// The row as it is when its operation is answered.
fn answered(row: OperationRow, moment: u32) -> OperationRow
    ensures { result ≡ answered row moment }
{
    let mut row = row;
    row.state = OperationState::Answered;
    row.answer = next_moment(moment);
    row
}

// A regroup's copy as it will be.
fn held_copy(row: &OperationRow, copy: SheetCopy) -> SheetCopy
    ensures { result ≡ held_copy row.now copy }
{
    if row.set == 0 {
        copy
    } else {
        row.copy.newer(copy)
    }
}
