//! Proposing the next group.
ghost use Rattle.std.specs.Prelude.{◌≡◌, slice_set};
ghost use Rattle.desk.specs.Tables.{tables};
ghost use Rattle.handover.specs.Proposing.{regroup_open, running_node, frozen_group, proposal_left, may_propose, proposal_of, ProposeStep};

use chooser::Chooser;
use desk::{Desk, record_of, served, started};
use fault::Fault;
use node::write_row;
use quorum::QuorumRule;
use tables::{NodeRecord, OperationKind, OperationRow, OperationState, ProposalRow};

/// Offers a regroup's members and copy under its number: they become a proposal row, whose number is offered and answered.
pub fn propose<Q: QuorumRule, S: Chooser>(
    desk: &mut Desk,
    rule: &Q,
    chooser: &mut S,
    nodes: &[NodeRecord],
    operations: &mut [OperationRow],
    frames: &[u8],
    proposals: &mut [ProposalRow],
    operation: u16,
) -> Result<u8, Fault>
    ensures { ProposeStep (Q.winning rule.now) S.offering desk.old (tables nodes.now operations.old frames.now proposals.old) chooser.old operation (result, desk.new, tables nodes.now operations.new frames.now proposals.new) chooser.new }
{
    let row = may_propose(rule, desk, nodes, operations, frames, proposals, operation)?;
    let proposal = desk.proposals_used;
    chooser.offer(row.number, proposal)?;
    let mut proposed = row;
    proposed.state = OperationState::Proposed;
    write_row(operations, operation, proposed);
    write_proposal(proposals, proposal, &row);
    desk.proposals_used = proposal + 1;
    Ok(proposal)
}

// The row of the regroup that may be offered, or the first ground on which the call stops.
fn may_propose<Q: QuorumRule>(
    rule: &Q,
    desk: &Desk,
    nodes: &[NodeRecord],
    operations: &[OperationRow],
    frames: &[u8],
    proposals: &[ProposalRow],
    operation: u16,
) -> Result<OperationRow, Fault>
    ensures { result ≡ may_propose (Q.winning rule.now) desk.now (tables nodes.now operations.now frames.now proposals.now) operation }
{
    served(desk, nodes, operations, frames, proposals)?;
    let row = regroup_open(started(desk, operations, operation)?)?;
    let node = running_node(nodes, &row)?;
    frozen_group(rule, &row, &node)?;
    proposal_left(desk, proposals)?;
    Ok(row)
}

fn regroup_open(row: OperationRow) -> Result<OperationRow, Fault>
    ensures { result ≡ regroup_open row }
{
    if row.state != OperationState::Open {
        return Err(Fault::NotOpen);
    }
    if row.kind != OperationKind::Regroup {
        return Err(Fault::NoRegroup);
    }
    Ok(row)
}

// The record of the row's node, which runs. Whether the node is below the count is not asked.
fn running_node(nodes: &[NodeRecord], row: &OperationRow) -> Result<NodeRecord, Fault>
    ensures { result ≡ running_node nodes.now row.now }
{
    let Some(node) = record_of(nodes, row.node) else {
        return Err(Fault::Stopped);
    };
    if node.stopped {
        return Err(Fault::Stopped);
    }
    Ok(node)
}

// Whether the node is still under the operation's number, and the places that froze suffice.
fn frozen_group<Q: QuorumRule>(rule: &Q, row: &OperationRow, node: &NodeRecord) -> Result<(), Fault>
    ensures { result ≡ frozen_group (Q.winning rule.now) row.now node.now }
{
    if node.configuration.number != row.number {
        return Err(Fault::OtherNumber);
    }
    if !rule.wins(node.configuration.members.size(), row.set) {
        return Err(Fault::TooFewFrozen);
    }
    Ok(())
}

fn proposal_left(desk: &Desk, proposals: &[ProposalRow]) -> Result<(), Fault>
    ensures { result ≡ proposal_left desk.now proposals.now }
{
    if usize::from(desk.proposals_used) >= proposals.len() {
        return Err(Fault::ProposalsUsed);
    }
    Ok(())
}

// Writes a regroup's number, members and copy over a proposal row.
fn write_proposal(proposals: &mut [ProposalRow], proposal: u8, row: &OperationRow)
    ensures { proposals.new ≡ slice_set proposals.old proposal (proposal_of row.now) }
{
    let place = usize::from(proposal);
    if place < proposals.len() {
        proposals[place] = ProposalRow {
            number: row.number,
            members: row.members,
            copy: row.copy,
        };
    }
}
