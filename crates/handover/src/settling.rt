//! Settling what was decided.
ghost use Rattle.std.specs.Prelude.{◌≡◌, ◌<◌, Ok};
ghost use Rattle.chooser.specs.Limits.{numbers};
ghost use Rattle.tables.specs.declared.records.ProposalRow.{ProposalRow};
ghost use Rattle.desk.specs.Tables.{tables};
ghost use Rattle.handover.specs.Settling.{named, may_settle, update_letter, settle_step};

use chooser::Chooser;
use content::Content;
use desk::{Desk, served};
use fault::Fault;
use slots::{Body, Letter, may_send, send};
use starts::taking_part;
use tables::{NodeRecord, OperationRow, ProposalRow};

/// Sends the proposal that is decided under a node's number to each of its members, as an update with the next number, and answers how many there are.
pub fn settle<C: Content, S: Chooser>(
    desk: &Desk,
    chooser: &S,
    nodes: &[NodeRecord],
    operations: &[OperationRow],
    frames: &mut [u8],
    proposals: &[ProposalRow],
    node: u8,
) -> Result<u8, Fault>
    ensures { (result, tables nodes.now operations.now frames.new proposals.now) ≡ settle_step C.width (S.decided chooser.now) desk.now (tables nodes.now operations.now frames.old proposals.now) node }
{
    let row = may_settle(chooser, desk, nodes, operations, frames, proposals, node)?;
    let letter = update_letter(node, &row);
    send::<C>(frames, row.members.as_slice(), &letter);
    Ok(row.members.size())
}

// The proposal that follows the node's configuration, or the first ground on which the call stops.
fn may_settle<S: Chooser>(
    chooser: &S,
    desk: &Desk,
    nodes: &[NodeRecord],
    operations: &[OperationRow],
    frames: &[u8],
    proposals: &[ProposalRow],
    node: u8,
) -> Result<ProposalRow, Fault>
    ensures answer { result ≡ may_settle (S.decided chooser.now) desk.now (tables nodes.now operations.now frames.now proposals.now) node }
    ensures below { (row : ProposalRow) → result ≡ Ok row → row.number < numbers }
{
    served(desk, nodes, operations, frames, proposals)?;
    let found = taking_part(desk, nodes, node)?;
    let number = found.configuration.number;
    let row = named(desk, proposals, number, chooser.decision(number))?;
    may_send(frames, usize::from(row.members.size()))?;
    Ok(row)
}

// The used proposal row for the number that a decision names.
fn named(
    desk: &Desk,
    proposals: &[ProposalRow],
    number: u8,
    decision: Option<u8>,
) -> Result<ProposalRow, Fault>
    ensures { result ≡ named desk.now proposals.now number decision }
{
    let Some(proposal) = decision else {
        return Err(Fault::NoDecision);
    };
    if proposal >= desk.proposals_used {
        return Err(Fault::NotProposed);
    }
    let Some(row) = proposals.get(usize::from(proposal)) else {
        return Err(Fault::NotProposed);
    };
    if row.number != number {
        return Err(Fault::NotProposed);
    }
    Ok(*row)
}

// The update that carries the proposal, under the next number.
fn update_letter(node: u8, row: &ProposalRow) -> Letter
    requires { row.now.number < numbers }
    ensures { result ≡ update_letter node row.now }
{
    Letter {
        sender: node,
        number: row.number + 1,
        body: Body::Update {
            members: row.members,
            copy: row.copy,
        },
    }
}
