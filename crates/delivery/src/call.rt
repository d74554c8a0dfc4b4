//! The call deliver.
ghost use Rattle.std.specs.Prelude.{◌≡◌};
ghost use Rattle.std.specs.Option.{IfSome};
ghost use Rattle.std.specs.Result.{IfOk};
ghost use Rattle.frame.specs.Messages.{says};
ghost use Rattle.node.specs.LawfulPlans.{LawfulPlan};
ghost use Rattle.node.specs.Received.{head_said};
ghost use Rattle.desk.specs.LawfulTables.{LawfulTables};
ghost use Rattle.desk.specs.Tables.{tables};
ghost use Rattle.delivery.specs.Delivery.{received, may_deliver, deliver_step};

use crate::delivery::Delivery;
use content::Content;
use desk::{Desk, running, served};
use fault::Fault;
use frame::Message;
use node::{Plan, judge};
use quorum::QuorumRule;
use reader::read;
use slots::occupied;
use tables::{NodeRecord, OperationRow, ProposalRow, next_moment};

/// Delivers the frame in a slot to its receiver, and keeps it there: it may be delivered again.
/// Refused with 3 if there is no such slot or it is empty, with 4 if it cannot be read, with 7 if its receiver is above the node count, with 8 if it has stopped, with 19 if a reply finds no empty slot.
pub fn deliver<C: Content, Q: QuorumRule>(
    desk: &mut Desk,
    rule: &Q,
    nodes: &mut [NodeRecord],
    operations: &mut [OperationRow],
    frames: &mut [u8],
    proposals: &[ProposalRow],
    slot: u16,
) -> Result<Delivery, Fault>
    ensures does { (result, desk.new, tables nodes.new operations.new frames.new proposals.now) ≡ deliver_step C.width C.reads (Q.winning rule.now) desk.old (tables nodes.old operations.old frames.old proposals.now) slot }
    ensures lawful_stays { LawfulTables C.meaning desk.old (tables nodes.old operations.old frames.old proposals.now) → LawfulTables C.meaning desk.new (tables nodes.new operations.new frames.new proposals.now) }
{
    let Some(plan) = may_deliver::<C, Q>(rule, desk, nodes, operations, frames, proposals, slot)?
    else {
        return Ok(Delivery::Ignored);
    };
    plan.apply::<C>(nodes, operations, frames);
    if plan.answers() {
        desk.moment = next_moment(desk.moment);
        return Ok(Delivery::Answered);
    }
    Ok(Delivery::Handled)
}

// The plan of the delivery, none where the frame is ignored; or the first ground on which the call stops.
fn may_deliver<C: Content, Q: QuorumRule>(
    rule: &Q,
    desk: &Desk,
    nodes: &[NodeRecord],
    operations: &[OperationRow],
    frames: &[u8],
    proposals: &[ProposalRow],
    slot: u16,
) -> Result<Option<Plan>, Fault>
    ensures answer { result ≡ may_deliver C.width C.reads (Q.winning rule.now) desk.now (tables nodes.now operations.now frames.now proposals.now) slot }
    ensures lawful { LawfulTables C.meaning desk.now (tables nodes.now operations.now frames.now proposals.now) → IfOk result (λ plan. IfSome plan (LawfulPlan C.width C.meaning)) }
{
    served(desk, nodes, operations, frames, proposals)?;
    let bytes = occupied(frames, usize::from(slot))?;
    let message = read::<C>(bytes)?;
    received::<C, Q>(rule, desk, nodes, operations, frames, proposals, message)
}

// What the receiver makes of a message: it has to be a node of the floor that is running, and its reply, if one is due, has to find an empty slot.
fn received<C: Content, Q: QuorumRule>(
    rule: &Q,
    desk: &Desk,
    nodes: &[NodeRecord],
    operations: &[OperationRow],
    frames: &[u8],
    proposals: &[ProposalRow],
    message: Message<'_>,
) -> Result<Option<Plan>, Fault>
    ensures { result ≡ received (Q.winning rule.now) desk.now (tables nodes.now operations.now frames.now proposals.now) (says message.entry) }
{
    let found = running(desk, nodes, receiver(message))?;
    let used = usize::from(desk.operations_used).min(operations.len());
    let Some(plan) = judge::<C, Q>(rule, &found, &operations[..used], desk.moment, message) else {
        return Ok(None);
    };
    plan.may_apply(frames)?;
    Ok(Some(plan))
}

// Whom a message goes to.
fn receiver(message: Message<'_>) -> u8
    ensures { result ≡ (head_said (says message.entry)).receiver }
{
    match message {
        Message::Get { head, .. }
        | Message::GetAck { head, .. }
        | Message::Put { head, .. }
        | Message::PutAck { head, .. }
        | Message::Freeze { head, .. }
        | Message::Held { head, .. }
        | Message::Update { head, .. } => head.receiver,
    }
}
