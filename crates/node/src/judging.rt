//! What a node makes of a frame, by its own status and the frame's kind.
ghost use Rattle.std.specs.Prelude.{◌≡◌};
ghost use Rattle.frame.specs.Messages.{says};
ghost use Rattle.node.specs.LawfulPlans.{LawfulStays};
ghost use Rattle.node.specs.Rules.{by_status, planned};

use crate::acknowledging::{on_freeze, on_get, on_put};
use crate::counting::{on_get_ack, on_held, on_put_ack};
use crate::joining::on_update;
use crate::plan::Plan;
use crate::received::{body_said, head_said};
use content::Content;
use frame::{Head, Message};
use quorum::QuorumRule;
use slots::Body;
use tables::{NodeRecord, OperationRow, Status};

/// What a node makes of a frame that it receives: by the rule, its own record, the rows of all operations that were started, and the moment; none if it ignores the frame. Nothing is altered: the plan is to be applied.
/// Whether the node has stopped is not asked here; whoever delivers frames has to.
pub fn judge<C: Content, Q: QuorumRule>(
    rule: &Q,
    node: &NodeRecord,
    rows: &[OperationRow],
    moment: u32,
    message: Message<'_>,
) -> Option<Plan>
    ensures planned { result ≡ planned (Q.winning rule.now) node.now rows.now moment (says message.entry) }
    ensures lawful_stays { LawfulStays C.width C.meaning node.now rows.now (says message.entry) result }
{
    let head = head_said(message);
    let body = body_said(message);
    by_status(rule, node, rows, moment, head, body)
}

// The plan, by the node's own status and the frame's kind.
fn by_status<Q: QuorumRule>(
    rule: &Q,
    node: &NodeRecord,
    rows: &[OperationRow],
    moment: u32,
    head: Head,
    body: Body,
) -> Option<Plan>
    ensures { result ≡ by_status node.now.status body (Q.winning rule.now) node.now rows.now moment head }
{
    match (node.status, &body) {
        (Status::Active, Body::Get { operation }) => on_get(node, head, *operation),
        (Status::Active, Body::GetAck { operation }) => {
            on_get_ack(rule, node, rows, moment, head, *operation)
        }
        (Status::Active, Body::Put { operation, copy }) => on_put(node, head, *operation, *copy),
        (Status::Active, Body::PutAck { operation }) => {
            on_put_ack(rule, node, rows, moment, head, *operation)
        }
        (Status::Active | Status::Frozen, Body::Freeze { operation }) => {
            on_freeze(node, head, *operation)
        }
        (Status::Active | Status::Frozen, Body::Held { operation, copy }) => {
            on_held(node, rows, head, *operation, *copy)
        }
        (_, Body::Update { members, copy }) => on_update(node, head, *members, *copy),
        _ => None,
    }
}
