//! What is asked of a node: to acknowledge a get or a put, and to freeze.
ghost use Rattle.std.specs.Prelude.{◌≡◌};
ghost use Rattle.node.specs.Rules.{on_get, on_put, on_freeze};

use crate::conditions::{obeys, same_number};
use crate::plan::{Plan, replying};
use frame::Head;
use slots::Body;
use tables::{NodeRecord, SheetCopy, Status};

/// A get is acknowledged.
pub(crate) fn on_get(node: &NodeRecord, head: Head, operation: u16) -> Option<Plan>
    ensures { result ≡ on_get node.now head operation }
{
    if !obeys(node, head) {
        return None;
    }
    Some(replying(head, *node, Body::GetAck { operation }))
}

/// A put's copy replaces a lower stored one, and is acknowledged either way.
pub(crate) fn on_put(node: &NodeRecord, head: Head, operation: u16, copy: SheetCopy) -> Option<Plan>
    ensures { result ≡ on_put node.now head operation copy }
{
    if !obeys(node, head) {
        return None;
    }
    let mut after = *node;
    after.stored = node.stored.newer(copy);
    Some(replying(head, after, Body::PutAck { operation }))
}

/// The node freezes, and holds out its stored copy, whoever asks.
pub(crate) fn on_freeze(node: &NodeRecord, head: Head, operation: u16) -> Option<Plan>
    ensures { result ≡ on_freeze node.now head operation }
{
    if !same_number(node, head) {
        return None;
    }
    let mut after = *node;
    after.status = Status::Frozen;
    let copy = node.stored;
    Some(replying(head, after, Body::Held { operation, copy }))
}
