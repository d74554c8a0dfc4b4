//! The conditions that a frame meets or does not.
ghost use Rattle.std.specs.Prelude.{◌≡◌};
ghost use Rattle.node.specs.Conditions.{same_number, obeys, waits_for, may_join};

use frame::Head;
use tables::{Members, NodeRecord, OperationKind, OperationRow, OperationState, Status};

/// The frame speaks of the configuration that the node is in.
pub(crate) fn same_number(node: &NodeRecord, head: Head) -> bool
    ensures { result ≡ same_number node.now head }
{
    head.number == node.configuration.number
}

/// The node does what the sender asks of it: under its own number, and of its primary.
pub(crate) fn obeys(node: &NodeRecord, head: Head) -> bool
    ensures { result ≡ obeys node.now head }
{
    same_number(node, head) && head.sender == node.configuration.members.primary()
}

/// An open operation of this kind, started at the frame's receiver under the frame's number, which the receiver is still under.
pub(crate) fn waits_for(
    kind: OperationKind,
    node: &NodeRecord,
    head: Head,
    row: &OperationRow,
) -> bool
    ensures { result ≡ waits_for kind node.now head row.now }
{
    row.kind == kind
        && row.state == OperationState::Open
        && row.node == head.receiver
        && row.number == head.number
        && same_number(node, head)
}

/// The receiver is one of the members, and in no group or under a lower number.
pub(crate) fn may_join(node: &NodeRecord, head: Head, members: Members) -> bool
    ensures { result ≡ may_join node.now head members }
{
    members.place_of(head.receiver).is_some()
        && (node.status == Status::Idle || node.configuration.number < head.number)
}
