//! What a node makes of a frame.
ghost use Rattle.std.specs.Prelude.{◌≡◌};
ghost use Rattle.node.specs.Plans.{plan_for, answers, replying, counted_as};

use frame::Head;
use slots::{Body, Letter};
use tables::{NodeRecord, OperationRow, OperationState};

/// What a node makes of a frame: its record, the operation's row and the reply as they will be.
#[derive(Clone, Copy, Debug, PartialEq, Eq)]
pub struct Plan {
    /// The node that the frame went to.
    pub receiver: u8,
    /// Its record.
    pub node: NodeRecord,
    /// The row of the operation, if it changes.
    pub row: Option<RowPlan>,
    /// What goes back to the frame's sender, if anything does.
    pub reply: Option<Reply>,
}

/// An operation, and its row as it will be.
#[derive(Clone, Copy, Debug, PartialEq, Eq)]
pub struct RowPlan {
    pub operation: u16,
    pub row: OperationRow,
}

/// A letter, and the node that it goes to.
#[derive(Clone, Copy, Debug, PartialEq, Eq)]
pub struct Reply {
    pub receiver: u8,
    pub letter: Letter,
}

impl Plan {
    /// Whether it answers its operation: then the host's moment is `next_moment` from now on, as the row keeps it.
    pub fn answers(&self) -> bool
        ensures { result ≡ answers self.now.row }
    {
        match self.row {
            Some(change) => change.row.state == OperationState::Answered,
            None => false,
        }
    }
}

// The frame's receiver has this record, and that is all.
pub(crate) fn plan_for(head: Head, node: NodeRecord) -> Plan
    ensures { result ≡ plan_for head node }
{
    Plan {
        receiver: head.receiver,
        node,
        row: None,
        reply: None,
    }
}

// The same, and a reply goes to the sender, under the frame's number.
pub(crate) fn replying(head: Head, node: NodeRecord, body: Body) -> Plan
    ensures { result ≡ replying head node body }
{
    let letter = Letter {
        sender: head.receiver,
        number: head.number,
        body,
    };
    let mut plan = plan_for(head, node);
    plan.reply = Some(Reply {
        receiver: head.sender,
        letter,
    });
    plan
}

// The receiver's record, and the operation's row.
pub(crate) fn counted_as(head: Head, node: NodeRecord, operation: u16, row: OperationRow) -> Plan
    ensures { result ≡ counted_as head node operation row }
{
    let mut plan = plan_for(head, node);
    plan.row = Some(RowPlan { operation, row });
    plan
}
