//! What a frame says, by value.
ghost use Rattle.std.specs.Prelude.{◌≡◌, take};
ghost use Rattle.frame.specs.Messages.{says};
ghost use Rattle.tables.specs.Members.{list_of};
ghost use Rattle.node.specs.Received.{head_said, body_said};

use frame::{Head, Message};
use slots::Body;
use tables::{Members, SheetCopy};

/// The head of a message.
pub(crate) fn head_said(message: Message<'_>) -> Head
    ensures { result ≡ head_said (says message.entry) }
{
    match message {
        Message::Get { head, .. }
        | Message::GetAck { head, .. }
        | Message::Put { head, .. }
        | Message::PutAck { head, .. }
        | Message::Freeze { head, .. }
        | Message::Held { head, .. }
        | Message::Update { head, .. } => head,
    }
}

/// What it says beyond its head, with copies and members as records have them.
pub(crate) fn body_said(message: Message<'_>) -> Body
    ensures { result ≡ body_said (says message.entry) }
{
    match message {
        Message::Get { operation, .. } => Body::Get { operation },
        Message::GetAck { operation, .. } => Body::GetAck { operation },
        Message::Put {
            operation,
            tag,
            content,
            ..
        } => {
            let copy = SheetCopy::new(tag, content);
            Body::Put { operation, copy }
        }
        Message::PutAck { operation, .. } => Body::PutAck { operation },
        Message::Freeze { operation, .. } => Body::Freeze { operation },
        Message::Held {
            operation,
            tag,
            content,
            ..
        } => {
            let copy = SheetCopy::new(tag, content);
            Body::Held { operation, copy }
        }
        Message::Update {
            count,
            members,
            tag,
            content,
            ..
        } => Body::Update {
            members: counted_members(count, members),
            copy: SheetCopy::new(tag, content),
        },
    }
}

// The members that are counted.
fn counted_members(count: u8, members: &[u8]) -> Members
    ensures { result ≡ list_of (take count members.now) }
{
    Members::new(&members[..usize::from(count).min(members.len())])
}
