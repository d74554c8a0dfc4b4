//! Frames, as far as a chart shows them.
ghost use Rattle.std.specs.Prelude.{◌≡◌};
ghost use Rattle.frame.specs.Messages.{says};
ghost use Rattle.node.specs.Received.{head_said};
ghost use Rattle.chart.specs.Arrows.{arrow_of, arrow_in, operation_said, tag_said};

use content::Content;
use frame::{FrameKind, Head, Message, Tag};
use reader::read;
use slots::occupied;

/// A frame without its content and its members.
#[derive(Clone, Copy)]
pub struct Arrow {
    pub kind: FrameKind,
    pub head: Head,
    /// Which operation it belongs to; an update belongs to none.
    pub operation: Option<u16>,
    /// The tag of the copy in a put, a held or an update.
    pub tag: Option<Tag>,
}

/// The frame in a slot; none where there is no such slot, where it is empty, and where it cannot be read.
pub fn arrow_in<C: Content>(frames: &[u8], slot: u16) -> Option<Arrow>
    ensures { result ≡ arrow_in C.width C.reads frames.now slot }
{
    let bytes = occupied(frames, usize::from(slot)).ok()?;
    let message = read::<C>(bytes).ok()?;
    Some(arrow_of(message))
}

fn arrow_of(message: Message<'_>) -> Arrow
    ensures { result ≡ arrow_of (says message.entry) }
{
    Arrow {
        kind: message.kind(),
        head: head(message),
        operation: operation(message),
        tag: tag(message),
    }
}

fn head(message: Message<'_>) -> Head
    ensures { result ≡ head_said (says message.entry) }
{
    match message {
        Message::Get { head, .. }
        | Message::GetAck { head, .. }
        | Message::Put { head, .. }
        | Message::PutAck { head, .. }
        | Message::Freeze { head, .. }
        | Message::Held { head, .. }
        | Message::Update { head, .. } => head,
    }
}

fn operation(message: Message<'_>) -> Option<u16>
    ensures { result ≡ operation_said (says message.entry) }
{
    match message {
        Message::Get { operation, .. }
        | Message::GetAck { operation, .. }
        | Message::Put { operation, .. }
        | Message::PutAck { operation, .. }
        | Message::Freeze { operation, .. }
        | Message::Held { operation, .. } => Some(operation),
        Message::Update { .. } => None,
    }
}

fn tag(message: Message<'_>) -> Option<Tag>
    ensures { result ≡ tag_said (says message.entry) }
{
    match message {
        Message::Put { tag, .. } | Message::Held { tag, .. } | Message::Update { tag, .. } => {
            Some(tag)
        }
        _ => None,
    }
}
