//! What the frame in a slot says.
ghost use Rattle.std.specs.Prelude.{◌≡◌, ◌+◌, ◌≤◌, length};
ghost use Rattle.frame.specs.Lawful.{LawfulAndWritten};
ghost use Rattle.frame.specs.Limits.{slot_size};
ghost use Rattle.frame.specs.Messages.{says, answers, reading, told, head_of, tag_at};

use crate::checks::{frame_in, whole};
use crate::fields::{content_at, word};
use content::Content;
use frame::{FrameFault, FrameKind, Head, Message, SLOT, Tag};

/// What the frame in a slot says, members and content as parts of the slot; or the fault that `check` answers.
pub fn read<'a, C: Content>(slot: &'a [u8]) -> Result<Message<'a>, FrameFault>
    ensures answer { answers result ≡ reading C.width C.reads slot.now }
    ensures lawful_and_written { LawfulAndWritten C.meaning slot.now (answers result) }
{
    let slot = whole(slot)?;
    let (kind, _) = frame_in::<C>(slot)?;
    Ok(told::<C>(slot, kind))
}

// What a slot of this kind says. Put and held have the same fields, and differ in the case that is made of them.
fn told<'a, C: Content>(slot: &'a [u8; SLOT], kind: FrameKind) -> Message<'a>
    ensures { says result ≡ told C.width slot.now kind }
{
    let head = head(slot);
    let operation = word(slot, 4);
    match kind {
        FrameKind::Get => Message::Get { head, operation },
        FrameKind::GetAck => Message::GetAck { head, operation },
        FrameKind::Put => Message::Put {
            head,
            operation,
            tag: tag(slot, 6),
            content: content_at::<C>(slot, 9),
        },
        FrameKind::PutAck => Message::PutAck { head, operation },
        FrameKind::Freeze => Message::Freeze { head, operation },
        FrameKind::Held => Message::Held {
            head,
            operation,
            tag: tag(slot, 6),
            content: content_at::<C>(slot, 9),
        },
        FrameKind::Update => Message::Update {
            head,
            count: slot[4],
            members: &slot[5..12],
            tag: tag(slot, 12),
            content: content_at::<C>(slot, 15),
        },
    }
}

fn head(slot: &[u8; SLOT]) -> Head
    ensures { result ≡ head_of slot.now }
{
    Head {
        receiver: slot[1],
        sender: slot[2],
        number: slot[3],
    }
}

fn tag(slot: &[u8; SLOT], at: usize) -> Tag
    requires { at + 3 ≤ slot_size }
    ensures { result ≡ tag_at slot.now at }
{
    Tag {
        version: word(slot, at),
        node: slot[at + 2],
    }
}
