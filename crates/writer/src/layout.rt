//! The bytes of a message, laid into its slot.
ghost use Rattle.std.specs.Prelude.{◌≡◌, ◌+◌, ◌≤◌, true, length};
ghost use Rattle.content.specs.Bytes.{widest};
ghost use Rattle.quorum.specs.Limits.{largest_group};
ghost use Rattle.frame.specs.Bytes.{head_bytes, plain_bytes, copy_bytes, update_bytes, filled, bytes_of, tag_bytes, fits};
ghost use Rattle.frame.specs.Limits.{slot_size};
ghost use Rattle.frame.specs.Messages.{says};
ghost use Rattle.writer.specs.Layout.{laid};

use content::Content;
use frame::{FrameKind, Head, Message, SLOT, Tag};

/// Writes a message over the 32 bytes of a slot.
pub(crate) fn write<C: Content>(slot: &mut [u8], message: Message<'_>)
    requires whole { length slot.old ≡ slot_size }
    requires fitting { fits C.width (says message) ≡ true }
    ensures { slot.new ≡ bytes_of (says message.entry) }
{
    slot.copy_from_slice(&bytes_of::<C>(message));
}

/// A message as the bytes of its slot.
pub(crate) fn bytes_of<C: Content>(message: Message<'_>) -> [u8; SLOT]
    requires { fits C.width (says message) ≡ true }
    ensures { result ≡ bytes_of (says message.entry) }
{
    let kind = message.kind();
    match message {
        Message::Get { head, operation }
        | Message::GetAck { head, operation }
        | Message::PutAck { head, operation }
        | Message::Freeze { head, operation } => plain(kind, head, operation),
        Message::Put {
            head,
            operation,
            tag,
            content,
        }
        | Message::Held {
            head,
            operation,
            tag,
            content,
        } => with_copy(kind, head, operation, tag, content),
        Message::Update {
            head,
            count,
            members,
            tag,
            content,
        } => update(head, count, members, tag, content),
    }
}

// A get, get-ack, put-ack or freeze.
fn plain(kind: FrameKind, head: Head, operation: u16) -> [u8; SLOT]
    ensures { result ≡ filled (plain_bytes kind head operation) }
{
    let mut slot = [0; SLOT];
    lay_head(&mut slot, kind, head);
    lay(&mut slot, 4, &operation.to_be_bytes());
    slot
}

// A put or held.
fn with_copy(kind: FrameKind, head: Head, operation: u16, tag: Tag, content: &[u8]) -> [u8; SLOT]
    requires { length content.now ≤ widest }
    ensures { result ≡ filled (copy_bytes kind head operation tag content.now) }
{
    let mut slot = plain(kind, head, operation);
    lay_copy(&mut slot, 6, tag, content);
    slot
}

// An update.
fn update(head: Head, count: u8, members: &[u8], tag: Tag, content: &[u8]) -> [u8; SLOT]
    requires seven { length members.now ≡ largest_group }
    requires bounded { length content.now ≤ widest }
    ensures { result ≡ filled (update_bytes head count members.now tag content.now) }
{
    let mut slot = [0; SLOT];
    lay_head(&mut slot, FrameKind::Update, head);
    lay(&mut slot, 4, &[count]);
    lay(&mut slot, 5, members);
    lay_copy(&mut slot, 12, tag, content);
    slot
}

// What every frame begins with.
fn lay_head(slot: &mut [u8; SLOT], kind: FrameKind, head: Head)
    ensures { slot.new ≡ laid slot.old 0 (head_bytes kind head) }
{
    let number = kind.number();
    lay(slot, 0, &[number, head.receiver, head.sender, head.number]);
}

// A tag and a content behind it: two fields of a message, as its pattern names them.
fn lay_copy(slot: &mut [u8; SLOT], at: usize, tag: Tag, content: &[u8])
    requires { at + 3 + length content.now ≤ slot_size }
    ensures { slot.new ≡ laid (laid slot.old at (tag_bytes tag)) (at + 3) content.now }
{
    let [high, low] = tag.version.to_be_bytes();
    lay(slot, at, &[high, low, tag.node]);
    lay(slot, at + 3, content);
}

// Writes bytes over those of the slot that begin at a place.
fn lay(slot: &mut [u8; SLOT], at: usize, bytes: &[u8])
    requires { at + length bytes.now ≤ slot_size }
    ensures { slot.new ≡ laid slot.old at bytes.now }
{
    let end = at + bytes.len();
    slot[at..end].copy_from_slice(bytes);
}
