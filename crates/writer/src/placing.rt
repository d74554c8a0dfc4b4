//! Puts a message into a slot of the frame table.
ghost use Rattle.std.specs.Prelude.{◌≡◌, ◌<◌, Ok};
ghost use Rattle.frame.specs.Bytes.{fits, WordsFit};
ghost use Rattle.frame.specs.Lawful.{Lawful, ReadsBack};
ghost use Rattle.frame.specs.Messages.{says};
ghost use Rattle.writer.specs.Table.{slots, slot_of, frame_of, placed};

use crate::layout::{bytes_of, write};
use content::Content;
use frame::{Message, SLOT};
use quorum::LARGEST_GROUP;
use refusal::Refusal;

/// Writes a message into its own 32 bytes of the frame table. Refused, and nothing is written: with 3 if the table has no such slot,
/// else with 13 if an update's members are not seven, or the content of a put, held or update does not have the width of its kind.
pub fn place<C: Content>(
    frames: &mut [u8],
    slot: usize,
    message: Message<'_>,
) -> Result<(), Refusal>
    ensures placed { (result, frames.new) ≡ placed C.width frames.old slot (says message.entry) }
    ensures lawful_is_placed { slot < slots frames.old → Lawful C.meaning (says message.entry) → result ≡ Ok tt }
    ensures reads_back { result ≡ Ok tt → ReadsBack C.width C.meaning C.reads (says message.entry) (slot_of frames.new slot) }
{
    if slot >= frames.len() / SLOT {
        return Err(Refusal::NoSlot);
    }
    if !fits(message, C::width()) {
        return Err(Refusal::Unlawful);
    }
    let start = slot * SLOT;
    write::<C>(&mut frames[start..start + SLOT], message);
    Ok(())
}

/// The 32 bytes of a message, for a sender that writes them to several slots; none where `place` refuses with 13.
pub fn frame_of<C: Content>(message: Message<'_>) -> Option<[u8; SLOT]>
    ensures { result ≡ frame_of C.width (says message.entry) }
{
    if !fits(message, C::width()) {
        return None;
    }
    Some(bytes_of::<C>(message))
}

// Whether the message's parts have the lengths of their fields. That its numbers have 16 bits is known by their type.
fn fits(message: Message<'_>, width: usize) -> bool
    ensures lengths { result ≡ fits width (says message.entry) }
    ensures words { WordsFit (says message.entry) }
{
    match message {
        Message::Get { .. }
        | Message::GetAck { .. }
        | Message::PutAck { .. }
        | Message::Freeze { .. } => true,
        Message::Put { content, .. } | Message::Held { content, .. } => content.len() == width,
        Message::Update {
            members,
            content,
            ..
        } => members.len() == LARGEST_GROUP && content.len() == width,
    }
}
