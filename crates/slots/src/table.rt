//! The slots of the frame table.
ghost use Rattle.std.specs.Prelude.{◌≡◌, ℕ, ◌<◌, Some, length, drop, replicate, slice_set, slice_index, true, false, ◌==◌};
ghost use Rattle.frame.specs.Bytes.{fits};
ghost use Rattle.frame.specs.Limits.{slot_size};
ghost use Rattle.writer.specs.Table.{slots, replaced};
ghost use Rattle.slots.specs.Letters.{addressed};
ghost use Rattle.slots.specs.Slots.{empty_slots, empty_count, lowest_empty, may_send, filled_at, sent, sent_to_each, occupied, lost, is_empty, as_it_stands, NoneBelow, InOrder, OthersStay};

use crate::letter::Letter;
use content::Content;
use frame::SLOT;
use refusal::Refusal;
use writer::frame_of;

// A receiver that is told later.
const NOBODY: u8 = 0;

/// How many slots are empty: a slot is, if its first byte is 0.
pub fn empty_count(frames: &[u8]) -> usize
    ensures { result ≡ empty_count frames.now }
{
    let (slots, _) = frames.as_chunks::<SLOT>();
    slots.iter().filter(|slot| slot[0] == 0).count()
}

/// The lowest empty slot, if there is one.
pub fn lowest_empty(frames: &[u8]) -> Option<usize>
    ensures { result ≡ lowest_empty frames.now }
{
    let (slots, _) = frames.as_chunks::<SLOT>();
    slots.iter().position(|slot| slot[0] == 0)
}

/// Whether this many frames find empty slots: refused with 19 if they do not. It looks no further than for so many.
#[tactic(auto, using(crate::proofs::Numbered::counted_here, crate::proofs::Numbered::passed_here, crate::proofs::Numbered::none_behind))]
pub fn may_send(frames: &[u8], count: usize) -> Result<(), Refusal>
    ensures { result ≡ may_send frames.now count }
{
    let mut found = 0;
    for slot in 0..frames.len() / SLOT {
        if is_empty(frames, slot) {
            found += 1;
            if found == count {
                return Ok(());
            }
        }
    }
    if found < count {
        return Err(Refusal::TooFewSlots);
    }
    Ok(())
}

/// Sends a letter to each receiver, in their order, each as a frame in the lowest slot that is empty then. One that finds none is left out, so ask `may_send` before.
#[tactic(auto, using(crate::proofs::Readdressed::readdressed, crate::proofs::Filled::frame_is_not_empty))]
pub fn send<C: Content>(frames: &mut [u8], receivers: &[u8], letter: &Letter)
    ensures table { frames.new ≡ sent_to_each C.width frames.old receivers.now letter.now }
    ensures in_order { InOrder C.width frames.old receivers.now letter.now frames.new }
    ensures left_empty { empty_slots frames.new ≡ drop (length receivers.now) (empty_slots frames.old) }
    ensures others_stay { OthersStay frames.old (length receivers.now) frames.new }
{
    // never none: the parts of the message have their lengths
    let Some(frame) = frame_of::<C>(letter.to::<C>(NOBODY)) else {
        return;
    };
    let mut from = 0;
    for receiver in receivers {
        from = fill_next(frames, from, &addressed_to(&frame, *receiver));
    }
}

// A frame with this receiver.
fn addressed_to(frame: &[u8; SLOT], receiver: u8) -> [u8; SLOT]
    ensures { result ≡ slice_set frame.now 1 receiver }
{
    let mut frame = *frame;
    frame[1] = receiver;
    frame
}

// A frame into the lowest empty slot, if there is one: none is below `from`, and then none below the answer.
fn fill_next(frames: &mut [u8], from: usize, frame: &[u8; SLOT]) -> usize
    requires none_below { NoneBelow frames.old from }
    requires is_frame { (slice_index frame.now 0 == 0) ≡ false }
    ensures table { frames.new ≡ filled_at frames.old (lowest_empty frames.old) frame.now }
    ensures none_below { NoneBelow frames.new result }
{
    let Some(slot) = lowest_from(frames, from) else {
        return from;
    };
    let start = slot * SLOT;
    frames[start..start + SLOT].copy_from_slice(frame);
    slot + 1
}

// The lowest empty slot, of which none is below `from`.
fn lowest_from(frames: &[u8], from: usize) -> Option<usize>
    requires { NoneBelow frames.now from }
    ensures lowest { result ≡ lowest_empty frames.now }
    ensures none_below { (slot : ℕ) → result ≡ Some slot → NoneBelow frames.now slot }
    ensures inside { (slot : ℕ) → result ≡ Some slot → slot < slots frames.now }
{
    for slot in from..frames.len() / SLOT {
        if is_empty(frames, slot) {
            return Some(slot);
        }
    }
    None
}

fn is_empty(frames: &[u8], slot: usize) -> bool
    requires { slot < slots frames.now }
    ensures { result ≡ is_empty frames.now slot }
{
    frames[slot * SLOT] == 0
}

/// The 32 bytes of a slot that is not empty: refused with 3 if the table has no such slot, or it is empty.
pub fn occupied(frames: &[u8], slot: usize) -> Result<&[u8], Refusal>
    ensures { as_it_stands result ≡ occupied frames.now slot }
{
    if slot >= frames.len() / SLOT {
        return Err(Refusal::NoSlot);
    }
    let start = slot * SLOT;
    let bytes = &frames[start..start + SLOT];
    if bytes[0] == 0 {
        return Err(Refusal::NoSlot);
    }
    Ok(bytes)
}

/// Loses the frame in a slot: all its bytes are 0 from then on. Refused as `occupied` is, and nothing is changed.
pub fn lose(frames: &mut [u8], slot: usize) -> Result<(), Refusal>
    ensures { (result, frames.new) ≡ lost frames.old slot }
{
    occupied(frames, slot)?;
    clear(frames, slot);
    Ok(())
}

fn clear(frames: &mut [u8], slot: usize)
    requires { slot < slots frames.old }
    ensures { frames.new ≡ replaced frames.old slot (replicate slot_size 0) }
{
    let start = slot * SLOT;
    frames[start..start + SLOT].fill(0);
}
