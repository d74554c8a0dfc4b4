//! Whether a slot holds a frame, and what of it is at fault if not.
ghost use Rattle.std.specs.Prelude.{◌≡◌, ◌≢◌, length, MatchResult};
ghost use Rattle.frame.specs.Check.{checked, checked_as, kind_runs, kind_takes, plain_runs, copy_runs, update_runs};
ghost use Rattle.frame.specs.Faults.{fault};
ghost use Rattle.frame.specs.Fields.{byte_at, judged_runs};
ghost use Rattle.frame.specs.Kinds.{kind_from};
ghost use Rattle.frame.specs.Limits.{slot_size};

use crate::fields;
use content::Content;
use frame::{Cause, FrameFault, FrameKind, SLOT};

/// The kind of the frame in a slot, and the number of bytes that it takes; or the fault of the first field that fails.
/// `check::<Quote>(&[8; 32])` is the fault of cause 1 at offset 0. The kind is told by its number: the answer is promised as two plain numbers.
pub fn check<C: Content>(slot: &[u8]) -> Result<(u8, usize), FrameFault>
    ensures { result ≡ checked C.width C.reads slot.now }
{
    let (kind, length) = frame_in::<C>(whole(slot)?)?;
    Ok((kind.number(), length))
}

/// The 32 bytes of a slot; any other number of bytes is at fault as a whole.
pub(crate) fn whole(slot: &[u8]) -> Result<&[u8; SLOT], FrameFault>
    ensures { MatchResult result (λ bytes. (length slot.now ≡ slot_size) × (bytes.now ≡ slot.now)) (λ answer. (length slot.now ≢ slot_size) × (answer ≡ fault Cause.Rest 0)) }
{
    slot.as_array().ok_or(FrameFault {
        cause: Cause::Rest,
        offset: 0,
    })
}

/// The kind of the frame in a slot and the number of its bytes, or the fault.
pub(crate) fn frame_in<C: Content>(slot: &[u8; SLOT]) -> Result<(FrameKind, usize), FrameFault>
    ensures { result ≡ checked_as C.width C.reads slot.now (kind_from (byte_at slot.now 0)) }
{
    let kind = FrameKind::try_from(slot[0])?;
    fields_of::<C>(slot, kind)?;
    let length = length_of::<C>(kind);
    fields::rest(slot, length)?;
    Ok((kind, length))
}

// The fields of a kind, between kind and rest.
fn fields_of<C: Content>(slot: &[u8; SLOT], kind: FrameKind) -> Result<(), FrameFault>
    ensures { result ≡ judged_runs (kind_runs C.width C.reads slot.now kind) tt }
{
    match kind {
        FrameKind::Get | FrameKind::GetAck | FrameKind::PutAck | FrameKind::Freeze => plain(slot),
        FrameKind::Put | FrameKind::Held => with_copy::<C>(slot),
        FrameKind::Update => update::<C>(slot),
    }
}

// How many bytes a frame of a kind takes.
fn length_of<C: Content>(kind: FrameKind) -> usize
    ensures { result ≡ kind_takes C.width kind }
{
    match kind {
        FrameKind::Get | FrameKind::GetAck | FrameKind::PutAck | FrameKind::Freeze => 6,
        FrameKind::Put | FrameKind::Held => 9 + C::width(),
        FrameKind::Update => 15 + C::width(),
    }
}

// The fields of a frame without a copy.
fn plain(slot: &[u8; SLOT]) -> Result<(), FrameFault>
    ensures { result ≡ judged_runs (plain_runs slot.now) tt }
{
    fields::route(slot)?;
    fields::number_and_operation(slot)
}

// Of a put or held.
fn with_copy<C: Content>(slot: &[u8; SLOT]) -> Result<(), FrameFault>
    ensures { result ≡ judged_runs (copy_runs C.width C.reads slot.now) tt }
{
    plain(slot)?;
    fields::tag(slot, 6)?;
    fields::content::<C>(slot, 9)
}

// Of an update.
fn update<C: Content>(slot: &[u8; SLOT]) -> Result<(), FrameFault>
    ensures { result ≡ judged_runs (update_runs C.width C.reads slot.now) tt }
{
    fields::route(slot)?;
    fields::number_and_count(slot)?;
    fields::members(slot)?;
    fields::tag(slot, 12)?;
    fields::content::<C>(slot, 15)
}
