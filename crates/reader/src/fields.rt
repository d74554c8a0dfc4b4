//! The fields of a frame, a function for each run of them; each answers the fault of the first that fails.
//! A field whose place differs between kinds of frame is given its place as `at`.
ghost use Rattle.std.specs.Prelude.{◌≡◌, ◌+◌, ◌≤◌, ◌&&◌, ◌==◌, not, take, drop, if◌then◌else◌};
ghost use Rattle.quorum.specs.Limits.{largest_group};
ghost use Rattle.frame.specs.Fields.{judged, verdict, test, word_at, is_node, all_zero, among, node_suits};
ghost use Rattle.frame.specs.Fields.{route_fields, number_operation_fields, number_count_fields, member_fields, tag_fields, content_fields, rest_test};
ghost use Rattle.frame.specs.Limits.{slot_size};

use content::Content;
use frame::{
    Cause, FrameFault, HIGHEST_NODE, HIGHEST_NUMBER, HIGHEST_OPERATION, HIGHEST_VERSION, SLOT,
};
use quorum::LARGEST_GROUP;

/// Receiver and sender.
pub(crate) fn route(slot: &[u8; SLOT]) -> Result<(), FrameFault>
    ensures { result ≡ judged (route_fields slot.now) tt }
{
    require(is_node(slot[1]), Cause::Field, 1)?;
    require(is_node(slot[2]), Cause::Field, 2)
}

/// Number and operation.
pub(crate) fn number_and_operation(slot: &[u8; SLOT]) -> Result<(), FrameFault>
    ensures { result ≡ judged (number_operation_fields slot.now) tt }
{
    require(slot[3] <= HIGHEST_NUMBER, Cause::Field, 3)?;
    require(word(slot, 4) <= HIGHEST_OPERATION, Cause::Field, 4)
}

/// Number and count of an update.
pub(crate) fn number_and_count(slot: &[u8; SLOT]) -> Result<(), FrameFault>
    ensures { result ≡ judged (number_count_fields slot.now) tt }
{
    require((1..=HIGHEST_NUMBER).contains(&slot[3]), Cause::Field, 3)?;
    let count = usize::from(slot[4]);
    require((1..=LARGEST_GROUP).contains(&count), Cause::Field, 4)
}

/// The seven members of an update.
#[tactic(auto, using(crate::proofs::Steps::members_more, crate::proofs::Steps::members_end))]
pub(crate) fn members(slot: &[u8; SLOT]) -> Result<(), FrameFault>
    ensures { result ≡ judged (member_fields slot.now) tt }
{
    let count = usize::from(slot[4]);
    let members = &slot[5..12];
    for (i, member) in members.iter().enumerate() {
        let passes = member_passes(*member, &members[..i], i < count);
        require(passes, Cause::Field, 5 + i)?;
    }
    Ok(())
}

/// Version and node of the tag that begins at a place.
pub(crate) fn tag(slot: &[u8; SLOT], at: usize) -> Result<(), FrameFault>
    requires { at + 3 ≤ slot_size }
    ensures { result ≡ judged (tag_fields slot.now at) tt }
{
    let version = word(slot, at);
    require(version <= HIGHEST_VERSION, Cause::Field, at)?;
    require(node_suits(version, slot[at + 2]), Cause::Field, at + 2)
}

/// The content that begins at a place: its bytes go to the kind of content, which says whether they are its own.
pub(crate) fn content<C: Content>(slot: &[u8; SLOT], at: usize) -> Result<(), FrameFault>
    requires { at + C.width ≤ slot_size }
    ensures { result ≡ judged (content_fields C.width C.reads slot.now at) tt }
{
    let own = C::from_bytes(content_at::<C>(slot, at)).is_some();
    require(own, Cause::Content, at)
}

/// The rest of the slot, from a place on.
pub(crate) fn rest(slot: &[u8; SLOT], at: usize) -> Result<(), FrameFault>
    ensures { result ≡ verdict (rest_test slot.now at) }
{
    require(zero_from(slot, at), Cause::Rest, at)
}

/// The number of the two bytes at a place, the high one first.
pub(crate) fn word(slot: &[u8; SLOT], at: usize) -> u16
    requires { at + 2 ≤ slot_size }
    ensures { result ≡ word_at slot.now at }
{
    u16::from_be_bytes([slot[at], slot[at + 1]])
}

/// The bytes of the content that begins at a place.
pub(crate) fn content_at<C: Content>(slot: &[u8; SLOT], at: usize) -> &[u8]
    requires { at + C.width ≤ slot_size }
    ensures { result.now ≡ take C.width (drop at slot.now) }
{
    &slot[at..at + C::width()]
}

// Nothing, or the fault of a field that does not pass; `passes` is the answer of the field's test.
fn require(passes: bool, cause: Cause, offset: usize) -> Result<(), FrameFault>
    ensures { result ≡ verdict (test passes cause offset) }
{
    if passes {
        Ok(())
    } else {
        Err(FrameFault { cause, offset })
    }
}

fn is_node(n: u8) -> bool
    ensures { result ≡ is_node n }
{
    (1..=HIGHEST_NODE).contains(&n)
}

fn node_suits(version: u16, node: u8) -> bool
    ensures { result ≡ node_suits version node }
{
    if version == 0 {
        node == 0
    } else {
        is_node(node)
    }
}

// A counted member is a node that is none of those before it, any other is 0. A function of its own, since the step of the loop above was not proved with it written out.
fn member_passes(member: u8, before: &[u8], counted: bool) -> bool
    ensures { result ≡ (if counted then is_node member && not (among member before.now) else member == 0) }
{
    if counted {
        is_node(member) && !before.contains(&member)
    } else {
        member == 0
    }
}

// Whether every byte from a place on is 0.
fn zero_from(slot: &[u8; SLOT], at: usize) -> bool
    ensures { result ≡ all_zero (drop at slot.now) }
{
    slot.iter().skip(at).all(|byte| *byte == 0)
}
