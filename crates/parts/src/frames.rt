//! How frames are shown: the bytes of each field behind its name.
use crate::text::Hexadecimal;
use content::Content;
use frame::{FrameFault, FrameKind, Head, Message, SLOT, Tag};
use quote::Quote;
use reader::{check, read};
use refusal::Refusal;
use std::io;
use writer::place;

/// The frames of a put to three machines, in a table of three slots: the first write of a sender, under configuration 0.
pub(crate) fn show_puts(
    rt: &HostRuntime,
    quote: Result<Quote, Refusal>,
    sender: u8,
    receivers: [u8; 3],
) -> io::Result<()> {
    let mut frames = [0u8; 3 * SLOT];
    if let Err(refusal) = put_to_each(&mut frames, quote, sender, receivers) {
        return println!(rt; "    refused {refusal}");
    }
    for slot in frames.chunks_exact(SLOT) {
        show_frame(rt, slot)?;
    }
    Ok(())
}

fn put_to_each(
    frames: &mut [u8],
    quote: Result<Quote, Refusal>,
    sender: u8,
    receivers: [u8; 3],
) -> Result<(), Refusal> {
    let content = quote?.to_bytes();
    let tag = Tag {
        version: 1,
        node: sender,
    };
    for (slot, receiver) in receivers.into_iter().enumerate() {
        let head = Head {
            receiver,
            sender,
            number: 0,
        };
        let put = Message::Put {
            head,
            operation: 0,
            tag,
            content: &content[..Quote::width()],
        };
        place::<Quote>(frames, slot, put)?;
    }
    Ok(())
}

/// A frame with a quote, field by field; or its bytes and its fault.
pub(crate) fn show_frame(rt: &HostRuntime, slot: &[u8]) -> io::Result<()> {
    match frame_in(slot) {
        Ok((kind, length)) => {
            print!(rt; "    {kind}, {length} bytes")?;
            show_fields(rt, slot, kind, length)
        }
        Err(fault) => {
            println!(rt; "    bytes {}", Hexadecimal(slot))?;
            println!(rt; "    fault {fault}")
        }
    }
}

// The kind of the frame in a slot, and how many bytes it takes.
fn frame_in(slot: &[u8]) -> Result<(FrameKind, usize), FrameFault> {
    let (_, length) = check::<Quote>(slot)?;
    let message = read::<Quote>(slot)?;
    Ok((message.kind(), length))
}

// Each field on a line of its own.
fn show_fields(rt: &HostRuntime, slot: &[u8], kind: FrameKind, length: usize) -> io::Result<()> {
    for (offset, byte) in slot.iter().enumerate() {
        match field_at(kind, offset, length) {
            Some(name) => print!(rt; "\n        {name} {byte:02X}")?,
            None => print!(rt; " {byte:02X}")?,
        }
    }
    println!(rt; "")
}

// The name of the field that begins at a byte, if one does.
fn field_at(kind: FrameKind, offset: usize, length: usize) -> Option<&'static str> {
    match (kind, offset) {
        (_, 0) => Some("kind     "),
        (_, 1) => Some("receiver "),
        (_, 2) => Some("sender   "),
        (_, 3) => Some("number   "),
        (FrameKind::Update, 4) => Some("count    "),
        (FrameKind::Update, 5) => Some("members  "),
        (_, 4) => Some("operation"),
        (FrameKind::Put | FrameKind::Held, 6) | (FrameKind::Update, 12) => Some("version  "),
        (FrameKind::Put | FrameKind::Held, 8) | (FrameKind::Update, 14) => Some("node     "),
        (FrameKind::Put | FrameKind::Held, 9) | (FrameKind::Update, 15) => Some("content  "),
        _ if offset == length => Some("rest     "),
        _ => None,
    }
}
