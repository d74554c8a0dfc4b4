//! Letters: messages without their receivers.
ghost use Rattle.std.specs.Prelude.{◌≡◌, true};
ghost use Rattle.frame.specs.Bytes.{fits};
ghost use Rattle.frame.specs.Messages.{says};
ghost use Rattle.slots.specs.Letters.{said, addressed};

use content::Content;
use frame::{Head, Message};
use tables::{Members, SheetCopy};

/// A message without its receiver, which is told when it is sent. Copies and members are kept by value: a letter borrows from no table.
#[derive(Clone, Copy, Debug, PartialEq, Eq)]
pub struct Letter {
    pub sender: u8,
    pub number: u8,
    pub body: Body,
}

/// The kind of a letter, and what it says beyond sender and number.
#[derive(Clone, Copy, Debug, PartialEq, Eq)]
pub enum Body {
    Get { operation: u16 },
    GetAck { operation: u16 },
    Put { operation: u16, copy: SheetCopy },
    PutAck { operation: u16 },
    Freeze { operation: u16 },
    Held { operation: u16, copy: SheetCopy },
    Update { members: Members, copy: SheetCopy },
}

impl Letter {
    /// The letter as a message to a receiver; of each copy's sixteen bytes it has those of a content of the kind. Its parts have the lengths of a frame's fields.
    pub fn to<C: Content>(&self, receiver: u8) -> Message<'_>
        ensures same { says result ≡ addressed C.width self.now receiver }
        ensures fitting { fits C.width (says result) ≡ true }
    {
        let head = Head {
            receiver,
            sender: self.sender,
            number: self.number,
        };
        said::<C>(&self.body, head)
    }
}

// A body under a head.
fn said<C: Content>(body: &Body, head: Head) -> Message<'_>
    ensures same { says result ≡ said C.width head body.now }
    ensures fitting { fits C.width (says result) ≡ true }
{
    match body {
        Body::Get { operation } => Message::Get {
            head,
            operation: *operation,
        },
        Body::GetAck { operation } => Message::GetAck {
            head,
            operation: *operation,
        },
        Body::Put { operation, copy } => Message::Put {
            head,
            operation: *operation,
            tag: copy.tag,
            content: &copy.content[..C::width()],
        },
        Body::PutAck { operation } => Message::PutAck {
            head,
            operation: *operation,
        },
        Body::Freeze { operation } => Message::Freeze {
            head,
            operation: *operation,
        },
        Body::Held { operation, copy } => Message::Held {
            head,
            operation: *operation,
            tag: copy.tag,
            content: &copy.content[..C::width()],
        },
        Body::Update { members, copy } => Message::Update {
            head,
            count: members.count,
            members: &members.nodes,
            tag: copy.tag,
            content: &copy.content[..C::width()],
        },
    }
}
