//! What a frame says.
ghost use Rattle.std.specs.Prelude.{◌≡◌};
ghost use Rattle.frame.specs.Bytes.{kind_of};
ghost use Rattle.frame.specs.Messages.{says};

use crate::kind::FrameKind;

/// What stands behind the kind in every frame: whom it goes to, whom it comes from, and the number of the configuration that it speaks of.
#[derive(Clone, Copy, Debug, PartialEq, Eq)]
pub struct Head {
    pub receiver: u8,
    pub sender: u8,
    pub number: u8,
}

/// Which write a content comes from: the version, and the node that gave it. The opening content has version 0 and node 0.
#[derive(Clone, Copy, Debug, PartialEq, Eq, PartialOrd, Ord)]
pub struct Tag {
    pub version: u16,
    pub node: u8,
}

/// What a frame says: numbers by value, members and content borrowed, as from the slot that they stand in.
#[derive(Clone, Copy, Debug, PartialEq, Eq)]
pub enum Message<'a> {
    /// asks a member whether the configuration still stands
    Get {
        head: Head,
        operation: u16,
    },
    /// answers a get
    GetAck {
        head: Head,
        operation: u16,
    },
    /// asks a member to store a copy
    Put {
        head: Head,
        operation: u16,
        tag: Tag,
        content: &'a [u8],
    },
    /// answers a put
    PutAck {
        head: Head,
        operation: u16,
    },
    /// asks a member to serve the configuration no longer
    Freeze {
        head: Head,
        operation: u16,
    },
    /// answers a freeze with the copy that the member stores
    Held {
        head: Head,
        operation: u16,
        tag: Tag,
        content: &'a [u8],
    },
    /// installs a configuration: the first `count` of the seven members, and the copy that it opens with; count and members are two fields of the frame
    Update {
        head: Head,
        count: u8,
        members: &'a [u8],
        tag: Tag,
        content: &'a [u8],
    },
}

impl Message<'_> {
    /// The kind of frame that says this.
    pub fn kind(&self) -> FrameKind
        ensures { result ≡ kind_of (says self.now) }
    {
        match self {
            Message::Get { .. } => FrameKind::Get,
            Message::GetAck { .. } => FrameKind::GetAck,
            Message::Put { .. } => FrameKind::Put,
            Message::PutAck { .. } => FrameKind::PutAck,
            Message::Freeze { .. } => FrameKind::Freeze,
            Message::Held { .. } => FrameKind::Held,
            Message::Update { .. } => FrameKind::Update,
        }
    }
}
