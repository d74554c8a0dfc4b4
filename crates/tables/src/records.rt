//! What is kept of a node, of an operation and of a proposal.

use crate::copy::SheetCopy;
use crate::members::Members;
use frame::Tag;

/// What a node does in its group.
#[derive(Clone, Copy, Debug, PartialEq, Eq)]
pub enum Status {
    /// It is in no group yet.
    Idle,
    /// It acknowledges reads and writes, and starts them if it is the primary.
    Active,
    /// A change of its group has begun.
    Frozen,
}

/// What a node knows of the configuration that it is in: number, members, and the tag of the copy that it opens with.
#[derive(Clone, Copy, Debug, PartialEq, Eq)]
pub struct Configuration {
    pub number: u8,
    pub members: Members,
    pub opening: Tag,
}

/// What is kept of a node.
#[derive(Clone, Copy, Debug, PartialEq, Eq)]
pub struct NodeRecord {
    pub status: Status,
    pub stopped: bool,
    pub configuration: Configuration,
    /// The highest copy that it took from a put or an update.
    pub stored: SheetCopy,
    /// The copy that it would answer to a read as the primary.
    pub served: SheetCopy,
    /// The highest version that it gave out, or that a configuration which it joined opened with.
    pub newest: u16,
}

/// What an operation is.
#[derive(Clone, Copy, Debug, PartialEq, Eq)]
pub enum OperationKind {
    Read,
    Write,
    /// A change of the group.
    Regroup,
}

/// How far an operation is.
#[derive(Clone, Copy, Debug, PartialEq, Eq)]
pub enum OperationState {
    Open,
    Answered,
    GivenUp,
    /// Of a regroup: its members and its copy are a proposal.
    Proposed,
}

/// What is kept of an operation.
#[derive(Clone, Copy, Debug, PartialEq, Eq)]
pub struct OperationRow {
    pub kind: OperationKind,
    /// Where it was started.
    pub node: u8,
    /// The number of the configuration that it was started under.
    pub number: u8,
    /// Of a read its answer, of a write what it writes, of a regroup the highest copy that was held out to it.
    pub copy: SheetCopy,
    /// The members of its configuration; of a regroup, the new ones.
    pub members: Members,
    /// The places, as bits, whose nodes have acknowledged it, or have frozen for it.
    pub set: u8,
    pub state: OperationState,
    /// The moment at which it started.
    pub start: u32,
    /// The moment at which it was answered, else 0.
    pub answer: u32,
}

/// What is kept of a proposal: the number of the configuration that it is to follow, and the members and the copy of the next.
#[derive(Clone, Copy, Debug, PartialEq, Eq)]
pub struct ProposalRow {
    pub number: u8,
    pub members: Members,
    pub copy: SheetCopy,
}
