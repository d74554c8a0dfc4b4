//! A call, its answer, and the two together.

use content::Content;
use fault::Fault;
use tables::{Members, OperationRow};

/// A call on a floor with contents of one kind.
#[derive(Debug, PartialEq, Eq, Drop)]
pub enum Call<C: Content> {
    /// open the floor with nodes 1 to the count
    Open {
        count: u8,
        members: Members,
        content: C,
    },
    /// start a read at a node
    Read {
        node: u8,
    },
    /// start a write at a node
    Write {
        node: u8,
        content: C,
    },
    /// start a change of a node's group to new members
    Regroup {
        node: u8,
        members: Members,
    },
    /// propose what a regroup gathered
    Propose {
        operation: u16,
    },
    /// send what is decided under a node's number
    Settle {
        node: u8,
    },
    /// a step of work at the chooser
    Work {
        number: u8,
        step: u8,
        ballot: u8,
        set: u8,
    },
    /// deliver the frame in a slot
    Deliver {
        slot: u16,
    },
    /// lose the frame in a slot
    Lose {
        slot: u16,
    },
    /// give up an operation
    GiveUp {
        operation: u16,
    },
    /// stop a node
    Stop {
        node: u8,
    },
    /// look at an operation
    Look {
        operation: u16,
    },
}

/// What a call that does not stop answers.
#[derive(Clone, Copy, Debug, PartialEq, Eq)]
pub enum Answer {
    /// Starts answer the number of the operation's row, propose that of the proposal's, settle how many frames it sent, deliver what became of the frame, and the others but look 0.
    Number(u16),
    /// A look answers the operation's row.
    Row(OperationRow),
}

/// A call and what it was answered, none before it is made.
#[derive(Debug, PartialEq, Eq, Drop)]
pub struct Turn<C: Content> {
    pub call: Call<C>,
    pub answer: Option<Result<Answer, Fault>>,
}
