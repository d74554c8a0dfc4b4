//! What a host knows of a run of calls, as far as the order law speaks of it.
use crate::parsing::Seen;
use calls::{Answer, Call};
use content::{Content, WIDEST};
use fault::Fault;
use frame::Tag;
use std::alloc::{AllocError, AllocFailed, Global};
use tables::{Configuration, Members, NodeRecord, OperationKind, OperationRow};

// The tag of the opening content.
const NO_TAG: Tag = Tag {
    version: 0,
    node: 0,
};

/// What a call told.
#[derive(Clone, Copy, Debug, PartialEq, Eq)]
pub(crate) enum Told {
    /// It opened the floor with this content.
    Opened {
        content: [u8; WIDEST],
    },
    /// It started a read or a write.
    Started {
        operation: u16,
        kind: OperationKind,
        /// what a write was given
        content: Option<[u8; WIDEST]>,
    },
    /// It delivered a frame of this operation, and answered 2.
    Answered {
        operation: u16,
    },
    /// It looked at this operation, and answered this row.
    Looked {
        operation: u16,
        row: OperationRow,
    },
    /// Nothing that the law speaks of.
    Nothing,
}

/// A node holds a configuration from a call on.
#[derive(Clone, Copy, Debug, PartialEq, Eq)]
pub(crate) struct Holding {
    /// the place of the call
    pub place: usize,
    pub node: u8,
    /// what the opening or the update gave
    pub given: Configuration,
    /// what the node's record showed after the call
    pub found: Configuration,
}

/// A run, as the host knows it.
#[derive(Clone, Drop)]
pub(crate) struct History {
    /// what each call told: the place in this list is the call's place in the run
    pub told: Vec<Told>,
    pub held: Vec<Holding>,
    /// what looks at the end answer, by the number of the operation
    pub end: Vec<OperationRow>,
}

impl History {
    /// No call was made yet.
    pub(crate) fn new(alloc: Global) -> History {
        History {
            told: Vec::new(alloc),
            held: Vec::new(alloc),
            end: Vec::new(alloc),
        }
    }

    /// Notes a call: what the frame that it delivers said before it, what it answered, and the records of the nodes after it.
    pub(crate) fn note<C: Content>(
        &mut self,
        call: &Call<C>,
        seen: Seen,
        answer: &Result<Answer, Fault>,
        nodes: &[NodeRecord],
    ) -> Result<(), AllocError> {
        let place = self.told.len();
        self.told.push(said_by(call, seen, answer))?;
        match (call, answer, seen) {
            (Call::Open { count, members, .. }, Ok(_), _) => {
                self.note_opening(place, *count, *members, nodes)
            }
            (Call::Deliver { .. }, Ok(Answer::Number(1)), Seen::Update { receiver, given }) => {
                Ok(self.note_holding(place, receiver, given, nodes)?)
            }
            _ => Ok(()),
        }
    }

    // Nodes 1 to the count hold configuration 0.
    fn note_opening(
        &mut self,
        place: usize,
        count: u8,
        members: Members,
        nodes: &[NodeRecord],
    ) -> Result<(), AllocError> {
        let given = Configuration {
            number: 0,
            members,
            opening: NO_TAG,
        };
        for node in 1..=count {
            self.note_holding(place, node, given, nodes)?;
        }
        Ok(())
    }

    fn note_holding(
        &mut self,
        place: usize,
        node: u8,
        given: Configuration,
        nodes: &[NodeRecord],
    ) -> Result<(), AllocFailed<Holding>> {
        let Some(row) = usize::from(node).checked_sub(1) else {
            return Ok(());
        };
        match nodes.get(row) {
            Some(record) => self.held.push(Holding {
                place,
                node,
                given,
                found: record.configuration,
            }),
            None => Ok(()),
        }
    }
}

fn said_by<C: Content>(call: &Call<C>, seen: Seen, answer: &Result<Answer, Fault>) -> Told {
    match (call, answer) {
        (Call::Open { content, .. }, Ok(_)) => Told::Opened {
            content: content.to_bytes(),
        },
        (Call::Read { .. }, Ok(Answer::Number(operation))) => Told::Started {
            operation: *operation,
            kind: OperationKind::Read,
            content: None,
        },
        (Call::Write { content, .. }, Ok(Answer::Number(operation))) => Told::Started {
            operation: *operation,
            kind: OperationKind::Write,
            content: Some(content.to_bytes()),
        },
        (Call::Deliver { .. }, Ok(Answer::Number(2))) => match seen {
            Seen::Operation(operation) => Told::Answered { operation },
            _ => Told::Nothing,
        },
        (Call::Look { operation }, Ok(Answer::Row(row))) => Told::Looked {
            operation: *operation,
            row: *row,
        },
        _ => Told::Nothing,
    }
}
