//! The operations of a run, as its history tells them: when each was started and answered, and which are counted.
use crate::history::{History, Told};
use content::WIDEST;
use std::alloc::{AllocError, Global};
use tables::{OperationKind, OperationRow, OperationState};

/// An operation that can be looked at at the end of the run.
#[derive(Clone, Copy, Debug, PartialEq, Eq)]
pub(crate) struct Known {
    pub operation: u16,
    /// what a look at the end answers
    pub row: OperationRow,
    /// by which call it was started, as what, and with which content
    pub started: Option<Start>,
    /// by which call it was answered
    pub answered: Option<usize>,
    /// answered, or a write whose tag an answered read gave
    pub counted: bool,
    /// how many counted operations stand ahead of it
    pub rank: usize,
}

/// How an operation was started.
#[derive(Clone, Copy, Debug, PartialEq, Eq)]
pub(crate) struct Start {
    pub place: usize,
    pub kind: OperationKind,
    pub content: Option<[u8; WIDEST]>,
}

impl Known {
    pub(crate) fn is_write(&self) -> bool {
        self.row.kind == OperationKind::Write
    }

    pub(crate) fn is_read(&self) -> bool {
        self.row.kind == OperationKind::Read
    }

    /// An answered read.
    pub(crate) fn is_answered_read(&self) -> bool {
        self.is_read() && self.answered.is_some()
    }

    /// Version and node of its tag: versions compare first.
    pub(crate) fn tag(&self) -> (u16, u8) {
        (self.row.copy.tag.version, self.row.copy.tag.node)
    }

    /// Whether a look shows it as answered.
    pub(crate) fn shows_answered(&self) -> bool {
        self.row.state == OperationState::Answered
    }

    // Whether it was started at an earlier call.
    fn started_before(&self, other: &Known) -> bool {
        match (self.started, other.started) {
            (Some(first), Some(second)) => first.place < second.place,
            _ => false,
        }
    }
}

/// Whether one stands ahead of another: by tag, a write before the reads of its tag, and those by when they started.
pub(crate) fn is_ahead(one: &Known, other: &Known) -> bool {
    let (version, node) = one.tag();
    let (other_version, other_node) = other.tag();
    if version != other_version {
        return version < other_version;
    }
    if node != other_node {
        return node < other_node;
    }
    if one.is_write() {
        return other.is_read();
    }
    one.is_read() && other.is_read() && one.started_before(other)
}

/// What a history tells of its operations.
#[derive(Drop)]
pub(crate) struct Knowledge {
    pub operations: Vec<Known>,
    /// an operation that was started or answered twice, or answered before it was started, or that cannot be looked at
    pub odd: Option<u16>,
}

impl Knowledge {
    /// What this history tells.
    pub(crate) fn of(alloc: Global, history: &History) -> Result<Knowledge, AllocError> {
        let mut knowledge = Knowledge {
            operations: Vec::new(alloc),
            odd: None,
        };
        for (operation, row) in history.end.iter().enumerate() {
            knowledge.operations.push(Known {
                operation: u16::try_from(operation).unwrap_or(u16::MAX),
                row: *row,
                started: None,
                answered: None,
                counted: false,
                rank: 0,
            })?;
        }
        knowledge.take_in(history.told.as_slice());
        knowledge.count();
        knowledge.rank();
        Ok(knowledge)
    }

    // Takes in what the calls told, one after the other.
    fn take_in(&mut self, told: &[Told]) {
        for (place, told) in told.iter().enumerate() {
            match told {
                Told::Started {
                    operation,
                    kind,
                    content,
                } => self.note_start(
                    *operation,
                    Start {
                        place,
                        kind: *kind,
                        content: *content,
                    },
                ),
                Told::Answered { operation } => self.note_answer(*operation, place),
                _ => {}
            }
        }
    }

    fn note_start(&mut self, operation: u16, start: Start) {
        match self.operations.get_mut(usize::from(operation)) {
            Some(known) if known.started.is_none() => known.started = Some(start),
            _ => self.odd = Some(operation),
        }
    }

    fn note_answer(&mut self, operation: u16, place: usize) {
        match self.operations.get_mut(usize::from(operation)) {
            Some(known) if known.started.is_some() && known.answered.is_none() => {
                known.answered = Some(place)
            }
            _ => self.odd = Some(operation),
        }
    }

    // Counted are the answered reads and writes, and each write whose tag an answered read gave.
    fn count(&mut self) {
        for place in 0..self.operations.len() {
            let is_counted = match self.operations.get(place) {
                Some(known) => known.answered.is_some() || self.is_returned(known),
                None => false,
            };
            if let Some(known) = self.operations.get_mut(place) {
                known.counted = is_counted;
            }
        }
    }

    fn is_returned(&self, write: &Known) -> bool {
        write.is_write()
            && self.operations.iter().any(|read| read.is_answered_read()
                && read.tag() == write.tag())
    }

    fn rank(&mut self) {
        for place in 0..self.operations.len() {
            let rank = match self.operations.get(place) {
                Some(known) => self.count_ahead_of(known),
                None => 0,
            };
            if let Some(known) = self.operations.get_mut(place) {
                known.rank = rank;
            }
        }
    }

    fn count_ahead_of(&self, known: &Known) -> usize {
        self.operations
            .iter()
            .filter(|other| other.counted && is_ahead(other, known))
            .count()
    }
}
