//! How the records and rows of the host's tables are printed.
use content::Content;
use frame::Tag;
use script::{Hexadecimal, Numbers, Places};
use std::fmt;
use std::fmt::Display;
use std::marker::PhantomData;
use tables::{
    NodeRecord, OperationKind, OperationRow, OperationState, ProposalRow, SheetCopy, Status,
};

/// A record or a row, whose contents are printed in the words of a kind.
#[derive(Drop)]
pub(crate) struct InKind<'a, C: Content, T> {
    value: &'a T,
    kind: PhantomData<C>,
}

/// The value in the words of a kind.
pub(crate) fn in_kind<C: Content, T>(value: &T) -> InKind<'_, C, T> {
    InKind {
        value,
        kind: PhantomData,
    }
}

/// A copy's content. Bytes that are no content of the kind are printed as they are.
impl<C: Content + Display> fmt::Display for InKind<'_, C, SheetCopy> {
    fn fmt<W: fmt::Write>(&self, f: &mut fmt::Formatter<W>) -> fmt::Result {
        let bytes = &self.value.content[..C::width()];
        match C::from_bytes(bytes) {
            Some(content) => write!(f, " {content}"),
            None => write!(f, "{}", Hexadecimal(bytes)),
        }
    }
}

impl<C: Content + Display> fmt::Display for InKind<'_, C, OperationRow> {
    fn fmt<W: fmt::Write>(&self, f: &mut fmt::Formatter<W>) -> fmt::Result {
        let row = self.value;
        write!(
            f,
            "{} node {} configuration {} tag {} content{} members{} set{} state {} start {} answer {}",
            kind_word(row.kind),
            row.node,
            row.number,
            ShownTag(row.copy.tag),
            in_kind::<C, SheetCopy>(&row.copy),
            Numbers(row.members.as_slice()),
            Places(row.set),
            state_word(row.state),
            row.start,
            row.answer
        )
    }
}

impl<C: Content + Display> fmt::Display for InKind<'_, C, NodeRecord> {
    fn fmt<W: fmt::Write>(&self, f: &mut fmt::Formatter<W>) -> fmt::Result {
        let record = self.value;
        write!(
            f,
            "{} {} configuration {} members{} opening {} stored {}{} served {}{} newest {}",
            status_word(record.status),
            if record.stopped { "stopped" } else { "running" },
            record.configuration.number,
            Numbers(record.configuration.members.as_slice()),
            ShownTag(record.configuration.opening),
            ShownTag(record.stored.tag),
            in_kind::<C, SheetCopy>(&record.stored),
            ShownTag(record.served.tag),
            in_kind::<C, SheetCopy>(&record.served),
            record.newest
        )
    }
}

impl<C: Content + Display> fmt::Display for InKind<'_, C, ProposalRow> {
    fn fmt<W: fmt::Write>(&self, f: &mut fmt::Formatter<W>) -> fmt::Result {
        let row = self.value;
        write!(
            f,
            "configuration {} members{} tag {} content{}",
            row.number,
            Numbers(row.members.as_slice()),
            ShownTag(row.copy.tag),
            in_kind::<C, SheetCopy>(&row.copy)
        )
    }
}

// A tag: its version, and its node.
#[derive(Clone, Copy)]
struct ShownTag(Tag);

impl fmt::Display for ShownTag {
    fn fmt<W: fmt::Write>(&self, f: &mut fmt::Formatter<W>) -> fmt::Result {
        write!(f, "{} {}", self.0.version, self.0.node)
    }
}

fn kind_word(kind: OperationKind) -> &'static str {
    match kind {
        OperationKind::Read => "read",
        OperationKind::Write => "write",
        OperationKind::Regroup => "regroup",
    }
}

fn state_word(state: OperationState) -> &'static str {
    match state {
        OperationState::Open => "open",
        OperationState::Answered => "answered",
        OperationState::GivenUp => "given-up",
        OperationState::Proposed => "proposed",
    }
}

fn status_word(status: Status) -> &'static str {
    match status {
        Status::Idle => "idle",
        Status::Active => "active",
        Status::Frozen => "frozen",
    }
}
