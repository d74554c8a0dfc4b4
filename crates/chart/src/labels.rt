//! The words of a chart. None has a semicolon, a number sign or a quote, which need not be text in a diagram.
use crate::arrow::Arrow;
use calls::Call;
use content::Content;
use fault::Fault;
use frame::Tag;
use std::fmt;
use std::fmt::Display;
use std::marker::PhantomData;
use tables::{Members, OperationKind, SheetCopy};

/// Members, one behind the other.
#[derive(Clone, Copy)]
pub(crate) struct Listed(pub Members);

impl fmt::Display for Listed {
    fn fmt<W: fmt::Write>(&self, f: &mut fmt::Formatter<W>) -> fmt::Result {
        if self.0.as_slice().is_empty() {
            return write!(f, "none");
        }
        for (place, member) in self.0.as_slice().iter().enumerate() {
            if place > 0 {
                write!(f, ", ")?;
            }
            write!(f, "{member}")?;
        }
        Ok(())
    }
}

/// A tag: its version, and its node.
#[derive(Clone, Copy)]
pub(crate) struct Tagged(pub Tag);

impl fmt::Display for Tagged {
    fn fmt<W: fmt::Write>(&self, f: &mut fmt::Formatter<W>) -> fmt::Result {
        write!(f, "tag {} {}", self.0.version, self.0.node)
    }
}

/// The content of a copy, in the words of its kind.
#[derive(Drop)]
pub(crate) struct ContentOf<C: Content> {
    pub copy: SheetCopy,
    pub kind: PhantomData<C>,
}

impl<C: Content + Display> fmt::Display for ContentOf<C> {
    fn fmt<W: fmt::Write>(&self, f: &mut fmt::Formatter<W>) -> fmt::Result {
        match C::from_bytes(&self.copy.content[..C::width()]) {
            Some(content) => write!(f, "{content}"),
            None => write!(f, "bytes of no content"),
        }
    }
}

/// What a frame says, but for its sender and receiver, its content and its members.
impl fmt::Display for Arrow {
    fn fmt<W: fmt::Write>(&self, f: &mut fmt::Formatter<W>) -> fmt::Result {
        write!(f, "{}", self.kind)?;
        if let Some(operation) = self.operation {
            write!(f, ", operation {operation}")?;
        } else {
            write!(f, ", configuration {}", self.head.number)?;
        }
        if let Some(tag) = self.tag {
            write!(f, ", {}", Tagged(tag))?;
        }
        Ok(())
    }
}

/// A call by its name, with the numbers that tell which it is.
#[derive(Drop)]
pub(crate) struct Named<'a, C: Content>(pub &'a Call<C>);

impl<C: Content> fmt::Display for Named<'_, C> {
    fn fmt<W: fmt::Write>(&self, f: &mut fmt::Formatter<W>) -> fmt::Result {
        match self.0 {
            Call::Open { .. } => write!(f, "open"),
            Call::Read { node } => write!(f, "read at node {node}"),
            Call::Write { node, .. } => write!(f, "write at node {node}"),
            Call::Regroup { node, members } => {
                write!(f, "regroup at node {node} to members {}", Listed(*members))
            }
            Call::Propose { operation } => write!(f, "propose operation {operation}"),
            Call::Settle { node } => write!(f, "settle at node {node}"),
            Call::Work {
                number,
                step,
                ballot,
                set,
            } => write!(
                f,
                "work under number {number}, step {step}, ballot {ballot}, set {set}"
            ),
            Call::Deliver { slot } => write!(f, "deliver slot {slot}"),
            Call::Lose { slot } => write!(f, "lose slot {slot}"),
            Call::GiveUp { operation } => write!(f, "give up operation {operation}"),
            Call::Stop { node } => write!(f, "stop node {node}"),
            Call::Look { operation } => write!(f, "look at operation {operation}"),
        }
    }
}

/// The ground of a refusal. Two have an apostrophe in their words, and are told without it.
#[derive(Clone, Copy)]
pub(crate) struct Ground(pub Fault);

impl fmt::Display for Ground {
    fn fmt<W: fmt::Write>(&self, f: &mut fmt::Formatter<W>) -> fmt::Result {
        let number = self.0.number();
        match self.0 {
            Fault::NoDecision => write!(f, "{number}: no decision under the number of the node"),
            Fault::OtherNumber => {
                write!(
                    f,
                    "{number}: node no longer under the number of the operation"
                )
            }
            fault => write!(f, "{fault}"),
        }
    }
}

/// What an answered operation did.
pub(crate) fn did(kind: OperationKind) -> &'static str {
    match kind {
        OperationKind::Read => "read",
        OperationKind::Write => "wrote",
        OperationKind::Regroup => "regrouped",
    }
}
