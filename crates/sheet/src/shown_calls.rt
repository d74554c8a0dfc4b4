//! How calls and their answers are printed.
use crate::shown_rows::in_kind;
use calls::{Answer, Call, Turn};
use content::Content;
use script::Numbers;
use std::fmt;
use std::fmt::Display;
use tables::OperationRow;

/// A call with what it was answered.
#[derive(Drop)]
pub(crate) struct ShownTurn<'a, C: Content>(pub &'a Turn<C>);

impl<C: Content + Display> fmt::Display for ShownTurn<'_, C> {
    fn fmt<W: fmt::Write>(&self, f: &mut fmt::Formatter<W>) -> fmt::Result {
        let call = ShownCall(&self.0.call);
        match &self.0.answer {
            Some(Ok(Answer::Number(number))) => write!(f, "{call} -> {number}"),
            Some(Ok(Answer::Row(row))) => write!(
                f,
                "{call} -> {}",
                in_kind::<C, OperationRow>(row)
            ),
            Some(Err(fault)) => write!(f, "{call} -> refused {fault}"),
            None => write!(f, "{call} -> not made"),
        }
    }
}

// A call, as a schedule has it.
#[derive(Drop)]
struct ShownCall<'a, C: Content>(&'a Call<C>);

impl<C: Content + Display> fmt::Display for ShownCall<'_, C> {
    fn fmt<W: fmt::Write>(&self, f: &mut fmt::Formatter<W>) -> fmt::Result {
        match self.0 {
            Call::Open {
                count,
                members,
                content,
            } => {
                let members = Numbers(members.as_slice());
                write!(f, "open {count} members{members} content {content}")
            }
            Call::Read { node } => write!(f, "read {node}"),
            Call::Write { node, content } => write!(f, "write {node} content {content}"),
            Call::Regroup { node, members } => {
                write!(f, "regroup {node} members{}", Numbers(members.as_slice()))
            }
            Call::Propose { operation } => write!(f, "propose {operation}"),
            Call::Settle { node } => write!(f, "settle {node}"),
            Call::Work {
                number,
                step,
                ballot,
                set,
            } => write!(f, "work {number} {step} {ballot} {set}"),
            Call::Deliver { slot } => write!(f, "deliver {slot}"),
            Call::Lose { slot } => write!(f, "lose {slot}"),
            Call::GiveUp { operation } => write!(f, "give up {operation}"),
            Call::Stop { node } => write!(f, "stop {node}"),
            Call::Look { operation } => write!(f, "look {operation}"),
        }
    }
}
