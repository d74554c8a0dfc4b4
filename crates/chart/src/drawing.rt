//! A chart's lines in the grammar of mermaid's sequence diagrams.
use crate::arrow::Arrow;
use crate::event::{Change, Event};
use crate::labels::{ContentOf, Ground, Listed, Named, Tagged, did};
use crate::step::{Decision, Step};
use content::Content;
use fault::Fault;
use std::fmt;
use std::fmt::Display;
use std::marker::PhantomData;
use tables::{OperationKind, OperationRow, SheetCopy};

/// How a diagram begins: its kind, and who takes part in it. These are the nodes in the order of their numbers, then the chooser if something is asked of it. Where no floor was opened, and so there are no nodes, the floor itself takes part.
#[derive(Clone, Copy)]
pub struct Participants {
    pub nodes: u8,
    pub chooser: bool,
}

/// The lines of a step, none where it shows nothing. Each is ended.
#[derive(Drop)]
pub struct Drawing<'a, C: Content> {
    pub step: &'a Step<'a, C>,
    /// How many nodes take part.
    pub nodes: u8,
}

impl fmt::Display for Participants {
    fn fmt<W: fmt::Write>(&self, f: &mut fmt::Formatter<W>) -> fmt::Result {
        writeln!(f, "sequenceDiagram")?;
        for node in 1..=self.nodes {
            writeln!(f, "    participant N{node} as node {node}")?;
        }
        if self.nodes == 0 {
            writeln!(f, "    participant floor")?;
        }
        if self.chooser {
            writeln!(f, "    participant chooser")?;
        }
        Ok(())
    }
}

impl<C: Content + Display> fmt::Display for Drawing<'_, C> {
    fn fmt<W: fmt::Write>(&self, f: &mut fmt::Formatter<W>) -> fmt::Result {
        self.draw_event(f)?;
        match &self.step.decision {
            Some(decision) => draw_decision(f, decision),
            None => Ok(()),
        }
    }
}

// Over whom a note stands.
#[derive(Clone, Copy)]
enum Place {
    Node(u8),
    /// all nodes, of which there are so many
    All(u8),
    Chooser,
}

impl fmt::Display for Place {
    fn fmt<W: fmt::Write>(&self, f: &mut fmt::Formatter<W>) -> fmt::Result {
        match self {
            Place::Node(node) => write!(f, "    Note over N{node}: "),
            Place::All(0) => write!(f, "    Note over floor: "),
            Place::All(1) => write!(f, "    Note over N1: "),
            Place::All(nodes) => write!(f, "    Note over N1,N{nodes}: "),
            Place::Chooser => write!(f, "    Note over chooser: "),
        }
    }
}

impl<C: Content + Display> Drawing<'_, C> {
    fn draw_event<W: fmt::Write>(&self, f: &mut fmt::Formatter<W>) -> fmt::Result {
        match self.step.event {
            Event::Opened { members, copy } => writeln!(
                f,
                "{}the sheet opens with {}, {}<br/>configuration 0, members {}",
                Place::All(self.nodes),
                held::<C>(copy),
                Tagged(copy.tag),
                Listed(members)
            ),
            Event::Started { operation, row } => draw_start::<C, W>(f, operation, &row),
            Event::Proposed {
                operation,
                proposal,
                row,
            } => draw_proposal(f, operation, proposal, &row),
            Event::Worked {
                number,
                step,
                ballot,
                set,
            } => writeln!(
                f,
                "{}work under number {number}<br/>step {step}, ballot {ballot}, set {set}",
                Place::Chooser
            ),
            Event::GivenUp { operation, row } => writeln!(
                f,
                "{}operation {operation} is given up",
                Place::Node(row.node)
            ),
            Event::Stopped { node } => { writeln!(f, "{}node {node} stops", Place::Node(node)) }
            Event::Refused { node, fault } => self.draw_refusal(f, node, fault),
            Event::Unseen => Ok(()),
            _ => self.draw_frame(f),
        }
    }

    // What has to do with frames.
    fn draw_frame<W: fmt::Write>(&self, f: &mut fmt::Formatter<W>) -> fmt::Result {
        match self.step.event {
            Event::Settled {
                node,
                number,
                frames,
            } => writeln!(
                f,
                "{}node {node} settles what follows configuration {number}<br/>{frames} updates are sent",
                Place::Node(node)
            ),
            Event::Ignored(arrow) => draw_arrow(f, &arrow, "-->>", " (ignored)"),
            Event::Handled { arrow, change } => {
                draw_arrow(f, &arrow, "->>", "")?;
                draw_change(f, arrow.head.receiver, change)
            }
            Event::Answered {
                arrow,
                operation,
                row,
            } => draw_answer::<C, W>(f, &arrow, operation, &row),
            Event::Lost {
                arrow,
                repeat: true,
            } => draw_arrow(f, &arrow, "--x", " (repeat lost)"),
            Event::Lost {
                arrow,
                repeat: false,
            } => draw_arrow(f, &arrow, "-x", " (lost)"),
            _ => Ok(()),
        }
    }

    // A note at the node that the call speaks of, or over all where it speaks of none that takes part.
    fn draw_refusal<W: fmt::Write>(
        &self,
        f: &mut fmt::Formatter<W>,
        node: Option<u8>,
        fault: Fault,
    ) -> fmt::Result {
        let place = match node {
            Some(node) if (1..=self.nodes).contains(&node) => Place::Node(node),
            _ => Place::All(self.nodes),
        };
        writeln!(
            f,
            "{place}refused: {}<br/>ground {}",
            Named(self.step.call),
            Ground(fault)
        )
    }
}

fn held<C: Content>(copy: SheetCopy) -> ContentOf<C> {
    ContentOf {
        copy,
        kind: PhantomData,
    }
}

fn draw_arrow<W: fmt::Write>(
    f: &mut fmt::Formatter<W>,
    arrow: &Arrow,
    line: &str,
    remark: &str,
) -> fmt::Result {
    let sender = arrow.head.sender;
    let receiver = arrow.head.receiver;
    writeln!(f, "    N{sender}{line}N{receiver}: {arrow}{remark}")
}

fn draw_start<C: Content + Display, W: fmt::Write>(
    f: &mut fmt::Formatter<W>,
    operation: u16,
    row: &OperationRow,
) -> fmt::Result {
    let place = Place::Node(row.node);
    match row.kind {
        OperationKind::Read => writeln!(f, "{place}operation {operation} starts: read"),
        OperationKind::Write => writeln!(
            f,
            "{place}operation {operation} starts: write {}<br/>{}",
            held::<C>(row.copy),
            Tagged(row.copy.tag)
        ),
        OperationKind::Regroup => writeln!(
            f,
            "{place}operation {operation} starts: regroup to members {}<br/>node {} freezes configuration {}",
            Listed(row.members),
            row.node,
            row.number
        ),
    }
}

fn draw_proposal<W: fmt::Write>(
    f: &mut fmt::Formatter<W>,
    operation: u16,
    proposal: u16,
    row: &OperationRow,
) -> fmt::Result {
    writeln!(
        f,
        "{}operation {operation} becomes proposal {proposal}<br/>members {}, {}",
        Place::Node(row.node),
        Listed(row.members),
        Tagged(row.copy.tag)
    )
}

fn draw_change<W: fmt::Write>(f: &mut fmt::Formatter<W>, node: u8, change: Change) -> fmt::Result {
    let place = Place::Node(node);
    match change {
        Change::Nothing => Ok(()),
        Change::Froze { number } => {
            writeln!(f, "{place}node {node} freezes configuration {number}")
        }
        Change::Joined(configuration) => writeln!(
            f,
            "{place}node {node} joins configuration {}<br/>members {}, opening {}",
            configuration.number,
            Listed(configuration.members),
            Tagged(configuration.opening)
        ),
    }
}

// The frame that answers an operation and what it is answered, on a ground of their own.
fn draw_answer<C: Content + Display, W: fmt::Write>(
    f: &mut fmt::Formatter<W>,
    arrow: &Arrow,
    operation: u16,
    row: &OperationRow,
) -> fmt::Result {
    writeln!(f, "    rect rgb(214, 240, 214)")?;
    draw_arrow(f, arrow, "->>", "")?;
    writeln!(
        f,
        "{}operation {operation} is answered: {} {}<br/>{}",
        Place::Node(row.node),
        did(row.kind),
        held::<C>(row.copy),
        Tagged(row.copy.tag)
    )?;
    writeln!(f, "    end")
}

fn draw_decision<W: fmt::Write>(f: &mut fmt::Formatter<W>, decision: &Decision) -> fmt::Result {
    writeln!(
        f,
        "{}decided under number {}: proposal {}<br/>members {}, {}",
        Place::Chooser,
        decision.number,
        decision.proposal,
        Listed(decision.row.members),
        Tagged(decision.row.copy.tag)
    )
}
