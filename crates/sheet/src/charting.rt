//! Charting a sheet.
use crate::parts::{Parts, tables_for};
use crate::watch::Watch;
use chart::{Drawing, Event, Participants, Step};
use chooser::Chooser;
use content::Content;
use floor::Floor;
use quorum::QuorumRule;
use script::Sheet;
use std::fmt::Display;
use std::io;

/// Makes the sheet's calls, and prints a diagram of what they did.
pub(crate) fn chart_sheet<C: Content + Display, Q: QuorumRule + Drop, S: Chooser + Drop>(
    rt: &HostRuntime,
    place: usize,
    parts: Parts<Q, S>,
    sheet: &Sheet<C>,
) -> io::Result<()> {
    let mut tables = tables_for(rt.alloc(), sheet)?;
    let Parts {
        rule,
        chooser,
        shadow,
    } = parts;
    let mut floor = Floor::new(rule, chooser);
    let mut watch = Watch::new(rt.alloc(), shadow, &tables)?;
    let mut steps = Vec::new(rt.alloc());
    for turn in sheet.turns.iter() {
        steps.push(watch.make(rt.alloc(), &mut floor, &mut tables, &turn.call)?)?;
    }
    println!(rt; "## Sheet {}: {}\n", place.saturating_add(1), sheet.header)?;
    println!(rt; "```mermaid")?;
    print_steps(rt, steps.as_slice(), floor.desk().node_count)?;
    println!(rt; "```\n")
}

fn print_steps<C: Content + Display>(
    rt: &HostRuntime,
    steps: &[Step<'_, C>],
    nodes: u8,
) -> io::Result<()> {
    let chooser = steps.iter().any(|step| asks_chooser(step));
    print!(rt; "{}", Participants { nodes, chooser })?;
    for step in steps {
        print!(rt; "{}", Drawing { step, nodes })?;
    }
    Ok(())
}

// Whether the step has something to show at the chooser.
fn asks_chooser<C: Content>(step: &Step<'_, C>) -> bool {
    step.decision.is_some() || matches!(step.event, Event::Worked { .. })
}
