//! Plays a schedule that stands on standard input: makes all calls of its sheets, one after the other, and prints what they answer, or a chart of what they did.
#![tactic(auto)]

mod charting;
mod parts;
mod playing;
mod printing;
mod shown_calls;
mod shown_rows;
mod task;
mod watch;

use parts::perform;
use script::{AnySheet, LineFault, take_line};
use std::io;
use std::process::ExitCode;
use task::asked;

fn main(rt: HostRuntime) -> io::Result<ExitCode> {
    let Some(tasks) = asked(&rt)? else {
        eprintln!(rt; "usage: sheet [play] [chart]")?;
        return Ok(ExitCode::from(2));
    };
    let mut sheets = Vec::new(rt.alloc());
    if !read_lines(&rt, &mut sheets)? {
        return Ok(ExitCode::FAILURE);
    }
    for task in tasks {
        for (place, sheet) in sheets.iter_mut().enumerate() {
            perform(&rt, task, place, sheet)?;
        }
    }
    Ok(ExitCode::SUCCESS)
}

// Reads the schedule's lines, tells each that cannot be read, and says whether all can.
fn read_lines(rt: &HostRuntime, sheets: &mut Vec<AnySheet>) -> io::Result<bool> {
    let mut understood = true;
    let mut number = 0u64;
    for line in rt.lines(rt.alloc()) {
        let line = line?;
        number = number.saturating_add(1);
        match take_line(rt.alloc(), sheets, &line) {
            Ok(()) => {}
            Err(LineFault::Unread(expected)) => {
                println!(rt; "line {number}: expected {expected}")?;
                understood = false;
            }
            Err(LineFault::Memory(error)) => return Err(error.into()),
        }
    }
    if understood && sheets.is_empty() {
        let next = number.saturating_add(1);
        println!(rt; "line {next}: expected sheet KIND RULE CHOOSER")?;
        return Ok(false);
    }
    Ok(understood)
}
