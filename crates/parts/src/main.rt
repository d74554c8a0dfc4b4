//! Answers requests about contents, quorum rules, frames and choosers, a line each on standard input.
#![tactic(auto)]

ghost use Rattle.std.specs.Prelude.{◌≤◌};
ghost use Rattle.quorum.specs.Limits.{largest_group};

mod choosers;
mod frames;
mod request;
mod text;

use chooser::Turn;
use choosers::{show_ledger, show_synod, write_down};
use content::{Content, read_back};
use curve::Curve;
use frames::{show_frame, show_puts};
use quorum::{LARGEST_GROUP, Majority, QuorumRule, Weighted};
use quote::Quote;
use refusal::Refusal;
use request::{Request, parse};
use std::fmt::Display;
use std::io;
use text::{Hexadecimal, Places};

fn main(rt: HostRuntime) -> io::Result<()> {
    let mut turns = Vec::new(rt.alloc());
    for line in rt.lines(rt.alloc()) {
        let line = line?;
        println!(rt; "{line}")?;
        match parse(&line) {
            Ok(Some(request)) => answer(&rt, request, &mut turns)?,
            Ok(None) => {}
            Err(error) => println!(rt; "    {error}")?,
        }
    }
    Ok(())
}

// Answers the request; the turns are the calls written down since a chooser last played them.
fn answer(rt: &HostRuntime, request: Request, turns: &mut Vec<Turn>) -> io::Result<()> {
    match request {
        Request::Quote { bid, ask } => show_content(rt, Quote::new(bid, ask)),
        Request::QuoteBytes { bytes } => show_read(rt, Quote::from_bytes(&bytes)),
        Request::Curve { rates } => show_curve(rt, rates),
        Request::Majority { size } => show_group(rt, &Majority, size),
        Request::Weighted { weights, size } => {
            with_weights(rt, weights, |rule| show_group(rt, rule, size))
        }
        Request::Put {
            bid,
            ask,
            sender,
            receivers,
        } => show_puts(rt, Quote::new(bid, ask), sender, receivers),
        Request::Frame { bytes } => show_frame(rt, &bytes),
        Request::Call(call) => write_down(turns, call),
        Request::Ledger => show_ledger(rt, turns),
        Request::Synod { weights: None } => show_synod(rt, &Majority, turns),
        Request::Synod {
            weights: Some(weights),
        } => with_weights(rt, weights, |rule| show_synod(rt, rule, turns)),
    }
}

// The bytes of a content that was made, and what they read back as; or why none was made.
fn show_content<C: Content + Display>(
    rt: &HostRuntime,
    made: Result<C, Refusal>,
) -> io::Result<()> {
    match made {
        Ok(content) => {
            let bytes = content.to_bytes();
            println!(rt; "    bytes {}", Hexadecimal(&bytes[..C::width()]))?;
            show_read(rt, read_back(&content))
        }
        Err(refusal) => println!(rt; "    refused {refusal}"),
    }
}

fn show_curve(rt: &HostRuntime, rates: [i32; 4]) -> io::Result<()> {
    let [first, second, third, fourth] = rates;
    show_content(rt, Ok(Curve::new(first, second, third, fourth)))
}

// What bytes were read as.
fn show_read<C: Content + Display>(rt: &HostRuntime, content: Option<C>) -> io::Result<()> {
    match content {
        Some(content) => println!(rt; "    reads {content}"),
        None => println!(rt; "    none of its own"),
    }
}

// Goes on with the rule by these weights; or says why there is none.
fn with_weights<F: FnOnce(&Weighted) -> io::Result<()>>(
    rt: &HostRuntime,
    weights: [u8; LARGEST_GROUP],
    go_on: F,
) -> io::Result<()>
    requires callable { F.IsAlwaysCallable go_on }
{
    match Weighted::new(weights) {
        Ok(rule) => go_on(&rule),
        Err(refusal) => println!(rt; "    refused {refusal}"),
    }
}

// Which sets of acknowledgements win in a group of this size, and which lose.
fn show_group<Q: QuorumRule>(rt: &HostRuntime, rule: &Q, size: u8) -> io::Result<()> {
    if !(1..=LARGEST_GROUP).contains(&usize::from(size)) {
        return println!(rt; "    no group has this size");
    }
    print!(rt; "    wins ")?;
    show_sets(rt, size, |set| rule.wins(size, set))?;
    print!(rt; "    loses")?;
    show_sets(rt, size, |set| !rule.wins(size, set))
}

// The nonempty sets of places below the size that are asked for, on a line.
fn show_sets<F: Fn(u8) -> bool>(rt: &HostRuntime, size: u8, asked: F) -> io::Result<()>
    requires small { size ≤ largest_group }
    requires callable { F.IsAlwaysCallable asked }
{
    for set in (1..1u8 << size).filter(|set| asked(*set)) {
        print!(rt; " {}", Places(set))?;
    }
    println!(rt; "")
}
