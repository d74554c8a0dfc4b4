//! Calls on choosers: written down, made all at once, and shown with what they decide.
use crate::text::Places;
use ballots::LAST_BALLOT;
use chooser::{Call, Chooser, ChooserRefusal, NUMBERS, Turn};
use ledger::Ledger;
use quorum::QuorumRule;
use std::{fmt, io};
use synod::Synod;

// The steps of work that have a name.
const STEPS: [(u8, &str); 4] = [(1, "promise"), (2, "fix"), (3, "accept"), (4, "count")];

/// The step of this name.
pub(crate) fn step_of(name: &str) -> Option<u8> {
    let (step, _) = STEPS.into_iter().find(|(_, word)| *word == name)?;
    Some(step)
}

fn name_of(step: u8) -> Option<&'static str> {
    let (_, name) = STEPS.into_iter().find(|(number, _)| *number == step)?;
    Some(name)
}

/// Writes down a call that is to be made.
pub(crate) fn write_down(turns: &mut Vec<Turn>, call: Call) -> io::Result<()> {
    turns.push(Turn { call, answer: None })?;
    Ok(())
}

/// Makes the calls on a new ledger, shows what comes of them, and forgets them.
pub(crate) fn show_ledger(rt: &HostRuntime, turns: &mut Vec<Turn>) -> io::Result<()> {
    let mut ledger = Ledger::new();
    chooser::play(&mut ledger, turns);
    show_turns(rt, turns)?;
    turns.clear();
    show_decisions(rt, &ledger)
}

/// The same on a new synod by this rule.
pub(crate) fn show_synod<Q: QuorumRule>(
    rt: &HostRuntime,
    rule: &Q,
    turns: &mut Vec<Turn>,
) -> io::Result<()> {
    let mut synod = Synod::new(rule);
    synod::play(&mut synod, turns);
    show_turns(rt, turns)?;
    turns.clear();
    for number in 0..NUMBERS {
        show_ballots(rt, &synod, number)?;
    }
    show_decisions(rt, &synod)
}

// Each call with its answer.
fn show_turns(rt: &HostRuntime, turns: &[Turn]) -> io::Result<()> {
    for turn in turns {
        println!(rt;
            "    {}: {}",
            ShownCall(turn.call),
            ShownAnswer(turn.answer)
        )?;
    }
    Ok(())
}

// The value of each ballot of the number that is fixed.
fn show_ballots(rt: &HostRuntime, synod: &Synod, number: u8) -> io::Result<()> {
    for ballot in 1..=LAST_BALLOT {
        if let Some(value) = synod.value(number, ballot) {
            println!(rt; "    number {number}, ballot {ballot}: {value}")?;
        }
    }
    Ok(())
}

// What is decided under each number.
fn show_decisions<S: Chooser>(rt: &HostRuntime, chooser: &S) -> io::Result<()> {
    let mut decided = false;
    for number in 0..NUMBERS {
        if let Some(value) = chooser.decision(number) {
            println!(rt; "    number {number} decided: {value}")?;
            decided = true;
        }
    }
    if !decided {
        println!(rt; "    nothing is decided")?;
    }
    Ok(())
}

// A call, as a line writes it down.
#[derive(Clone, Copy)]
struct ShownCall(Call);

impl fmt::Display for ShownCall {
    fn fmt<W: fmt::Write>(&self, f: &mut fmt::Formatter<W>) -> fmt::Result {
        match self.0 {
            Call::Offer { number, value } => write!(f, "offer {number} {value}"),
            Call::Work {
                number,
                step,
                ballot,
                set,
            } => match name_of(step).filter(|_| set != 0) {
                Some(name) => write!(f, "{name} {number} {ballot} by {}", Places(set)),
                None => write!(f, "work {number} {step} {ballot} {set}"),
            },
        }
    }
}

// What a call was answered.
#[derive(Clone, Copy)]
struct ShownAnswer(Option<Result<(), ChooserRefusal>>);

impl fmt::Display for ShownAnswer {
    fn fmt<W: fmt::Write>(&self, f: &mut fmt::Formatter<W>) -> fmt::Result {
        match self.0 {
            Some(Ok(())) => write!(f, "taken"),
            Some(Err(refusal)) => write!(f, "refused {refusal}"),
            None => write!(f, "not made"),
        }
    }
}
