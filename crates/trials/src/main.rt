//! Plays many pseudo-random schedules, and checks after each that what was answered keeps the order law.
//! With the arguments SEED COUNT it plays that many from that seed on; without, a fixed run.
#![tactic(auto)]

mod campaign;
mod check;
mod choosing;
mod damage;
mod drawer;
mod drawn;
mod find;
mod history;
mod host_floor;
mod known;
mod mood;
mod on_purpose;
mod parsing;
mod playing;
mod random;
mod setting;
mod tally;

use check::{breach_of, check};
use damage::Damage;
use history::History;
use known::Knowledge;
use playing::play;
use random::Random;
use std::alloc::{AllocError, Global};
use std::process::ExitCode;
use std::{env, io};
use tally::Tally;

// What is played without arguments.
const FIXED: Trials = Trials {
    seed: 1,
    count: 4000,
};

// Which schedules are played.
#[derive(Clone, Copy)]
struct Trials {
    seed: u64,
    count: u64,
}

fn main(rt: HostRuntime) -> io::Result<ExitCode> {
    let Some(trials) = asked_for(&rt)? else {
        println!(rt; "expected no arguments, or SEED COUNT, two numbers")?;
        return Ok(ExitCode::FAILURE);
    };
    let mut tally = Tally::new();
    for place in 0..trials.count {
        try_schedule(&rt, trials.seed.wrapping_add(place), &mut tally)?;
    }
    tally.print(&rt)?;
    if tally.is_well() {
        Ok(ExitCode::SUCCESS)
    } else {
        Ok(ExitCode::FAILURE)
    }
}

// What the arguments ask for; none if they cannot be read.
fn asked_for(rt: &HostRuntime) -> io::Result<Option<Trials>> {
    let mut arguments = env::args(rt)?.skip(1);
    let Some(seed) = arguments.next() else {
        return Ok(Some(FIXED));
    };
    let Some(count) = arguments.next() else {
        return Ok(None);
    };
    match (seed.parse::<u64>(), count.parse::<u64>()) {
        (Ok(seed), Ok(count)) => Ok(Some(Trials { seed, count })),
        _ => Ok(None),
    }
}

// Plays a schedule, checks it, and lets the check find what is damaged in copies of its history.
fn try_schedule(rt: &HostRuntime, seed: u64, tally: &mut Tally) -> io::Result<()> {
    let history = play(rt.alloc(), seed, tally)?;
    let knowledge = Knowledge::of(rt.alloc(), &history)?;
    tally.count_schedule(&history, &knowledge);
    match check(rt.alloc(), &history)? {
        None => try_damages(rt.alloc(), seed, &history, &knowledge, tally)?,
        Some(breach) => {
            tally.broken = tally.broken.saturating_add(1);
            println!(rt; "seed {seed}: {breach}")?;
        }
    }
    Ok(())
}

// Makes each kind of damage to a copy of the history, where it can be made.
fn try_damages(
    alloc: Global,
    seed: u64,
    history: &History,
    knowledge: &Knowledge,
    tally: &mut Tally,
) -> Result<(), AllocError> {
    let mut random = Random::new(!seed);
    for damage in Damage::ALL {
        let mut copy = history.clone()?;
        if damage.make(&mut copy, knowledge, &mut random).is_some() {
            let damaged = Knowledge::of(alloc, &copy)?;
            let breach = breach_of(damage.part(), &copy, &damaged);
            tally.count_damage(damage, breach.is_some());
        }
    }
    Ok(())
}
