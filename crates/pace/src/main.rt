//! Makes the same calls many times, and prints how many they were, a digest of their answers, and how long they took.
#![tactic(auto)]

mod digest;
mod lane;
mod meter;
mod phase;
mod rounds;
mod workload;

use ledger::Ledger;
use meter::{Meter, clock_cost};
use rounds::{Fresh, Lanes};
use std::{env, io};
use synod::Synod;
use workload::{Calls, GROUPS, TABLES, Workload};

// How many rounds each workload has where no argument says it.
const FEW: u32 = 1;

// How a workload is played.
#[derive(Clone, Copy, Debug, PartialEq, Eq)]
struct Pace {
    rounds: u32,
    /// What the clock takes, where times are to be printed.
    clock: Option<u64>,
}

fn main(rt: HostRuntime) -> io::Result<()> {
    let pace = asked_pace(&rt)?;
    for calls in Calls::ALL {
        for members in GROUPS {
            play_on_tables(&rt, pace, calls, members)?;
        }
    }
    Ok(())
}

// The first argument says how many rounds; then times are printed.
fn asked_pace(rt: &HostRuntime) -> io::Result<Pace> {
    let mut arguments = env::args(rt)?;
    let _program = arguments.next();
    let asked = match arguments.next() {
        Some(word) => word.as_str().parse::<u32>().ok(),
        None => None,
    };
    match asked {
        Some(rounds) => Ok(Pace {
            rounds,
            clock: Some(clock_cost(rt)?),
        }),
        None => Ok(Pace {
            rounds: FEW,
            clock: None,
        }),
    }
}

fn play_on_tables(rt: &HostRuntime, pace: Pace, calls: Calls, members: u8) -> io::Result<()> {
    for (slots, rows) in TABLES {
        let workload = Workload {
            calls,
            members,
            slots,
            rows,
        };
        match calls {
            Calls::HandOversBySynod => play::<Synod>(rt, pace, workload)?,
            _ => play::<Ledger>(rt, pace, workload)?,
        }
    }
    Ok(())
}

// Plays the rounds of a workload, and prints what came of them.
fn play<S: Fresh>(rt: &HostRuntime, pace: Pace, workload: Workload) -> io::Result<()> {
    let mut lanes = Lanes::<S>::new(rt.alloc(), workload)?;
    let mut meter = Meter::new(pace.clock);
    for _ in 0..workload.rounds(pace.rounds) {
        lanes.round(rt, &mut meter)?;
    }
    let calls = meter.calls();
    let digest = lanes.digest();
    println!(rt; "{workload}: {calls} calls, digest {digest}")?;
    meter.print(rt)
}
