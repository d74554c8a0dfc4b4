//! How many calls of each kind there were, and how long they took.
use crate::phase::{CallKind, KINDS};
use std::io;
use std::time::{Duration, Instant};

// What is known of the calls of one kind.
#[derive(Clone, Copy, Debug, PartialEq, Eq)]
struct Tally {
    calls: u64,
    nanoseconds: u64,
}

/// The calls of all kinds.
#[derive(Clone, Copy, Debug, PartialEq, Eq)]
pub(crate) struct Meter {
    /// What reading the clock takes, which is left out of all times; none where no time is taken.
    clock: Option<u64>,
    tallies: [Tally; KINDS],
}

impl Meter {
    pub(crate) fn new(clock: Option<u64>) -> Meter {
        let none = Tally {
            calls: 0,
            nanoseconds: 0,
        };
        Meter {
            clock,
            tallies: [none; KINDS],
        }
    }

    /// When the next calls begin, where times are taken.
    pub(crate) fn start(&self, rt: &HostRuntime) -> io::Result<Option<Instant>> {
        match self.clock {
            Some(_) => Ok(Some(Instant::now(rt)?)),
            None => Ok(None),
        }
    }

    /// So many calls more, and the time since their start.
    pub(crate) fn stop(
        &mut self,
        rt: &HostRuntime,
        kind: CallKind,
        calls: u64,
        start: Option<Instant>,
    ) -> io::Result<()> {
        let took = match start {
            Some(start) => nanoseconds(start.elapsed(rt)?),
            None => 0,
        };
        let nanoseconds = took.saturating_sub(self.clock.unwrap_or(0));
        if let Some(tally) = self.tallies.get_mut(kind as usize) {
            tally.calls = tally.calls.saturating_add(calls);
            tally.nanoseconds = tally.nanoseconds.saturating_add(nanoseconds);
        }
        Ok(())
    }

    /// How many calls there were.
    pub(crate) fn calls(&self) -> u64 {
        let mut calls = 0u64;
        for tally in self.tallies {
            calls = calls.saturating_add(tally.calls);
        }
        calls
    }

    /// Prints a line for each kind of which there were calls, where times were taken.
    pub(crate) fn print(&self, rt: &HostRuntime) -> io::Result<()> {
        if self.clock.is_none() {
            return Ok(());
        }
        for (kind, tally) in CallKind::ALL.iter().zip(self.tallies.iter()) {
            print_tally(rt, *kind, tally)?;
        }
        Ok(())
    }
}

fn print_tally(rt: &HostRuntime, kind: CallKind, tally: &Tally) -> io::Result<()> {
    if tally.calls == 0 {
        return Ok(());
    }
    let tenths = tally.nanoseconds.saturating_mul(10) / tally.calls;
    println!(rt;
        "    {kind}: {} calls, {}.{} ns a call",
        tally.calls,
        tenths / 10,
        tenths % 10
    )
}

fn nanoseconds(took: Duration) -> u64 {
    took.as_secs()
        .saturating_mul(1_000_000_000)
        .saturating_add(u64::from(took.subsec_nanos()))
}

// How often the clock is read to know what that takes.
const READINGS: u32 = 10_000;

/// What it takes at least to read the clock twice, in nanoseconds.
pub(crate) fn clock_cost(rt: &HostRuntime) -> io::Result<u64> {
    let mut least = u64::MAX;
    for _ in 0..READINGS {
        let start = Instant::now(rt)?;
        least = least.min(nanoseconds(start.elapsed(rt)?));
    }
    Ok(least)
}
