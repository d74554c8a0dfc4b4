//! Rounds of calls: each opens floors anew and goes on until their rows are used.
use crate::digest::Digest;
use crate::lane::Lane;
use crate::meter::Meter;
use crate::phase::{CallKind, Step};
use crate::workload::{Calls, Workload};
use chooser::Chooser;
use ledger::Ledger;
use quorum::Majority;
use std::alloc::{AllocError, Global};
use std::io;
use synod::Synod;
use tables::Members;

// How many floors there are side by side, so that a phase has enough calls for the clock.
const LANES: usize = 4;

// How many hand-overs a floor can have.
const HAND_OVERS: u8 = 16;

/// A chooser that can be made with nothing offered.
pub(crate) trait Fresh: Chooser + Drop {
    fn fresh() -> Self;
}

impl Fresh for Ledger {
    fn fresh() -> Ledger {
        Ledger::new()
    }
}

impl Fresh for Synod {
    fn fresh() -> Synod {
        Synod::new(&Majority)
    }
}

/// Floors side by side, on which the same calls are made.
#[derive(Drop)]
pub(crate) struct Lanes<S: Fresh> {
    workload: Workload,
    lanes: Vec<Lane<S>>,
    digest: Digest,
}

impl<S: Fresh> Lanes<S> {
    pub(crate) fn new(alloc: Global, workload: Workload) -> Result<Lanes<S>, AllocError> {
        let mut lanes = Vec::new(alloc);
        for _ in 0..LANES {
            lanes.push(Lane::new(alloc, workload.lengths(), S::fresh())?)?;
        }
        Ok(Lanes {
            workload,
            lanes,
            digest: Digest::new(),
        })
    }

    /// What all calls answered and left.
    pub(crate) fn digest(&self) -> u64 {
        self.digest.value()
    }

    /// Opens the floors, and makes as many calls as their rows allow.
    pub(crate) fn round(&mut self, rt: &HostRuntime, meter: &mut Meter) -> io::Result<()> {
        for lane in self.lanes.iter_mut() {
            lane.renew(S::fresh());
        }
        let members = group(self.workload.members, 0);
        self.timed(rt, meter, CallKind::Open, Step::Open { members })?;
        match self.workload.calls {
            Calls::Reads => self.reads(rt, meter)?,
            Calls::Writes => self.writes(rt, meter)?,
            Calls::HandOversByLedger | Calls::HandOversBySynod => self.hand_overs(rt, meter)?,
        }
        self.add_tables();
        Ok(())
    }

    fn add_tables(&mut self) {
        for lane in self.lanes.iter() {
            lane.add_tables(&mut self.digest);
        }
    }

    // How many operations leave slots enough for their replies.
    fn at_once(&self) -> u16 {
        let each = 2 * u16::from(self.workload.members);
        self.workload.slots.checked_div(each).unwrap_or(0)
    }

    // How often so many operations find rows.
    fn cycles(&self) -> u16 {
        self.workload.rows.checked_div(self.at_once()).unwrap_or(0)
    }

    fn reads(&mut self, rt: &HostRuntime, meter: &mut Meter) -> io::Result<()> {
        let count = self.at_once();
        for _ in 0..self.cycles() {
            self.timed(rt, meter, CallKind::Read, Step::Read { node: 1, count })?;
            self.delivered(
                rt,
                meter,
                CallKind::DeliverGet,
                CallKind::DeliverGetAck,
                count,
            )?;
        }
        Ok(())
    }

    fn writes(&mut self, rt: &HostRuntime, meter: &mut Meter) -> io::Result<()> {
        let count = self.at_once();
        for _ in 0..self.cycles() {
            self.timed(rt, meter, CallKind::Write, Step::Write { node: 1, count })?;
            self.delivered(
                rt,
                meter,
                CallKind::DeliverPut,
                CallKind::DeliverPutAck,
                count,
            )?;
        }
        Ok(())
    }

    // Delivers the frames of so many operations and then the replies, and loses all.
    fn delivered(
        &mut self,
        rt: &HostRuntime,
        meter: &mut Meter,
        asked: CallKind,
        replied: CallKind,
        operations: u16,
    ) -> io::Result<()> {
        let sent = operations.saturating_mul(u16::from(self.workload.members));
        let end = sent.saturating_mul(2);
        let first = 0;
        self.timed(rt, meter, asked, Step::Deliver { first, end: sent })?;
        self.timed(rt, meter, replied, Step::Deliver { first: sent, end })?;
        self.timed(rt, meter, CallKind::Lose, Step::Lose { first, end })
    }

    fn hand_overs(&mut self, rt: &HostRuntime, meter: &mut Meter) -> io::Result<()> {
        for number in 0..HAND_OVERS {
            self.hand_over(rt, meter, number)?;
        }
        Ok(())
    }

    fn hand_over(&mut self, rt: &HostRuntime, meter: &mut Meter, number: u8) -> io::Result<()> {
        let node = group(self.workload.members, number).primary();
        let members = group(self.workload.members, number.saturating_add(1));
        let operation = u16::from(number);
        self.timed(
            rt,
            meter,
            CallKind::Regroup,
            Step::Regroup { node, members },
        )?;
        self.delivered(rt, meter, CallKind::DeliverFreeze, CallKind::DeliverHeld, 1)?;
        self.timed(rt, meter, CallKind::Propose, Step::Propose { operation })?;
        if self.workload.calls == Calls::HandOversBySynod {
            self.timed(rt, meter, CallKind::Work, Step::Work { number })?;
        }
        self.timed(rt, meter, CallKind::Settle, Step::Settle { node })?;
        let first = 0;
        let end = u16::from(self.workload.members);
        self.timed(
            rt,
            meter,
            CallKind::DeliverUpdate,
            Step::Deliver { first, end },
        )?;
        self.timed(rt, meter, CallKind::Lose, Step::Lose { first, end })
    }

    // Makes the calls of a step on each floor, and takes the time of all.
    fn timed(
        &mut self,
        rt: &HostRuntime,
        meter: &mut Meter,
        kind: CallKind,
        step: Step,
    ) -> io::Result<()> {
        let start = meter.start(rt)?;
        for lane in self.lanes.iter_mut() {
            lane.make(&step, &mut self.digest);
        }
        let calls = step.calls().saturating_mul(LANES as u64);
        meter.stop(rt, kind, calls, start)
    }
}

// The members under a number: two groups take turns.
fn group(size: u8, number: u8) -> Members {
    match (size, number % 2) {
        (3, 0) => Members::new(&[1, 2, 3]),
        (3, _) => Members::new(&[4, 5, 6]),
        (_, 0) => Members::new(&[1, 2, 3, 4, 5, 6, 7]),
        _ => Members::new(&[8, 9, 10, 11, 12, 13, 14]),
    }
}
