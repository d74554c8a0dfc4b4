//! Calls of one kind that are timed together.
use std::fmt;
use tables::Members;

/// What a call does, and for a delivery also what is delivered.
#[derive(Clone, Copy, Debug, PartialEq, Eq)]
pub(crate) enum CallKind {
    Open,
    Read,
    DeliverGet,
    DeliverGetAck,
    Write,
    DeliverPut,
    DeliverPutAck,
    Lose,
    Regroup,
    DeliverFreeze,
    DeliverHeld,
    Propose,
    Work,
    Settle,
    DeliverUpdate,
}

/// How many kinds of call there are.
pub(crate) const KINDS: usize = 15;

impl CallKind {
    pub(crate) const ALL: [CallKind; KINDS] = [
        CallKind::Open,
        CallKind::Read,
        CallKind::DeliverGet,
        CallKind::DeliverGetAck,
        CallKind::Write,
        CallKind::DeliverPut,
        CallKind::DeliverPutAck,
        CallKind::Lose,
        CallKind::Regroup,
        CallKind::DeliverFreeze,
        CallKind::DeliverHeld,
        CallKind::Propose,
        CallKind::Work,
        CallKind::Settle,
        CallKind::DeliverUpdate,
    ];
}

impl fmt::Display for CallKind {
    fn fmt<W: fmt::Write>(&self, f: &mut fmt::Formatter<W>) -> fmt::Result {
        f.write_str(match self {
            CallKind::Open => "open",
            CallKind::Read => "read",
            CallKind::DeliverGet => "deliver get",
            CallKind::DeliverGetAck => "deliver get-ack",
            CallKind::Write => "write",
            CallKind::DeliverPut => "deliver put",
            CallKind::DeliverPutAck => "deliver put-ack",
            CallKind::Lose => "lose",
            CallKind::Regroup => "regroup",
            CallKind::DeliverFreeze => "deliver freeze",
            CallKind::DeliverHeld => "deliver held",
            CallKind::Propose => "propose",
            CallKind::Work => "work",
            CallKind::Settle => "settle",
            CallKind::DeliverUpdate => "deliver update",
        })
    }
}

/// The calls of a phase, which are made on each floor.
#[derive(Clone, Copy, Debug, PartialEq, Eq)]
pub(crate) enum Step {
    Open { members: Members },
    Read { node: u8, count: u16 },
    Write { node: u8, count: u16 },
    /// The slots from the first on, below the end.
    Deliver { first: u16, end: u16 },
    Lose { first: u16, end: u16 },
    Regroup { node: u8, members: Members },
    Propose { operation: u16 },
    /// The eight steps by which a synod decides.
    Work { number: u8 },
    Settle { node: u8 },
}

impl Step {
    /// How many calls it is on one floor.
    pub(crate) fn calls(&self) -> u64 {
        match self {
            Step::Read { count, .. } | Step::Write { count, .. } => u64::from(*count),
            Step::Deliver { first, end } | Step::Lose { first, end } => {
                u64::from(end.saturating_sub(*first))
            }
            Step::Work { .. } => 8,
            _ => 1,
        }
    }
}
