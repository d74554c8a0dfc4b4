//! The workloads: which calls, with how many members, on tables of which lengths.
use host::TableLengths;
use std::fmt;

/// Which calls are made.
#[derive(Clone, Copy, Debug, PartialEq, Eq)]
pub(crate) enum Calls {
    Reads,
    Writes,
    HandOversByLedger,
    HandOversBySynod,
}

impl Calls {
    pub(crate) const ALL: [Calls; 4] = [
        Calls::Reads,
        Calls::Writes,
        Calls::HandOversByLedger,
        Calls::HandOversBySynod,
    ];
}

impl fmt::Display for Calls {
    fn fmt<W: fmt::Write>(&self, f: &mut fmt::Formatter<W>) -> fmt::Result {
        f.write_str(match self {
            Calls::Reads => "reads",
            Calls::Writes => "writes",
            Calls::HandOversByLedger => "hand-overs by ledger",
            Calls::HandOversBySynod => "hand-overs by synod",
        })
    }
}

/// How many members the groups have.
pub(crate) const GROUPS: [u8; 2] = [3, 7];

/// The slots and the operation rows of the tables.
pub(crate) const TABLES: [(u16, u16); 4] = [(16, 64), (64, 64), (256, 64), (256, 4096)];

/// Which calls are played, in groups and on tables of which size.
#[derive(Clone, Copy, Debug, PartialEq, Eq)]
pub(crate) struct Workload {
    pub calls: Calls,
    pub members: u8,
    pub slots: u16,
    pub rows: u16,
}

impl Workload {
    /// How many rounds make up so many rounds on tables of 64 rows. The rows make no hand-overs more.
    pub(crate) fn rounds(&self, asked: u32) -> u32 {
        match self.calls {
            Calls::Reads | Calls::Writes => {
                let tables = u32::from(self.rows / 64);
                asked.checked_div(tables).unwrap_or(asked).max(1)
            }
            Calls::HandOversByLedger | Calls::HandOversBySynod => asked,
        }
    }

    /// The tables that it wants; a proposal row for each of the sixteen hand-overs.
    pub(crate) fn lengths(&self) -> TableLengths {
        TableLengths {
            operations: self.rows,
            slots: self.slots,
            proposals: 16,
        }
    }
}

impl fmt::Display for Workload {
    fn fmt<W: fmt::Write>(&self, f: &mut fmt::Formatter<W>) -> fmt::Result {
        write!(
            f,
            "{}, {} members, {} slots, {} rows",
            self.calls, self.members, self.slots, self.rows
        )
    }
}
