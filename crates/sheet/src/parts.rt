//! The parts of a sheet's floor: by which rule and with which chooser it is played, and on how large tables.
use crate::charting::chart_sheet;
use crate::playing::play_sheet;
use crate::task::Task;
use chooser::Chooser;
use content::Content;
use host::{HostTables, TableLengths};
use ledger::Ledger;
use quorum::{Majority, QuorumRule};
use script::{AnySheet, NamedChooser, NamedRule, Sheet};
use std::alloc::{AllocError, Global};
use std::fmt::Display;
use std::io;
use synod::Synod;

/// A rule and a chooser, and a second chooser of the same kind.
#[derive(Drop)]
pub(crate) struct Parts<Q: QuorumRule + Drop, S: Chooser + Drop> {
    pub rule: Q,
    pub chooser: S,
    pub shadow: S,
}

// The lengths of the host's tables, where no line says them.
const USUAL_LENGTHS: TableLengths = TableLengths {
    operations: 64,
    slots: 64,
    proposals: 16,
};

/// Does with a sheet what is asked; its place is counted from 0.
pub(crate) fn perform(
    rt: &HostRuntime,
    task: Task,
    place: usize,
    sheet: &mut AnySheet,
) -> io::Result<()> {
    match sheet {
        AnySheet::Quotes(sheet) => by_rule(rt, task, place, sheet),
        AnySheet::Curves(sheet) => by_rule(rt, task, place, sheet),
        AnySheet::Unread => Ok(()),
    }
}

/// Tables for the sheet, as its line says.
pub(crate) fn tables_for<C: Content>(
    alloc: Global,
    sheet: &Sheet<C>,
) -> Result<HostTables, AllocError> {
    HostTables::new(alloc, sheet.lengths.unwrap_or(USUAL_LENGTHS))
}

fn by_rule<C: Content + Display>(
    rt: &HostRuntime,
    task: Task,
    place: usize,
    sheet: &mut Sheet<C>,
) -> io::Result<()> {
    match sheet.header.rule {
        NamedRule::Majority => by_chooser(rt, task, place, Majority, sheet),
        NamedRule::Weighted { rule, .. } => by_chooser(rt, task, place, rule, sheet),
    }
}

fn by_chooser<C: Content + Display, Q: QuorumRule + Drop>(
    rt: &HostRuntime,
    task: Task,
    place: usize,
    rule: Q,
    sheet: &mut Sheet<C>,
) -> io::Result<()> {
    match sheet.header.chooser {
        NamedChooser::Ledger => {
            let parts = Parts {
                rule,
                chooser: Ledger::new(),
                shadow: Ledger::new(),
            };
            by_task(rt, task, place, parts, sheet)
        }
        NamedChooser::Synod(NamedRule::Majority) => {
            by_task(rt, task, place, synods(rule, &Majority), sheet)
        }
        NamedChooser::Synod(NamedRule::Weighted { rule: five, .. }) => {
            by_task(rt, task, place, synods(rule, &five), sheet)
        }
    }
}

fn synods<Q: QuorumRule + Drop, F: QuorumRule>(rule: Q, five: &F) -> Parts<Q, Synod> {
    Parts {
        rule,
        chooser: Synod::new(five),
        shadow: Synod::new(five),
    }
}

fn by_task<C: Content + Display, Q: QuorumRule + Drop, S: Chooser + Drop>(
    rt: &HostRuntime,
    task: Task,
    place: usize,
    parts: Parts<Q, S>,
    sheet: &mut Sheet<C>,
) -> io::Result<()> {
    match task {
        Task::Play => play_sheet(rt, parts, sheet),
        Task::Chart => chart_sheet(rt, place, parts, sheet),
    }
}
