//! Playing a sheet.
use crate::parts::{Parts, tables_for};
use crate::printing::{print_table, print_turns};
use chooser::Chooser;
use content::Content;
use quorum::QuorumRule;
use schedule::play;
use script::Sheet;
use std::fmt::Display;
use std::io;

/// Makes the sheet's calls, and prints them with their answers and the tables that are to be shown.
pub(crate) fn play_sheet<C: Content + Display, Q: QuorumRule + Drop, S: Chooser + Drop>(
    rt: &HostRuntime,
    parts: Parts<Q, S>,
    sheet: &mut Sheet<C>,
) -> io::Result<()> {
    let mut tables = tables_for(rt.alloc(), sheet)?;
    let Parts { rule, chooser, .. } = parts;
    let floor = play(
        rule,
        chooser,
        tables.nodes.as_mut_slice(),
        tables.operations.as_mut_slice(),
        tables.frames.as_mut_slice(),
        tables.proposals.as_mut_slice(),
        sheet.turns.as_mut_slice(),
    );
    let desk = floor.desk();
    print_turns(rt, sheet)?;
    for table in sheet.shown.iter() {
        print_table::<C>(rt, *table, &tables, &desk)?;
    }
    Ok(())
}
