//! Printing a sheet that was played.
use crate::shown_calls::ShownTurn;
use crate::shown_rows::in_kind;
use content::Content;
use desk::Desk;
use frame::SLOT;
use host::{HostTables, TableLengths};
use script::{Hexadecimal, Sheet, Table};
use std::fmt::Display;
use std::io;

/// The header, the tables' lengths if they are said, and each call with its answer.
pub(crate) fn print_turns<C: Content + Display>(
    rt: &HostRuntime,
    sheet: &Sheet<C>,
) -> io::Result<()> {
    println!(rt; "sheet {}", sheet.header)?;
    if let Some(lengths) = sheet.lengths {
        let TableLengths {
            operations,
            slots,
            proposals,
        } = lengths;
        println!(rt; "tables {operations} {slots} {proposals}")?;
    }
    for turn in sheet.turns.iter() {
        println!(rt; "{}", ShownTurn(turn))?;
    }
    Ok(())
}

/// The line that asks for a table, and its records, rows or frames that are in use.
pub(crate) fn print_table<C: Content + Display>(
    rt: &HostRuntime,
    table: Table,
    tables: &HostTables,
    desk: &Desk,
) -> io::Result<()> {
    println!(rt; "{table}")?;
    match table {
        Table::Nodes => print_nodes::<C>(rt, tables, desk.node_count),
        Table::Operations => print_operations::<C>(rt, tables, desk.operations_used),
        Table::Frames => print_frames(rt, tables),
        Table::Proposals => print_proposals::<C>(rt, tables, desk.proposals_used),
    }
}

fn print_nodes<C: Content + Display>(
    rt: &HostRuntime,
    tables: &HostTables,
    count: u8,
) -> io::Result<()> {
    for (node, record) in (1..=count).zip(tables.nodes.iter()) {
        println!(rt; "node {node} {}", in_kind::<C, _>(record))?;
    }
    Ok(())
}

fn print_operations<C: Content + Display>(
    rt: &HostRuntime,
    tables: &HostTables,
    used: u16,
) -> io::Result<()> {
    for (operation, row) in (0..used).zip(tables.operations.iter()) {
        println!(rt; "operation {operation} {}", in_kind::<C, _>(row))?;
    }
    Ok(())
}

fn print_proposals<C: Content + Display>(
    rt: &HostRuntime,
    tables: &HostTables,
    used: u8,
) -> io::Result<()> {
    for (proposal, row) in (0..used).zip(tables.proposals.iter()) {
        println!(rt; "proposal {proposal} {}", in_kind::<C, _>(row))?;
    }
    Ok(())
}

// The slots that are not empty.
fn print_frames(rt: &HostRuntime, tables: &HostTables) -> io::Result<()> {
    for (slot, bytes) in tables.frames.chunks_exact(SLOT).enumerate() {
        if bytes[0] != 0 {
            println!(rt; "slot {slot}{}", Hexadecimal(bytes))?;
        }
    }
    Ok(())
}
