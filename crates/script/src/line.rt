//! A line of a sheet behind its header: the tables' lengths, a call, or a table that is to be shown.
use crate::call_words::read_call;
use crate::expected::Expected;
use crate::kind::Kind;
use crate::words::Words;
use calls::Call;
use content::Content;
use host::TableLengths;
use std::fmt;

/// What a line says.
#[derive(Drop)]
pub(crate) enum Line<C: Content> {
    Tables(TableLengths),
    Call(Call<C>),
    Show(Table),
}

/// One of the host's tables.
#[derive(Clone, Copy)]
pub enum Table {
    Nodes,
    Operations,
    Frames,
    Proposals,
}

impl<C: Kind> Line<C> {
    /// The line whose first word is this, from the words behind it.
    pub(crate) fn read(first: &str, words: &mut Words<'_>) -> Result<Line<C>, Expected> {
        let line = match first {
            "tables" => Line::Tables(table_lengths(words)?),
            "show" => Line::Show(Table::read(words)?),
            _ => Line::Call(read_call(first, words)?),
        };
        words.end()?;
        Ok(line)
    }
}

fn table_lengths(words: &mut Words<'_>) -> Result<TableLengths, Expected> {
    Ok(TableLengths {
        operations: words.two_bytes("OPERATIONS")?,
        slots: words.two_bytes("SLOTS")?,
        proposals: words.two_bytes("PROPOSALS")?,
    })
}

impl Table {
    fn read(words: &mut Words<'_>) -> Result<Table, Expected> {
        match words.word() {
            Some("nodes") => Ok(Table::Nodes),
            Some("operations") => Ok(Table::Operations),
            Some("frames") => Ok(Table::Frames),
            Some("proposals") => Ok(Table::Proposals),
            _ => Err(Expected::Words("nodes, operations, frames or proposals")),
        }
    }
}

impl fmt::Display for Table {
    fn fmt<W: fmt::Write>(&self, f: &mut fmt::Formatter<W>) -> fmt::Result {
        match self {
            Table::Nodes => write!(f, "show nodes"),
            Table::Operations => write!(f, "show operations"),
            Table::Frames => write!(f, "show frames"),
            Table::Proposals => write!(f, "show proposals"),
        }
    }
}
