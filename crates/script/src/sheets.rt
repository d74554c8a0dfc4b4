//! The sheets of a schedule, as its lines are taken one after the other.
ghost use Rattle.std.specs.Prelude.{◌≡◌, ◌+◌, ◌≤◌, ◌⊎◌, IfOk, IfSome, OnOk, OnErr, MatchResult, is_ok, slice_get, vec_len};
ghost use Rattle.script.specs.Sheets.{lines_of, no_lines, may_stand, with_line, OneLineMore, AnyLineMore, SameLines, IsBegun, OthersStay, AllStay, LastBecame};

use crate::expected::Expected;
use crate::header::{Header, KindName};
use crate::kind::Kind;
use crate::line::{Line, Table};
use crate::words::Words;
use calls::Turn;
use content::Content;
use curve::Curve;
use host::TableLengths;
use quote::Quote;
use std::alloc::{AllocError, AllocFailed, Global};

/// A sheet with contents of one kind, as far as its lines were taken.
#[derive(Drop)]
pub struct Sheet<C: Content> {
    pub header: Header,
    /// The lengths of the host's tables, if a line says them.
    pub lengths: Option<TableLengths>,
    pub turns: Vec<Turn<C>>,
    /// The tables that are to be shown in the end.
    pub shown: Vec<Table>,
}

/// A sheet of either kind.
#[derive(Drop)]
pub enum AnySheet {
    Quotes(Sheet<Quote>),
    Curves(Sheet<Curve>),
    /// Its header could not be read, so nothing is known of its lines.
    Unread,
}

/// Why a line is not taken.
#[derive(Drop)]
pub enum LineFault {
    Unread(Expected),
    Memory(AllocError),
}

impl From<Expected> for LineFault {
    fn from(expected: Expected) -> LineFault {
        LineFault::Unread(expected)
    }
}

impl<T: Drop> From<AllocFailed<T>> for LineFault {
    fn from(failed: AllocFailed<T>) -> LineFault {
        LineFault::Memory(AllocError::from(failed))
    }
}

/// Takes the next line of the schedule: it begins a sheet, or belongs to the last, or has no words.
pub fn take_line(alloc: Global, sheets: &mut Vec<AnySheet>, line: &str) -> Result<(), LineFault>
    ensures none_lost { vec_len sheets.old ≤ vec_len sheets.new }
    ensures one_at_most { vec_len sheets.new ≤ vec_len sheets.old + 1 }
    ensures others_stay { OthersStay sheets.old.items sheets.new.items }
    ensures taken { OnOk result (AllStay sheets.old.items sheets.new.items ⊎ LastBecame AnyLineMore sheets.old.items sheets.new.items) }
    ensures refused { OnErr result (AllStay sheets.old.items sheets.new.items ⊎ LastBecame SameLines sheets.old.items sheets.new.items) }
    ensures begun { IfSome (slice_get sheets.new.items (vec_len sheets.old)) (λ sheet. MatchResult result (λ _. IsBegun sheet) (λ _. sheet ≡ AnySheet.Unread)) }
{
    let mut words = Words::of(line);
    match words.word() {
        None => Ok(()),
        Some("sheet") => begin_sheet(alloc, sheets, &mut words),
        Some(first) => continue_sheet(sheets, first, &mut words),
    }
}

// Begins a sheet. One whose header cannot be read stands in the list too, so that its lines are not taken for those of the sheet before.
fn begin_sheet(
    alloc: Global,
    sheets: &mut Vec<AnySheet>,
    words: &mut Words<'_>,
) -> Result<(), LineFault>
    ensures none_lost { vec_len sheets.old ≤ vec_len sheets.new }
    ensures one_at_most { vec_len sheets.new ≤ vec_len sheets.old + 1 }
    ensures all_stay { AllStay sheets.old.items sheets.new.items }
    ensures begun { IfSome (slice_get sheets.new.items (vec_len sheets.old)) (λ sheet. MatchResult result (λ _. IsBegun sheet) (λ _. sheet ≡ AnySheet.Unread)) }
{
    match AnySheet::begun(alloc, words) {
        Ok(sheet) => {
            sheets.push(sheet)?;
            Ok(())
        }
        Err(expected) => {
            sheets.push(AnySheet::Unread)?;
            Err(LineFault::Unread(expected))
        }
    }
}

// Takes a line of the last sheet.
fn continue_sheet(
    sheets: &mut Vec<AnySheet>,
    first: &str,
    words: &mut Words<'_>,
) -> Result<(), LineFault>
    ensures as_many { vec_len sheets.new ≡ vec_len sheets.old }
    ensures others_stay { OthersStay sheets.old.items sheets.new.items }
    ensures taken { OnOk result (LastBecame AnyLineMore sheets.old.items sheets.new.items) }
    ensures refused { OnErr result (LastBecame SameLines sheets.old.items sheets.new.items) }
{
    match sheets.last_mut() {
        Some(sheet) => sheet.take(first, words),
        None => Err(LineFault::Unread(Expected::Words("sheet KIND RULE CHOOSER before all else"))),
    }
}

impl AnySheet {
    // The sheet of the header that comes, with no lines yet.
    fn begun(alloc: Global, words: &mut Words<'_>) -> Result<AnySheet, Expected>
        ensures { IfOk result IsBegun }
    {
        let header = Header::read(words)?;
        Ok(match header.kind {
            KindName::Quote => AnySheet::Quotes(Sheet::new(alloc, header)),
            KindName::Curve => AnySheet::Curves(Sheet::new(alloc, header)),
        })
    }

    // Takes a line of the sheet, from its first word and the words behind it.
    fn take(&mut self, first: &str, words: &mut Words<'_>) -> Result<(), LineFault>
        ensures taken { OnOk result (AnyLineMore self.old self.new) }
        ensures refused { OnErr result (SameLines self.old self.new) }
    {
        match self {
            AnySheet::Quotes(sheet) => sheet.take(first, words),
            AnySheet::Curves(sheet) => sheet.take(first, words),
            AnySheet::Unread => Ok(()),
        }
    }
}

impl<C: Kind> Sheet<C> {
    fn new(alloc: Global, header: Header) -> Sheet<C>
        ensures { lines_of result ≡ no_lines header }
    {
        Sheet {
            header,
            lengths: None,
            turns: Vec::new(alloc),
            shown: Vec::new(alloc),
        }
    }

    // Takes a line from its first word and the words behind it. One that is refused leaves the sheet as it was.
    fn take(&mut self, first: &str, words: &mut Words<'_>) -> Result<(), LineFault>
        ensures taken { OnOk result (OneLineMore (lines_of self.old) (lines_of self.new)) }
        ensures refused { OnErr result (lines_of self.new ≡ lines_of self.old) }
    {
        let line = Line::read(first, words)?;
        self.judge(&line)?;
        self.add(line)
    }

    // Whether the line may stand here: first the lengths, then the calls, then what is shown.
    fn judge(&self, line: &Line<C>) -> Result<(), Expected>
        ensures { is_ok result ≡ may_stand (lines_of self.now) line.now }
    {
        match line {
            Line::Tables(_)
                if self.lengths.is_some() || !self.turns.is_empty() || !self.shown.is_empty() => {
                Err(Expected::Words("tables once at most, and before the calls"))
            }
            Line::Call(_) if !self.shown.is_empty() => {
                Err(Expected::Words("all calls of a sheet before its first show"))
            }
            _ => Ok(()),
        }
    }

    // Adds a line that may stand here.
    fn add(&mut self, line: Line<C>) -> Result<(), LineFault>
        ensures taken { OnOk result (lines_of self.new ≡ with_line (lines_of self.old) line) }
        ensures refused { OnErr result (lines_of self.new ≡ lines_of self.old) }
    {
        match line {
            Line::Tables(lengths) => self.lengths = Some(lengths),
            Line::Call(call) => self.turns.push(Turn { call, answer: None })?,
            Line::Show(table) => self.shown.push(table)?,
        }
        Ok(())
    }
}
