//! The check: whether a history keeps the order law. It is written from the law's words in docs/law.md, over what calls told alone.
use crate::history::{History, Holding, Told};
use crate::known::{Knowledge, Known, is_ahead};
use content::WIDEST;
use std::alloc::{AllocError, Global};
use std::fmt;
use tables::OperationRow;

/// A part of the law.
#[derive(Clone, Copy, Debug, PartialEq, Eq)]
pub(crate) enum Part {
    /// (a) what reads give
    Reads,
    /// (b) what was answered before another started
    Time,
    /// (c) what nodes hold
    Configurations,
    /// that the order is one
    Order,
    /// that the words mean what they seem to
    Words,
}

impl Part {
    /// All parts.
    pub(crate) const ALL: [Part; 5] = [
        Part::Words,
        Part::Order,
        Part::Reads,
        Part::Time,
        Part::Configurations,
    ];
}

/// How a history breaks the law.
#[derive(Clone, Copy, Debug, PartialEq, Eq)]
pub(crate) enum Breach {
    /// The read does not give what it has to.
    WrongContent {
        read: u16,
        write: Option<u16>,
    },
    /// One stands ahead of the other, which was answered before it started.
    Overtakes {
        one: u16,
        other: u16,
    },
    /// Two nodes hold different configurations of one number.
    TwoConfigurations {
        number: u8,
        one: u8,
        other: u8,
    },
    /// The node holds a configuration with a tag below that of an operation which was answered under a lower number.
    LeftBehind {
        number: u8,
        node: u8,
        operation: u16,
    },
    /// What the node's record shows is not what it was given.
    NotGiven {
        number: u8,
        node: u8,
    },
    /// Of two counted operations not just one is ahead, or others stand between them in a circle.
    NoOrder {
        one: u16,
        other: u16,
    },
    /// The operation was started or answered twice, or answered before it was started, or it is of another kind, or a look does not show what was answered.
    Odd {
        operation: u16,
    },
}

impl fmt::Display for Part {
    fn fmt<W: fmt::Write>(&self, f: &mut fmt::Formatter<W>) -> fmt::Result {
        match self {
            Part::Reads => write!(f, "(a)"),
            Part::Time => write!(f, "(b)"),
            Part::Configurations => write!(f, "(c)"),
            Part::Order => write!(f, "order"),
            Part::Words => write!(f, "words"),
        }
    }
}

impl fmt::Display for Breach {
    fn fmt<W: fmt::Write>(&self, f: &mut fmt::Formatter<W>) -> fmt::Result {
        match self {
            Breach::WrongContent {
                read,
                write: Some(write),
            } => write!(f, "(a) read {read} does not give what write {write} wrote"),
            Breach::WrongContent { read, write: None } => {
                write!(f, "(a) read {read} does not give the opening content")
            }
            Breach::Overtakes { one, other } => write!(
                f,
                "(b) operation {one} started after operation {other} was answered, and stands ahead of it"
            ),
            Breach::TwoConfigurations { number, one, other } => write!(
                f,
                "(c) nodes {one} and {other} hold different configurations {number}"
            ),
            Breach::LeftBehind {
                number,
                node,
                operation,
            } => write!(
                f,
                "(c) node {node} holds configuration {number} with a tag below that of operation {operation}"
            ),
            Breach::NotGiven { number, node } => write!(
                f,
                "(c) node {node} was not given the configuration {number} that it shows"
            ),
            Breach::NoOrder { one, other } => {
                write!(f, "order: operations {one} and {other} have none")
            }
            Breach::Odd { operation } => {
                write!(f, "words: operation {operation} is not what it should be")
            }
        }
    }
}

/// The first breach that is found, of any part; none if the history keeps the law.
pub(crate) fn check(alloc: Global, history: &History) -> Result<Option<Breach>, AllocError> {
    let knowledge = Knowledge::of(alloc, history)?;
    for part in Part::ALL {
        let breach = breach_of(part, history, &knowledge);
        if breach.is_some() {
            return Ok(breach);
        }
    }
    Ok(None)
}

/// A breach of one part; none if the history keeps it.
pub(crate) fn breach_of(part: Part, history: &History, knowledge: &Knowledge) -> Option<Breach> {
    let operations = knowledge.operations.as_slice();
    match part {
        Part::Reads => wrong_read(operations, opening_content(history)),
        Part::Time => overtaking(operations),
        Part::Configurations => wrong_configuration(history.held.as_slice(), operations),
        Part::Order => no_order(operations),
        Part::Words => odd_words(history, knowledge),
    }
}

// The content of the opening, if there was just one.
fn opening_content(history: &History) -> Option<[u8; WIDEST]> {
    let mut found = None;
    for told in history.told.iter() {
        if let Told::Opened { content } = told {
            if found.is_some() {
                return None;
            }
            found = Some(*content);
        }
    }
    found
}

// (a) A counted read that does not give what the last write before it wrote, or the opening content if no write stands before it.
fn wrong_read(operations: &[Known], opening: Option<[u8; WIDEST]>) -> Option<Breach> {
    for read in operations.iter().filter(|read| read.is_answered_read()) {
        let last = last_write_before(operations, read);
        let wanted = match last {
            Some(write) => write.started.and_then(|start| start.content),
            None => opening,
        };
        if wanted != Some(read.row.copy.content) {
            return Some(Breach::WrongContent {
                read: read.operation,
                write: last.map(|write| write.operation),
            });
        }
    }
    None
}

/// The counted write ahead of a read that no other such write is behind.
pub(crate) fn last_write_before(operations: &[Known], read: &Known) -> Option<Known> {
    let mut last: Option<Known> = None;
    for write in operations.iter() {
        let stands_before = write.counted && write.is_write() && is_ahead(write, read);
        let is_later = match &last {
            Some(found) => is_ahead(found, write),
            None => true,
        };
        if stands_before && is_later {
            last = Some(*write);
        }
    }
    last
}

// (b) A counted operation that stands ahead of one which was answered before it started.
fn overtaking(operations: &[Known]) -> Option<Breach> {
    for other in operations.iter().filter(|other| other.counted) {
        let found = operations.iter().find(|one| one.counted
            && is_ahead(one, other)
            && started_after_answer(one, other));
        if let Some(one) = found {
            return Some(Breach::Overtakes {
                one: one.operation,
                other: other.operation,
            });
        }
    }
    None
}

// Whether the one started after the other was answered.
fn started_after_answer(one: &Known, other: &Known) -> bool {
    match (one.started, other.answered) {
        (Some(start), Some(answer)) => answer < start.place,
        _ => false,
    }
}

// (c) A node that holds what it was not given, or what another does not hold under that number, or a tag below one that was answered under a lower number.
fn wrong_configuration(held: &[Holding], operations: &[Known]) -> Option<Breach> {
    for holding in held.iter() {
        let found = not_given(holding)
            .or_else(|| other_than_first(held, holding))
            .or_else(|| left_behind(holding, operations));
        if found.is_some() {
            return found;
        }
    }
    None
}

fn not_given(holding: &Holding) -> Option<Breach> {
    if holding.given == holding.found {
        return None;
    }
    Some(Breach::NotGiven {
        number: holding.found.number,
        node: holding.node,
    })
}

// Each holding of a number is compared with the first of that number.
fn other_than_first(held: &[Holding], holding: &Holding) -> Option<Breach> {
    let number = holding.found.number;
    let first = held.iter().find(|first| first.found.number == number)?;
    let same_members = first.found.members.as_slice() == holding.found.members.as_slice();
    if same_members && first.found.opening == holding.found.opening {
        return None;
    }
    Some(Breach::TwoConfigurations {
        number,
        one: first.node,
        other: holding.node,
    })
}

fn left_behind(holding: &Holding, operations: &[Known]) -> Option<Breach> {
    let opening = holding.found.opening;
    let number = holding.found.number;
    let exceeding = operations.iter().find(|known| {
        let (version, node) = known.tag();
        let exceeds = version > opening.version
            || version == opening.version && node > opening.node;
        known.answered.is_some() && known.row.number < number && exceeds
    })?;
    Some(Breach::LeftBehind {
        number,
        node: holding.node,
        operation: exceeding.operation,
    })
}

// Two counted operations of which not just one is ahead of the other, or not the one of lower rank. If there are none, the counted operations stand in one line: each is ahead of all that have a higher rank, and of no others.
fn no_order(operations: &[Known]) -> Option<Breach> {
    for one in operations.iter().filter(|one| one.counted) {
        let found = operations.iter().find(|other| {
            let is_other = other.counted && other.operation != one.operation;
            is_other && !is_in_line(one, other)
        });
        if let Some(other) = found {
            return Some(Breach::NoOrder {
                one: one.operation,
                other: other.operation,
            });
        }
        if is_ahead(one, one) {
            return Some(Breach::NoOrder {
                one: one.operation,
                other: one.operation,
            });
        }
    }
    None
}

fn is_in_line(one: &Known, other: &Known) -> bool {
    let first = is_ahead(one, other);
    first != is_ahead(other, one) && first == (one.rank < other.rank)
}

// An operation of which the words of the law do not mean what they seem to.
fn odd_words(history: &History, knowledge: &Knowledge) -> Option<Breach> {
    let operations = knowledge.operations.as_slice();
    if let Some(operation) = knowledge.odd {
        return Some(Breach::Odd { operation });
    }
    if let Some(known) = operations.iter().find(|known| is_odd(known)) {
        return Some(Breach::Odd {
            operation: known.operation,
        });
    }
    changed_look(history.told.as_slice(), operations)
}

// It is counted and was not started, or is of another kind than the call that started it, or is shown as answered and was not, or the other way round.
fn is_odd(known: &Known) -> bool {
    let is_other_kind = match known.started {
        Some(start) => start.kind != known.row.kind,
        None => known.counted,
    };
    is_other_kind || known.answered.is_some() != known.shows_answered()
}

// A look after the answer that did not answer what a look at the end does.
fn changed_look(told: &[Told], operations: &[Known]) -> Option<Breach> {
    for (place, told) in told.iter().enumerate() {
        if let Told::Looked { operation, row } = told {
            if !still_shown(operations.get(usize::from(*operation)), place, row) {
                return Some(Breach::Odd {
                    operation: *operation,
                });
            }
        }
    }
    None
}

// Whether a look at the end answers what this look did, if the operation had been answered by then.
fn still_shown(known: Option<&Known>, place: usize, row: &OperationRow) -> bool {
    let Some(known) = known else {
        return false;
    };
    match known.answered {
        Some(answer) if answer < place => known.row == *row,
        _ => true,
    }
}
