//! Damage to a history, so that it breaks the order law: the check has to find it.
use crate::check::{Part, last_write_before};
use crate::find::find_from;
use crate::history::{History, Holding, Told};
use crate::known::{Knowledge, Known, is_ahead};
use crate::random::Random;
use content::WIDEST;
use frame::{HIGHEST_NODE, Tag};
use std::fmt;
use tables::{Configuration, Members, OperationRow};

/// A kind of damage.
#[derive(Clone, Copy, Debug, PartialEq, Eq)]
pub(crate) enum Damage {
    /// a read gives the content of an older write, or the opening content
    OlderContent,
    /// a read has the tag of an older write, or the opening tag
    OlderTag,
    /// an operation is answered before the start of one that stands ahead of it
    EarlierAnswer,
    /// a node holds other members than another under the same number
    OtherMembers,
    /// a node holds another opening tag than another under the same number
    OtherOpening,
    /// all nodes hold an opening tag below one that was answered under a lower number
    LowerOpening,
    /// two answered writes have one tag
    SharedTag,
    /// an operation is answered before it is started
    AnsweredFirst,
    /// an operation that is shown as answered was answered by no call
    NeverAnswered,
    /// a look shows another content than was answered
    OtherLook,
}

/// How many kinds of damage there are.
pub(crate) const DAMAGES: usize = 10;

impl Damage {
    /// All kinds of damage.
    pub(crate) const ALL: [Damage; DAMAGES] = [
        Damage::OlderContent,
        Damage::OlderTag,
        Damage::EarlierAnswer,
        Damage::OtherMembers,
        Damage::OtherOpening,
        Damage::LowerOpening,
        Damage::SharedTag,
        Damage::AnsweredFirst,
        Damage::NeverAnswered,
        Damage::OtherLook,
    ];

    /// The part of the law that it breaks.
    pub(crate) fn part(self) -> Part {
        match self {
            Damage::OlderContent | Damage::OlderTag => Part::Reads,
            Damage::EarlierAnswer => Part::Time,
            Damage::OtherMembers | Damage::OtherOpening | Damage::LowerOpening => {
                Part::Configurations
            }
            Damage::SharedTag => Part::Order,
            Damage::AnsweredFirst | Damage::NeverAnswered | Damage::OtherLook => Part::Words,
        }
    }

    /// Damages a history that keeps the law, where it has what can be damaged so: then the part is broken for certain.
    pub(crate) fn make(
        self,
        history: &mut History,
        knowledge: &Knowledge,
        random: &mut Random,
    ) -> Option<()> {
        let operations = knowledge.operations.as_slice();
        let start = random.index(operations.len());
        match self {
            Damage::OlderContent => older_content(history, operations, start),
            Damage::OlderTag => older_tag(history, operations, start),
            Damage::EarlierAnswer => earlier_answer(history, operations, start),
            Damage::OtherMembers => {
                let held = history.held.as_mut_slice();
                let start = random.index(held.len());
                altered_holding(held, start, other_members)
            }
            Damage::OtherOpening => {
                let held = history.held.as_mut_slice();
                let start = random.index(held.len());
                altered_holding(held, start, other_opening)
            }
            Damage::LowerOpening => lower_opening(history, operations, start),
            Damage::SharedTag => shared_tag(history, operations, start),
            Damage::AnsweredFirst => answered_first(history, operations, start),
            Damage::NeverAnswered => never_answered(history, operations, start),
            Damage::OtherLook => other_look(history, operations),
        }
    }
}

impl fmt::Display for Damage {
    fn fmt<W: fmt::Write>(&self, f: &mut fmt::Formatter<W>) -> fmt::Result {
        let words = match self {
            Damage::OlderContent => "a read with an older content",
            Damage::OlderTag => "a read with an older tag",
            Damage::EarlierAnswer => "an answer before the start of what stands ahead",
            Damage::OtherMembers => "other members at one node",
            Damage::OtherOpening => "another opening tag at one node",
            Damage::LowerOpening => "an opening tag below an answered tag",
            Damage::SharedTag => "two writes of one tag",
            Damage::AnsweredFirst => "an answer before the start",
            Damage::NeverAnswered => "an answer that no call gave",
            Damage::OtherLook => "a look that shows another content",
        };
        write!(f, "{words}")
    }
}

// The row that a look at the end answers.
fn shown<'a>(history: &'a mut History, known: &Known) -> Option<&'a mut OperationRow> {
    history.end.get_mut(usize::from(known.operation))
}

// An operation that fits, the first from a place on.
fn pick<F: Fn(usize, &Known) -> bool + Drop>(
    operations: &[Known],
    start: usize,
    fits: F,
) -> Option<Known>
    requires { F.IsAlwaysCallable fits }
{
    let place = find_from(operations, start, fits)?;
    operations.get(place).copied()
}

fn opening_of(history: &History) -> Option<[u8; WIDEST]> {
    for told in history.told.iter() {
        if let Told::Opened { content } = told {
            return Some(*content);
        }
    }
    None
}

// What was written by a write.
fn written(write: &Known) -> Option<[u8; WIDEST]> {
    write.started?.content
}

// The write before the one that a read gives, if both are there.
fn older_write(operations: &[Known], read: &Known) -> Option<Known> {
    let given = last_write_before(operations, read)?;
    let mut older: Option<Known> = None;
    for write in operations.iter() {
        let fits = write.counted && write.is_write() && is_ahead(write, &given);
        let is_later = match &older {
            Some(found) => is_ahead(found, write),
            None => true,
        };
        if fits && is_later {
            older = Some(*write);
        }
    }
    older
}

// What the read gives is what the law wants of it, and no other content will do.
fn older_content(history: &mut History, operations: &[Known], start: usize) -> Option<()> {
    let read = pick(operations, start, |_: usize, known: &Known| {
        known.is_answered_read() && known.tag() != (0, 0)
    })?;
    let older = match older_write(operations, &read) {
        Some(write) => written(&write)?,
        None => opening_of(history)?,
    };
    if older == read.row.copy.content {
        return None;
    }
    shown(history, &read)?.copy.content = older;
    Some(())
}

// The last write before the read is then the older one, or none is: but the read gives another content than that wrote, or than the opening had.
fn older_tag(history: &mut History, operations: &[Known], start: usize) -> Option<()> {
    let read = pick(operations, start, |_: usize, known: &Known| {
        known.is_answered_read() && known.tag() != (0, 0)
    })?;
    let (tag, content) = match older_write(operations, &read) {
        Some(write) => (write.row.copy.tag, written(&write)?),
        None => (NO_TAG, opening_of(history)?),
    };
    if content == read.row.copy.content {
        return None;
    }
    shown(history, &read)?.copy.tag = tag;
    Some(())
}

// The tag of the opening content.
const NO_TAG: Tag = Tag {
    version: 0,
    node: 0,
};

// A counted operation ahead of this one that started after it, and before it was answered.
fn overtaking(operations: &[Known], known: &Known) -> Option<Known> {
    let start = known.started?.place;
    let answer = known.answered?;
    let found = operations.iter().find(|other| {
        let place = match other.started {
            Some(start) => start.place,
            None => 0,
        };
        other.counted && is_ahead(other, known) && start < place && place < answer
    })?;
    Some(*found)
}

// The answer comes just before the start of the other: so the other started after it, and stands ahead.
fn earlier_answer(history: &mut History, operations: &[Known], start: usize) -> Option<()> {
    let known = pick(operations, start, |_: usize, known: &Known| {
        overtaking(operations, known).is_some()
    })?;
    let other = overtaking(operations, &known)?;
    move_back(history, known.answered?, other.started?.place)
}

// Moves what a call told in front of what an earlier one did.
fn move_back(history: &mut History, from: usize, to: usize) -> Option<()> {
    if to > from || from >= history.told.len() {
        return None;
    }
    let told = history.told.as_mut_slice();
    let (upto, _) = told.split_at_mut(from + 1);
    let (_, moved) = upto.split_at_mut(to);
    moved.rotate_right(1);
    Some(())
}

// Alters what one node was given and shows, where another holds the same number.
fn altered_holding<F: Fn(Configuration) -> Configuration + Drop>(
    held: &mut [Holding],
    start: usize,
    alter: F,
) -> Option<()>
    requires { F.IsAlwaysCallable alter }
{
    let numbers = shared_numbers(held);
    let place = find_from(held, start, |_: usize, holding: &Holding| {
        numbers & number_bit(holding.found.number) != 0
    })?;
    let holding = held.get_mut(place)?;
    holding.found = alter(holding.found);
    holding.given = holding.found;
    Some(())
}

// The numbers that are held more than once, as bits.
fn shared_numbers(held: &[Holding]) -> u32 {
    let mut once = 0u32;
    let mut twice = 0u32;
    for holding in held.iter() {
        let bit = number_bit(holding.found.number);
        twice |= once & bit;
        once |= bit;
    }
    twice
}

fn number_bit(number: u8) -> u32 {
    1 << u32::from(number % 32)
}

// The first two members change places, and a single one becomes another node.
fn other_members(configuration: Configuration) -> Configuration {
    let mut nodes = configuration.members.nodes;
    if configuration.members.size() < 2 {
        for node in nodes.iter_mut().take(1) {
            *node = *node % HIGHEST_NODE + 1;
        }
    } else {
        nodes.swap(0, 1);
    }
    Configuration {
        members: Members {
            nodes,
            count: configuration.members.count,
        },
        ..configuration
    }
}

fn other_opening(configuration: Configuration) -> Configuration {
    let opening = configuration.opening;
    Configuration {
        opening: Tag {
            version: opening.version ^ 1,
            node: opening.node,
        },
        ..configuration
    }
}

// All nodes that hold a number open it with a tag below one that was answered under a lower number.
fn lower_opening(history: &mut History, operations: &[Known], start: usize) -> Option<()> {
    let last = last_number(history.held.as_slice());
    let known = pick(operations, start, |_: usize, known: &Known| {
        known.answered.is_some() && known.row.number < last && known.row.copy.tag.version > 0
    })?;
    let tag = known.row.copy.tag;
    let lower = Tag {
        version: tag.version.saturating_sub(1),
        node: if tag.version > 1 { tag.node } else { 0 },
    };
    for holding in history.held.iter_mut() {
        if holding.found.number == last {
            holding.found.opening = lower;
            holding.given = holding.found;
        }
    }
    Some(())
}

// The highest number that is held.
fn last_number(held: &[Holding]) -> u8 {
    let mut last = 0;
    for holding in held.iter() {
        last = last.max(holding.found.number);
    }
    last
}

// Neither of two writes of one tag is ahead.
fn shared_tag(history: &mut History, operations: &[Known], start: usize) -> Option<()> {
    let one = pick(
        operations,
        start,
        |_: usize, known: &Known| is_answered_write(known),
    )?;
    let other = pick(operations, start, |_: usize, known: &Known| {
        is_answered_write(known) && known.operation != one.operation
    })?;
    shown(history, &other)?.copy.tag = one.row.copy.tag;
    Some(())
}

fn is_answered_write(known: &Known) -> bool {
    known.is_write() && known.answered.is_some()
}

fn answered_first(history: &mut History, operations: &[Known], start: usize) -> Option<()> {
    let known = pick(
        operations,
        start,
        |_: usize, known: &Known| known.answered.is_some(),
    )?;
    move_back(history, known.answered?, known.started?.place)
}

fn never_answered(history: &mut History, operations: &[Known], start: usize) -> Option<()> {
    let known = pick(
        operations,
        start,
        |_: usize, known: &Known| known.answered.is_some(),
    )?;
    *history.told.get_mut(known.answered?)? = Told::Nothing;
    Some(())
}

// The first look after an answer shows a content with another first byte.
fn other_look(history: &mut History, operations: &[Known]) -> Option<()> {
    for (place, told) in history.told.iter_mut().enumerate() {
        if let Told::Looked { operation, row } = told {
            if is_answered_before(operations.get(usize::from(*operation)), place) {
                let [first, ..] = &mut row.copy.content;
                *first ^= 1;
                return Some(());
            }
        }
    }
    None
}

fn is_answered_before(known: Option<&Known>, place: usize) -> bool {
    match known {
        Some(known) => known.answered.is_some_and(|answer| answer < place),
        None => false,
    }
}
