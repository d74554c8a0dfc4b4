//! What a schedule is drawn by: the lengths of its tables, its parts, and how often which call is made.
use crate::mood::Mood;
use crate::random::Random;
use chooser::NUMBERS;
use host::TableLengths;
use quorum::{LARGEST_GROUP, Weighted};

/// A rule that comes with the library.
#[derive(Clone, Copy, Debug, PartialEq, Eq)]
pub(crate) enum AnyRule {
    Majority,
    Weighted(Weighted),
}

/// A chooser that comes with the library, a synod with the rule of its acceptors.
#[derive(Clone, Copy, Debug, PartialEq, Eq)]
pub(crate) enum AnyChooser {
    Ledger,
    Synod(AnyRule),
}

/// A kind of content that comes with the library.
#[derive(Clone, Copy, Debug, PartialEq, Eq)]
pub(crate) enum AnyContent {
    Quote,
    Curve,
}

/// An offer that a chooser has before its floor is made.
#[derive(Clone, Copy, Debug, PartialEq, Eq)]
pub(crate) struct EarlierOffer {
    pub number: u8,
    pub value: u8,
}

/// What a schedule is drawn by.
#[derive(Clone, Copy, Debug, PartialEq, Eq)]
pub(crate) struct Setting {
    pub content: AnyContent,
    pub rule: AnyRule,
    pub chooser: AnyChooser,
    pub earlier_offer: Option<EarlierOffer>,
    pub lengths: TableLengths,
    pub node_count: u8,
    pub calls: u16,
    pub mood: Mood,
}

impl Setting {
    /// A setting; each of its parts is drawn by itself.
    pub(crate) fn drawn(random: &mut Random) -> Setting {
        let chooser = drawn_chooser(random);
        let is_synod = chooser != AnyChooser::Ledger;
        let mood = Mood::drawn(random, is_synod);
        Setting {
            content: drawn_content(random),
            rule: drawn_rule(random),
            chooser,
            earlier_offer: drawn_offer(random),
            lengths: drawn_lengths(random),
            node_count: drawn_count(random),
            calls: drawn_calls(random),
            mood,
        }
    }
}

fn drawn_content(random: &mut Random) -> AnyContent {
    if random.in_hundred(50) {
        AnyContent::Quote
    } else {
        AnyContent::Curve
    }
}

fn drawn_rule(random: &mut Random) -> AnyRule {
    if random.in_hundred(50) {
        return AnyRule::Majority;
    }
    let mut weights = [0; LARGEST_GROUP];
    for weight in weights.iter_mut() {
        *weight = 1 + random.byte_below(4);
    }
    match Weighted::new(weights) {
        Ok(rule) => AnyRule::Weighted(rule),
        Err(_) => AnyRule::Majority,
    }
}

fn drawn_chooser(random: &mut Random) -> AnyChooser {
    if random.in_hundred(50) {
        AnyChooser::Ledger
    } else {
        AnyChooser::Synod(drawn_rule(random))
    }
}

// One schedule of sixteen has a chooser that was used before.
fn drawn_offer(random: &mut Random) -> Option<EarlierOffer> {
    if random.below(16) != 0 {
        return None;
    }
    let number = random.byte_below(NUMBERS);
    Some(EarlierOffer {
        number: if random.in_hundred(50) { 0 } else { number },
        value: random.byte_below(6),
    })
}

// Now and then a table is so small that it is soon full.
fn drawn_lengths(random: &mut Random) -> TableLengths {
    TableLengths {
        operations: drawn_length(random, 12, 300),
        slots: drawn_length(random, 9, 64),
        proposals: drawn_length(random, 3, 110),
    }
}

// A length of one of two ranges: 1 to `small` in fifteen of a hundred cases, else above it up to `large`.
fn drawn_length(random: &mut Random, small: u16, large: u16) -> u16 {
    if random.in_hundred(15) {
        random.below(small).saturating_add(1)
    } else {
        random
            .below(large.saturating_sub(small))
            .saturating_add(small)
            .saturating_add(1)
    }
}

// Small floors are drawn more often than large ones.
fn drawn_count(random: &mut Random) -> u8 {
    if random.in_hundred(70) {
        1 + random.byte_below(6)
    } else {
        1 + random.byte_below(16)
    }
}

// Now and then a schedule is long enough for many changes of the group.
fn drawn_calls(random: &mut Random) -> u16 {
    if random.in_hundred(15) {
        600 + random.below(1200)
    } else {
        100 + random.below(400)
    }
}
