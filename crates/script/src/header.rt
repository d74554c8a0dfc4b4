//! How a sheet begins: its kind of content, its quorum rule and its chooser.
use crate::expected::Expected;
use crate::text::Numbers;
use crate::words::Words;
use quorum::{LARGEST_GROUP, Weighted};
use std::fmt;

/// What the sheet's contents are.
#[derive(Clone, Copy)]
pub enum KindName {
    Quote,
    Curve,
}

/// A rule as it is named. The weights are kept beside the rule, which does not show them.
#[derive(Clone, Copy)]
pub enum NamedRule {
    Majority,
    Weighted {
        weights: [u8; LARGEST_GROUP],
        rule: Weighted,
    },
}

/// A chooser as it is named.
#[derive(Clone, Copy)]
pub enum NamedChooser {
    Ledger,
    Synod(NamedRule),
}

/// What stands behind the word `sheet`.
#[derive(Clone, Copy)]
pub struct Header {
    pub kind: KindName,
    pub rule: NamedRule,
    pub chooser: NamedChooser,
}

impl KindName {
    fn read(words: &mut Words<'_>) -> Result<KindName, Expected> {
        match words.word() {
            Some("quote") => Ok(KindName::Quote),
            Some("curve") => Ok(KindName::Curve),
            _ => Err(Expected::Words("quote or curve")),
        }
    }
}

impl Header {
    pub(crate) fn read(words: &mut Words<'_>) -> Result<Header, Expected> {
        let kind = KindName::read(words)?;
        let rule = NamedRule::read(words)?;
        let chooser = NamedChooser::read(words)?;
        words.end()?;
        Ok(Header {
            kind,
            rule,
            chooser,
        })
    }
}

impl NamedRule {
    fn read(words: &mut Words<'_>) -> Result<NamedRule, Expected> {
        match words.word() {
            Some("majority") => Ok(NamedRule::Majority),
            Some("weighted") => NamedRule::read_weights(words),
            _ => Err(Expected::Words("majority or weighted")),
        }
    }

    fn read_weights(words: &mut Words<'_>) -> Result<NamedRule, Expected> {
        let expected = Expected::Words("seven weights, numbers 0 to 100, the first not 0");
        let mut weights = [0; LARGEST_GROUP];
        words.bytes(&mut weights, expected)?;
        let rule = Weighted::new(weights).ok().ok_or(expected)?;
        Ok(NamedRule::Weighted { weights, rule })
    }
}

impl NamedChooser {
    fn read(words: &mut Words<'_>) -> Result<NamedChooser, Expected> {
        match words.word() {
            Some("ledger") => Ok(NamedChooser::Ledger),
            Some("synod") => Ok(NamedChooser::Synod(NamedRule::read(words)?)),
            _ => Err(Expected::Words("ledger or synod")),
        }
    }
}

impl fmt::Display for Header {
    fn fmt<W: fmt::Write>(&self, f: &mut fmt::Formatter<W>) -> fmt::Result {
        write!(f, "{} {} {}", self.kind, self.rule, self.chooser)
    }
}

impl fmt::Display for KindName {
    fn fmt<W: fmt::Write>(&self, f: &mut fmt::Formatter<W>) -> fmt::Result {
        f.write_str(match self {
            KindName::Quote => "quote",
            KindName::Curve => "curve",
        })
    }
}

impl fmt::Display for NamedRule {
    fn fmt<W: fmt::Write>(&self, f: &mut fmt::Formatter<W>) -> fmt::Result {
        match self {
            NamedRule::Majority => write!(f, "majority"),
            NamedRule::Weighted { weights, .. } => write!(f, "weighted{}", Numbers(weights)),
        }
    }
}

impl fmt::Display for NamedChooser {
    fn fmt<W: fmt::Write>(&self, f: &mut fmt::Formatter<W>) -> fmt::Result {
        match self {
            NamedChooser::Ledger => write!(f, "ledger"),
            NamedChooser::Synod(rule) => write!(f, "synod {rule}"),
        }
    }
}
