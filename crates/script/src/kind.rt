//! The kinds of content in the words of a schedule.
use crate::expected::Expected;
use crate::words::Words;
use content::Content;
use curve::Curve;
use quote::Quote;

/// A kind of content that a schedule knows.
pub(crate) trait Kind: Content {
    /// A content, from the words that come.
    fn read(words: &mut Words<'_>) -> Result<Self, Expected>;
}

impl Kind for Quote {
    fn read(words: &mut Words<'_>) -> Result<Quote, Expected> {
        let expected = Expected::Words("BID and ASK, two numbers 0 to 4294967295, BID at most ASK");
        let bid = words.number(expected)?;
        let ask = words.number(expected)?;
        Quote::new(bid, ask).ok().ok_or(expected)
    }
}

impl Kind for Curve {
    fn read(words: &mut Words<'_>) -> Result<Curve, Expected> {
        let expected = Expected::Words("four rates, numbers -2147483648 to 2147483647");
        let first = words.number(expected)?;
        let second = words.number(expected)?;
        let third = words.number(expected)?;
        let fourth = words.number(expected)?;
        Ok(Curve::new(first, second, third, fourth))
    }
}
