//! Contents, as schedules have them: no two of a schedule are alike.
use crate::random::Random;
use content::Content;
use curve::Curve;
use quote::Quote;

/// A kind of content of which many can be made.
pub(crate) trait Drawn: Content {
    /// A content with this number: contents with different numbers differ.
    fn numbered(number: u16, random: &mut Random) -> Self;
}

impl Drawn for Quote {
    fn numbered(number: u16, random: &mut Random) -> Quote {
        let bid = u32::from(number);
        let ask = bid + u32::from(random.below(1000));
        Quote::new(bid, ask).unwrap()
    }
}

impl Drawn for Curve {
    fn numbered(number: u16, random: &mut Random) -> Curve {
        let rate = i32::from(random.below(1000));
        Curve::new(-i32::from(number), rate, rate - 500, 0)
    }
}
