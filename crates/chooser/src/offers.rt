//! The offers under the numbers of a chooser.
ghost use Rattle.std.specs.Prelude.{◌≡◌, ℕ, ◌≤◌, length, slice_index};
ghost use Rattle.chooser.specs.Limits.{numbers, most_offers, highest_offer};

use crate::{ChooserRefusal, MOST_OFFERS, NUMBERS};

/// The offers under one number, at most eight, in the order in which they were made.
#[derive(Clone, Copy, Debug, PartialEq, Eq)]
pub struct Offers {
    values: [u8; MOST_OFFERS],
    count: usize,
    ghost eight: { length values ≡ most_offers },
    ghost bytes: { (place : ℕ) → slice_index values place ≤ highest_offer },
    ghost few: { count ≤ most_offers },
}

impl Offers {
    ghost use Rattle.std.specs.Prelude.{[]};
    ghost use Rattle.chooser.specs.Meaning.{offer_taken, offers_with};
    ghost use Rattle.chooser.specs.Listed.{listed};

    // No offers yet.
    fn new() -> Offers
        ensures { listed result ≡ [] }
    {
        Offers {
            values: [0; MOST_OFFERS],
            count: 0,
        }
    }

    // One more offer; refused with 2 where eight stand.
    fn add(&mut self, value: u8) -> Result<(), ChooserRefusal>
        ensures answered { result ≡ offer_taken (listed self.old) }
        ensures appended { listed self.new ≡ offers_with (offer_taken (listed self.old)) (listed self.old) value }
    {
        if self.count >= MOST_OFFERS {
            return Err(ChooserRefusal::Full);
        }
        self.values[self.count] = value;
        self.count += 1;
        Ok(())
    }

    /// The offers that stand.
    pub fn as_slice(&self) -> &[u8]
        ensures { result.now ≡ listed self.now }
    {
        &self.values[..self.count]
    }
}

/// The offers under all numbers.
#[derive(Debug, PartialEq, Eq, Drop)]
pub struct OfferTable {
    offers: [Offers; NUMBERS as usize],
    ghost sixteen: { length offers ≡ numbers },
}

impl OfferTable {
    ghost use Rattle.chooser.specs.Meaning.{no_offers, offers_at, offer_answer, lists_with};
    ghost use Rattle.chooser.specs.Listed.{listed, lists_of};

    /// No offers yet.
    pub fn new() -> OfferTable
        ensures { lists_of result ≡ no_offers }
    {
        OfferTable {
            offers: [Offers::new(); NUMBERS as usize],
        }
    }

    /// One more offer under the number; refused with 1 where there is no such number, with 2 where eight stand.
    pub fn add(&mut self, number: u8, value: u8) -> Result<(), ChooserRefusal>
        ensures answered { result ≡ offer_answer (lists_of self.old) number }
        ensures appended { lists_of self.new ≡ lists_with (offer_answer (lists_of self.old) number) (lists_of self.old) number value }
    {
        if number >= NUMBERS {
            return Err(ChooserRefusal::TooHigh);
        }
        let at = usize::from(number);
        let mut offers = self.offers[at];
        offers.add(value)?;
        self.offers[at] = offers;
        Ok(())
    }

    /// The offers that stand under the number, none where there is no such number.
    pub fn under(&self, number: u8) -> Offers
        ensures { listed result ≡ offers_at (lists_of self.now) number }
    {
        match self.offers.get(usize::from(number)) {
            Some(offers) => *offers,
            None => Offers::new(),
        }
    }
}
