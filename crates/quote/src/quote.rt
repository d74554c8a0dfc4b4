//! Quotes: how they are made, written and read.
ghost use Rattle.std.specs.Prelude.{◌^◌, ◌<◌, ◌≤◌};

use content::{Content, WIDEST};
use refusal::Refusal;
use std::fmt;

/// A bid and an ask, in the smallest unit of price. The bid is at most the ask: there is no other quote.
#[derive(Clone, Copy, Debug, PartialEq, Eq)]
pub struct Quote {
    /// at what price the broker buys
    pub bid: u32,
    /// at what price the broker sells
    pub ask: u32,
    ghost ordered: { bid ≤ ask },
    // what the type u32 keeps anyway, said for the laws
    ghost fits: { ask < 2 ^ 32 },
}

impl Quote {
    ghost use Rattle.std.specs.Prelude.{◌≡◌};
    ghost use Rattle.std.specs.Option.{ok_or};
    ghost use Rattle.refusal.specs.declared.Refusal.TheVariants.{Unlawful};
    ghost use Rattle.quote.specs.Quote.{quote_of};

    /// The quote of a bid and an ask, as `Quote::new(500, 510)?`; refused if the bid is above the ask.
    pub fn new(bid: u32, ask: u32) -> Result<Quote, Refusal>
        ensures { result ≡ ok_or (quote_of bid ask) Unlawful }
    {
        if bid > ask {
            return Err(Refusal::Unlawful);
        }
        Ok(Quote { bid, ask })
    }
}

impl Content for Quote {
    ghost use Rattle.quote.specs.Quote.{quote_bytes, quote_read};
    ghost use Rattle.quote.specs.QuoteLaws.{quote_reads_written, quote_writes_read};
    ghost use Rattle.std.proofs.Common.{rules};

    ghost width = { 8 };

    ghost meaning = { quote_bytes };

    ghost reads = { quote_read };

    ghost width_positive = { Prim.search rules };

    ghost width_bounded = { Prim.search rules };

    ghost meaning_fills_width = { Prim.search rules };

    ghost meaning_is_bytes = { Prim.search rules };

    ghost reads_written = { quote_reads_written };

    ghost writes_read = { quote_writes_read };

    fn width() -> usize {
        8
    }

    fn to_bytes(&self) -> [u8; WIDEST] {
        let mut bytes = [0; WIDEST];
        bytes[..4].copy_from_slice(&self.bid.to_be_bytes());
        bytes[4..8].copy_from_slice(&self.ask.to_be_bytes());
        bytes
    }

    fn from_bytes(bytes: &[u8]) -> Option<Quote> {
        let ([bid, ask], []) = bytes.as_chunks::<4>() else {
            return None;
        };
        let bid = u32::from_be_bytes(*bid);
        let ask = u32::from_be_bytes(*ask);
        Quote::new(bid, ask).ok()
    }
}

impl fmt::Display for Quote {
    ghost use Rattle.std.specs.Prelude.{Some};
    ghost use Rattle.quote.specs.Quote.{shown_quote};

    ghost output = { λ quote. Some (shown_quote quote) };

    fn fmt<W: fmt::Write>(&self, f: &mut fmt::Formatter<W>) -> fmt::Result {
        write!(f, "{} {}", self.bid, self.ask)
    }
}
