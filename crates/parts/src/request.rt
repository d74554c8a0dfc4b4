//! Requests, as they stand on a line.
use crate::choosers::step_of;
use chooser::Call;
use frame::SLOT;
use quorum::LARGEST_GROUP;
use std::error::Error;
use std::fmt;
use std::num::ParseIntError;
use std::str::{FromStr, SplitWhitespace};

/// What a line asks for.
#[derive(Clone, Copy)]
pub(crate) enum Request {
    /// `quote BID ASK`: make it, write it, read it back
    Quote {
        bid: u32,
        ask: u32,
    },
    /// `bytes HH HH HH HH HH HH HH HH`: read a quote
    QuoteBytes {
        bytes: [u8; 8],
    },
    /// `curve RATE RATE RATE RATE`: make it, write it, read it back
    Curve {
        rates: [i32; 4],
    },
    /// `majority SIZE`: which sets win
    Majority {
        size: u8,
    },
    /// `weighted WEIGHT ..`: which sets win in a group with a place for each weight; a rule has seven weights, whatever the size
    Weighted {
        weights: [u8; LARGEST_GROUP],
        size: u8,
    },
    /// `put BID ASK from NODE to NODE NODE NODE`: the frames of a put to three machines
    Put {
        bid: u32,
        ask: u32,
        sender: u8,
        receivers: [u8; 3],
    },
    /// `frame HH ..`: read a frame, whose bytes that are not given are 0
    Frame {
        bytes: [u8; SLOT],
    },
    /// `offer NUMBER VALUE`, `promise NUMBER BALLOT by ACCEPTOR ..` and so `fix`, `accept` and `count`, or `work NUMBER STEP BALLOT SET`: write the call down
    Call(Call),
    /// `ledger`: make the calls on a ledger
    Ledger,
    /// `synod`, by majority, or `synod WEIGHT ..`: make the calls on a synod
    Synod {
        weights: Option<[u8; LARGEST_GROUP]>,
    },
}

/// A line that is no request.
#[derive(Clone, Copy, Debug, PartialEq, Eq)]
pub(crate) struct NotUnderstood;

// By hand: a derive of it is another crate's, and no shorter.
impl fmt::Display for NotUnderstood {
    fn fmt<W: fmt::Write>(&self, f: &mut fmt::Formatter<W>) -> fmt::Result {
        write!(f, "not understood")
    }
}

impl Error for NotUnderstood {}

/// What the line asks for; nothing if it is empty or begins with '#'.
pub(crate) fn parse(line: &str) -> Result<Option<Request>, NotUnderstood> {
    let mut words = Words(line.split_whitespace());
    let Some(name) = words.word().filter(|word| !word.starts_with('#')) else {
        return Ok(None);
    };
    let request = words.request(name).ok_or(NotUnderstood)?;
    Ok(Some(request))
}

// The words of a line that are still to be read.
#[derive(Drop)]
struct Words<'a>(SplitWhitespace<'a>);

impl<'a> Words<'a> {
    fn word(&mut self) -> Option<&'a str> {
        self.0.next()
    }

    // The request of this name, whose words are all that are left. Each name has other words, so there is no table of readers.
    fn request(&mut self, name: &str) -> Option<Request> {
        let request = match name {
            "quote" => {
                let [bid, ask]: [u32; 2] = self.all(number)?;
                Request::Quote { bid, ask }
            }
            "bytes" => {
                let bytes = self.all(hexadecimal_byte)?;
                Request::QuoteBytes { bytes }
            }
            "curve" => {
                let rates = self.all(number)?;
                Request::Curve { rates }
            }
            "majority" => {
                let size = self.word().and_then(number)?;
                Request::Majority { size }
            }
            "weighted" => self.weighted()?,
            "put" => self.put()?,
            "frame" => self.frame()?,
            "offer" => self.offer()?,
            "work" => self.work()?,
            "ledger" => Request::Ledger,
            "synod" => self.synod()?,
            _ => self.named_work(step_of(name)?)?,
        };
        self.word().is_none().then_some(request)
    }

    fn weighted(&mut self) -> Option<Request> {
        let (weights, given) = self.weights()?;
        let size = u8::try_from(given).ok()?;
        Some(Request::Weighted { weights, size })
    }

    fn synod(&mut self) -> Option<Request> {
        let (weights, given) = self.weights()?;
        let weights = (given > 0).then_some(weights);
        Some(Request::Synod { weights })
    }

    // The weights that come, then 0, and how many came.
    fn weights(&mut self) -> Option<([u8; LARGEST_GROUP], usize)> {
        let mut weights = [0; LARGEST_GROUP];
        let given = self.fill(&mut weights, number)?;
        Some((weights, given))
    }

    fn offer(&mut self) -> Option<Request> {
        let [number, value]: [u8; 2] = self.all(number)?;
        Some(Request::Call(Call::Offer { number, value }))
    }

    fn work(&mut self) -> Option<Request> {
        let [number, step, ballot, set]: [u8; 4] = self.all(number)?;
        Some(Request::Call(Call::Work {
            number,
            step,
            ballot,
            set,
        }))
    }

    // Work whose step is named by the line's first word.
    fn named_work(&mut self, step: u8) -> Option<Request> {
        let [number, ballot]: [u8; 2] = self.all(number)?;
        self.expect("by")?;
        let set = self.places()?;
        Some(Request::Call(Call::Work {
            number,
            step,
            ballot,
            set,
        }))
    }

    // The set of all the places that come; none if none comes, or if a word is no place.
    fn places(&mut self) -> Option<u8> {
        let set = self.0.try_fold(0, |set, word| Some(set | place(word)?))?;
        (set != 0).then_some(set)
    }

    fn put(&mut self) -> Option<Request> {
        let [bid, ask]: [u32; 2] = self.all(number)?;
        self.expect("from")?;
        let sender = self.word().and_then(number)?;
        self.expect("to")?;
        let receivers = self.all(number)?;
        Some(Request::Put {
            bid,
            ask,
            sender,
            receivers,
        })
    }

    fn frame(&mut self) -> Option<Request> {
        let mut bytes = [0; SLOT];
        self.fill(&mut bytes, hexadecimal_byte)?;
        Some(Request::Frame { bytes })
    }

    fn expect(&mut self, wanted: &str) -> Option<()> {
        (self.word()? == wanted).then_some(())
    }

    // As many values as the caller takes; none if the words are too few, or one is no value.
    fn all<T: Copy + Default, const N: usize, F: Fn(&str) -> Option<T>>(
        &mut self,
        read: F,
    ) -> Option<[T; N]>
        requires { F.IsAlwaysCallable read }
    {
        let mut values = [T::default(); N];
        let given = self.fill(&mut values, read)?;
        (given == N).then_some(values)
    }

    // Fills the values from the words that come, as far as these go, and says how many came; none if one is no value.
    fn fill<T: Drop, F: Fn(&str) -> Option<T>>(
        &mut self,
        values: &mut [T],
        read: F,
    ) -> Option<usize>
        requires { F.IsAlwaysCallable read }
    {
        for (count, value) in values.iter_mut().enumerate() {
            let Some(word) = self.word() else {
                return Some(count);
            };
            *value = read(word)?;
        }
        Some(values.len())
    }
}

fn number<T: FromStr<Err = ParseIntError>>(word: &str) -> Option<T> {
    word.parse().ok()
}

// The set of one place, 0 to 7.
fn place(word: &str) -> Option<u8> {
    let place = number(word)?;
    1u8.checked_shl(place)
}

// The byte of two hexadecimal digits.
fn hexadecimal_byte(word: &str) -> Option<u8> {
    if word.len() != 2 || word.starts_with('+') {
        return None;
    }
    u8::from_str_radix(word, 16).ok()
}
