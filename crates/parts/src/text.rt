//! How bytes and sets of places are printed.
use std::fmt;

/// Bytes, two digits each, a blank between two.
#[derive(Clone, Copy)]
pub struct Hexadecimal<'a>(pub &'a [u8]);

impl fmt::Display for Hexadecimal<'_> {
    fn fmt<W: fmt::Write>(&self, f: &mut fmt::Formatter<W>) -> fmt::Result {
        if let [first, others @ ..] = self.0 {
            write!(f, "{first:02X}")?;
            for byte in others {
                write!(f, " {byte:02X}")?;
            }
        }
        Ok(())
    }
}

/// The places of a set, a '+' between two.
#[derive(Clone, Copy)]
pub struct Places(pub u8);

impl fmt::Display for Places {
    fn fmt<W: fmt::Write>(&self, f: &mut fmt::Formatter<W>) -> fmt::Result {
        let mut places = (0..8u32).filter(|place| (self.0 >> *place) & 1 == 1);
        if let Some(first) = places.next() {
            write!(f, "{first}")?;
            for place in places {
                write!(f, "+{place}")?;
            }
        }
        Ok(())
    }
}
