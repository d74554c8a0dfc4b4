//! How numbers, sets of places and bytes are printed: each behind a blank, so that an empty list leaves none.
use std::fmt;

/// Numbers of a byte.
#[derive(Clone, Copy)]
pub struct Numbers<'a>(pub &'a [u8]);

impl fmt::Display for Numbers<'_> {
    fn fmt<W: fmt::Write>(&self, f: &mut fmt::Formatter<W>) -> fmt::Result {
        for number in self.0 {
            write!(f, " {number}")?;
        }
        Ok(())
    }
}

/// The places of a set.
#[derive(Clone, Copy)]
pub struct Places(pub u8);

impl fmt::Display for Places {
    fn fmt<W: fmt::Write>(&self, f: &mut fmt::Formatter<W>) -> fmt::Result {
        for place in (0..u8::BITS).filter(|place| (self.0 >> *place) & 1 == 1) {
            write!(f, " {place}")?;
        }
        Ok(())
    }
}

/// Bytes, two digits each.
#[derive(Clone, Copy)]
pub struct Hexadecimal<'a>(pub &'a [u8]);

impl fmt::Display for Hexadecimal<'_> {
    fn fmt<W: fmt::Write>(&self, f: &mut fmt::Formatter<W>) -> fmt::Result {
        for byte in self.0 {
            write!(f, " {byte:02X}")?;
        }
        Ok(())
    }
}
