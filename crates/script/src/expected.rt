//! What a line has to have where it cannot be read.
use std::error::Error;
use std::fmt;

/// What was expected. Numbers go by the names that the document on schedules gives them.
#[derive(Clone, Copy, Debug)]
pub enum Expected {
    /// a number of one byte
    Byte(&'static str),
    /// a number of two bytes
    TwoBytes(&'static str),
    /// this word
    Word(&'static str),
    /// something that has no name
    Words(&'static str),
}

impl fmt::Display for Expected {
    fn fmt<W: fmt::Write>(&self, f: &mut fmt::Formatter<W>) -> fmt::Result {
        match self {
            Expected::Byte(name) => write!(f, "{name}, a number 0 to {}", u8::MAX),
            Expected::TwoBytes(name) => write!(f, "{name}, a number 0 to {}", u16::MAX),
            Expected::Word(word) => write!(f, "the word {word}"),
            Expected::Words(words) => write!(f, "{words}"),
        }
    }
}

impl Error for Expected {}
