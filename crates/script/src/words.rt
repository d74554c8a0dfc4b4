//! The words of a line that are still to be read.
ghost use Rattle.std.specs.Prelude.{◌≤◌, length, IfOk};

use crate::expected::Expected;
use quorum::LARGEST_GROUP;
use std::iter::Peekable;
use std::num::ParseIntError;
use std::str::{FromStr, SplitWhitespace};
use tables::Members;

/// Words, with a look at the next.
#[derive(Drop)]
pub(crate) struct Words<'a>(Peekable<SplitWhitespace<'a>>);

impl<'a> Words<'a> {
    /// The words of a line, up to its comment.
    pub(crate) fn of(line: &'a str) -> Words<'a> {
        let text = match line.split_once('#') {
            Some((text, _)) => text,
            None => line,
        };
        Words(text.split_whitespace().peekable())
    }

    /// The next word, if there is one.
    pub(crate) fn word(&mut self) -> Option<&'a str> {
        self.0.next()
    }

    /// This word.
    pub(crate) fn expect(&mut self, wanted: &'static str) -> Result<(), Expected> {
        match self.word() {
            Some(word) if word == wanted => Ok(()),
            _ => Err(Expected::Word(wanted)),
        }
    }

    /// The end of the line.
    pub(crate) fn end(&mut self) -> Result<(), Expected> {
        match self.word() {
            Some(_) => Err(Expected::Words("the end of the line")),
            None => Ok(()),
        }
    }

    /// A number of one byte, by its name.
    pub(crate) fn byte(&mut self, name: &'static str) -> Result<u8, Expected> {
        self.number(Expected::Byte(name))
    }

    /// A number of two bytes, by its name.
    pub(crate) fn two_bytes(&mut self, name: &'static str) -> Result<u16, Expected> {
        self.number(Expected::TwoBytes(name))
    }

    /// A number of the type that the caller takes.
    pub(crate) fn number<T: FromStr<Err = ParseIntError> + Drop>(
        &mut self,
        expected: Expected,
    ) -> Result<T, Expected> {
        self.word()
            .and_then(|word| word.parse().ok())
            .ok_or(expected)
    }

    /// As many numbers of one byte as the slice has, which takes them.
    pub(crate) fn bytes(&mut self, bytes: &mut [u8], expected: Expected) -> Result<(), Expected> {
        for byte in bytes.iter_mut() {
            *byte = self.number(expected)?;
        }
        Ok(())
    }

    /// The members that come up to the word `content` or the end, at most seven.
    pub(crate) fn members(&mut self) -> Result<Members, Expected> {
        let mut nodes = [0; LARGEST_GROUP];
        let count = self.fill(&mut nodes)?;
        Ok(Members::new(&nodes[..count]))
    }

    // Fills the slice from the words that come up to the word `content` or the end, as far as these go, and says how many came.
    fn fill(&mut self, nodes: &mut [u8]) -> Result<usize, Expected>
        ensures { IfOk result (λ count. count ≤ length nodes.old) }
    {
        for (count, node) in nodes.iter_mut().enumerate() {
            let Some(word) = self.0.next_if(|word| *word != "content") else {
                return Ok(count);
            };
            *node = word.parse().ok().ok_or(Expected::Byte("M"))?;
        }
        match self.0.next_if(|word| *word != "content") {
            Some(_) => Err(Expected::Words("at most seven members")),
            None => Ok(nodes.len()),
        }
    }
}
