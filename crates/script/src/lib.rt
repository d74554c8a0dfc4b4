//! Schedules as text: the sheets and the calls that their lines stand for.
#![tactic(auto)]

mod call_words;
mod expected;
mod header;
mod kind;
mod line;
mod sheets;
#[cfg(test)]
mod tests;
mod text;
mod words;

pub use expected::Expected;
pub use header::{Header, KindName, NamedChooser, NamedRule};
pub use line::Table;
pub use sheets::{AnySheet, LineFault, Sheet, take_line};
pub use text::{Hexadecimal, Numbers, Places};
