//! Calls on a floor as values, and what they are answered.
#![tactic(auto)]

mod call;

pub use call::{Answer, Call, Turn};
