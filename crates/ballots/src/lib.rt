//! Ballots: how a value is decided under one number, by five acceptors. The host drives it step by step.
#![tactic(auto)]

mod instance;
mod sets;

pub use instance::{Acceptor, Instance};

/// How many acceptors a number has.
pub const ACCEPTORS: usize = 5;

/// The highest ballot; the lowest is 1.
pub const LAST_BALLOT: u8 = 15;
