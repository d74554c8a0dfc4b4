//! The chooser that decides by ballots among five acceptors of each number.
#![tactic(auto)]

mod runs;
mod synod;

pub use runs::play;
pub use synod::Synod;
