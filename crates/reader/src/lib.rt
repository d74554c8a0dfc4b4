//! Reads frames: checks a slot field by field, and tells what it says.
#![tactic(auto)]

mod checks;
mod fields;
mod reads;

pub use checks::check;
pub use reads::read;
