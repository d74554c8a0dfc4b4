//! Writes frames into the frame table.
#![tactic(auto)]

mod layout;
mod placing;

pub use placing::{frame_of, place};
