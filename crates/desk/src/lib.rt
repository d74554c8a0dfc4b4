//! What a floor keeps beside its rule and its chooser, what every call asks first, and the calls that send no frames.
#![tactic(auto)]

mod asking;
mod desk;
mod ending;
mod lists;
mod opening;

pub use asking::{record_of, running, served, started};
pub use desk::{Desk, Lengths, MOST_OPERATIONS, MOST_PROPOSALS, MOST_SLOTS, NODES};
pub use ending::{give_up, look, lose, stop};
pub use lists::is_lawful;
pub use opening::open;
