//! The calls that start an operation: read, write and regroup.
#![tactic(auto)]

mod calls;
mod grounds;
mod start;

pub use calls::{read, regroup, write};
pub use grounds::taking_part;
pub use start::Start;
