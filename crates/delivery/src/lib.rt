//! Delivering a frame to its receiver.
#![tactic(auto)]

mod call;
mod delivery;

pub use call::deliver;
pub use delivery::Delivery;
