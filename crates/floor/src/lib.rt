//! The floor: all nodes of a sheet and all frames under way between them, at a host that owns the tables.
#![tactic(auto)]

mod floor;

pub use delivery::Delivery;
pub use fault::Fault;
pub use floor::Floor;
