//! The calls that hand a sheet over to its next group: propose, settle and work.
#![tactic(auto)]

mod proposing;
mod settling;
mod working;

pub use proposing::propose;
pub use settling::settle;
pub use working::work;
