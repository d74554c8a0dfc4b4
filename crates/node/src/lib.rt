//! What a node does with a frame: judged on the tables as they are, into a plan, and then applied.
#![tactic(auto)]

mod acknowledging;
mod applying;
mod conditions;
mod counting;
mod joining;
mod judging;
mod plan;
mod received;

pub use applying::{write_record, write_row};
pub use judging::judge;
pub use plan::{Plan, Reply, RowPlan};
