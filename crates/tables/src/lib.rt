//! The records of the host's tables: what nodes, operations and proposals keep. All are plain: a host may hand over any.
#![tactic(auto)]

mod copy;
mod members;
mod moment;
mod records;

pub use copy::SheetCopy;
pub use members::Members;
pub use moment::next_moment;
pub use records::{
    Configuration, NodeRecord, OperationKind, OperationRow, OperationState, ProposalRow, Status,
};
