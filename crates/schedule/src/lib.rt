//! Schedules: calls on a floor made one after the other, and the order law on what they were answered.
#![tactic(auto)]

mod making;
mod order;
mod playing;

pub use making::make_call;
pub use order::order_holds;
pub use playing::play;
