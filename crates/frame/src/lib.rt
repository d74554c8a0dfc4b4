//! The format of frames: why bytes are no frame, what a frame says, and the bounds of its fields.
#![tactic(auto)]

mod fault;
mod kind;
mod limits;
mod message;

pub use fault::{Cause, FrameFault};
pub use kind::FrameKind;
pub use limits::{HIGHEST_NODE, HIGHEST_NUMBER, HIGHEST_OPERATION, HIGHEST_VERSION, SLOT};
pub use message::{Head, Message, Tag};
