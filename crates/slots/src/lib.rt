//! The frame table: which slots are empty, sending frames into them, and losing one. A slice of bytes of any length is a table: a slot is 32 bytes, and bytes behind the last whole slot belong to none.
#![tactic(auto)]

mod letter;
mod table;

pub use letter::{Body, Letter};
pub use table::{empty_count, lose, lowest_empty, may_send, occupied, send};
