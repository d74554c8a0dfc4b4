//! A kind of content: quotes.
#![tactic(auto)]

mod quote;

pub use quote::Quote;
