//! A kind of content: curves.
#![tactic(auto)]

mod curve;

pub use curve::{Curve, Rate};
