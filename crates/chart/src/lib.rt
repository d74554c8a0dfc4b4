//! Charts: what each call on a floor did, and how that stands in a sequence diagram.
#![tactic(auto)]

mod arrow;
mod drawing;
mod event;
mod labels;
mod step;

pub use arrow::{Arrow, arrow_in};
pub use drawing::{Drawing, Participants};
pub use event::{Change, Event, Sight, happened};
pub use step::{Decision, Step, decided};
