//! The order law: what holds of what clients were told, in every run of calls on a floor. There is no code: the crate is there for the statement and its proof.
#![tactic(auto)]
