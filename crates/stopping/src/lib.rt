//! On which grounds calls stop: the table of grounds, and that every call keeps to it. There is no code: the crate is there for the statement and its proof.
#![tactic(auto)]
