//! The proof that the calls of a floor are moves of the protocol. There is no code: the crate is there for its proofs.
#![tactic(auto)]
