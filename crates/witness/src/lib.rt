//! Two runs of the protocol that exist, so that the law on its runs is not about nothing.
#![tactic(auto)]

ghost use Rattle.witness.specs.Witnesses.{RunsExist};

/// There is a run that hands a write over to the next group, and one in which a write that is not answered comes to light as the opening copy of a later group.
pub fn runs_exist()
    ensures runs { RunsExist }
{}
