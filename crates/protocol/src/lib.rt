//! The protocol by which copies of one sheet are kept, and the proof that they never disagree. There is no code to speak of: the contract is what this crate is for.
#![tactic(auto)]

ghost use Rattle.protocol.specs.Law.{OrderHolds, TagsCompare};
ghost use Rattle.protocol.specs.Line.{Linearizable};

/// Whatever the network delivers, repeats or loses: in every run the operations that took effect stand in one line that keeps real time, across changes of the group, and each read returns what the last write ahead of it wrote.
pub fn order_holds()
    ensures order { OrderHolds }
    ensures line { Linearizable }
    ensures tags { TagsCompare }
{}
