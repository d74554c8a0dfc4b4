//! Playing calls one after the other.
ghost use Rattle.std.specs.Prelude.{◌≡◌};
ghost use Rattle.floor.specs.State.{state};
ghost use Rattle.law.specs.Runs.{parts, calls_of, beginning};
ghost use Rattle.schedule.specs.Played.{PlayedInOrder};

use crate::making::make_call;
use crate::order::order_holds;
use calls::Turn;
use chooser::Chooser;
use content::Content;
use floor::Floor;
use quorum::QuorumRule;
use tables::{NodeRecord, OperationRow, ProposalRow};

/// Makes a closed floor with the rule and the chooser, makes the calls of the turns on it, one after the other, and writes into each turn what its call was answered. Of this run the order law holds. The floor is answered as the last call left it.
pub fn play<C: Content, Q: QuorumRule + Drop, S: Chooser + Drop>(
    rule: Q,
    chooser: S,
    nodes: &mut [NodeRecord],
    operations: &mut [OperationRow],
    frames: &mut [u8],
    proposals: &mut [ProposalRow],
    turns: &mut [Turn<C>],
) -> Floor<C, Q, S>
    ensures played { PlayedInOrder (parts C.width C.meaning C.reads Q.winning S.decided S.offering S.working) (beginning rule chooser nodes.old operations.old frames.old proposals.old) turns.new (state result nodes.new operations.new frames.new proposals.new) }
    ensures same_calls { calls_of turns.new ≡ calls_of turns.old }
{
    // for its promise: the law of every run, and so of the one that is made here
    order_holds::<C, Q, S>();
    let mut floor = Floor::new(rule, chooser);
    for turn in turns.iter_mut() {
        let answer = make_call(&mut floor, nodes, operations, frames, proposals, &turn.call);
        turn.answer = Some(answer);
    }
    floor
}
