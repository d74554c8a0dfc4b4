//! The order law of every run.
ghost use Rattle.law.specs.Law.{OrderHolds};
ghost use Rattle.law.specs.Runs.{parts};

use chooser::Chooser;
use content::Content;
use quorum::QuorumRule;

/// Whatever a host calls on a floor, in whatever order, and whatever the network delivers, repeats or loses: the order law holds of every run of calls from the floor's making on. For hosts that make the calls themselves; there is nothing to run, the contract is what this function is for.
pub fn order_holds<C: Content, Q: QuorumRule, S: Chooser>()
    ensures every_run { OrderHolds (parts C.width C.meaning C.reads Q.winning S.decided S.offering S.working) }
{}
