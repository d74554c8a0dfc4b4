//! Work at the chooser.
ghost use Rattle.std.specs.Prelude.{◌≡◌};
ghost use Rattle.desk.specs.Tables.{tables};
ghost use Rattle.handover.specs.Working.{WorkStep};

use chooser::Chooser;
use desk::{Desk, served};
use fault::Fault;
use tables::{NodeRecord, OperationRow, ProposalRow};

/// Hands a step of work to the chooser. Refused with 21 and the chooser's number where the chooser refuses it.
pub fn work<S: Chooser>(
    desk: &Desk,
    chooser: &mut S,
    nodes: &[NodeRecord],
    operations: &[OperationRow],
    frames: &[u8],
    proposals: &[ProposalRow],
    number: u8,
    step: u8,
    ballot: u8,
    set: u8,
) -> Result<(), Fault>
    ensures { WorkStep S.working desk.now (tables nodes.now operations.now frames.now proposals.now) chooser.old number step ballot set result chooser.new }
{
    served(desk, nodes, operations, frames, proposals)?;
    chooser.work(number, step, ballot, set)?;
    Ok(())
}
