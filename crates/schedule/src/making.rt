//! Making one call on a floor.
ghost use Rattle.std.specs.Prelude.{◌≡◌};
ghost use Rattle.floor.specs.State.{desk_of, state};
ghost use Rattle.law.specs.Runs.{parts, told, zero_told, number_told, row_told, Step};
ghost use Rattle.delivery.specs.Delivery.{number};
ghost use Rattle.desk.specs.Ending.{may_look};
ghost use Rattle.desk.specs.Tables.{tables};
ghost use Rattle.stopping.specs.Grounds.{StopsRightly};

use calls::{Answer, Call};
use chooser::Chooser;
use content::Content;
use delivery::Delivery;
use fault::Fault;
use floor::Floor;
use frame::Tag;
use quorum::QuorumRule;
use tables::{
    Members, NodeRecord, OperationKind, OperationRow, OperationState, ProposalRow, SheetCopy,
};

/// Makes a call on a floor, and answers what it answered.
pub fn make_call<C: Content, Q: QuorumRule + Drop, S: Chooser + Drop>(
    floor: &mut Floor<C, Q, S>,
    nodes: &mut [NodeRecord],
    operations: &mut [OperationRow],
    frames: &mut [u8],
    proposals: &mut [ProposalRow],
    call: &Call<C>,
) -> Result<Answer, Fault>
    ensures does { Step (parts C.width C.meaning C.reads Q.winning S.decided S.offering S.working) (state floor.old nodes.old operations.old frames.old proposals.old) call.now result (state floor.new nodes.new operations.new frames.new proposals.new) }
    ensures stops_rightly { StopsRightly (parts C.width C.meaning C.reads Q.winning S.decided S.offering S.working) (state floor.old nodes.old operations.old frames.old proposals.old) call.now result (state floor.new nodes.new operations.new frames.new proposals.new) }
{
    match call {
        Call::Open {
            count,
            members,
            content,
        } => zero(floor.open(
            nodes, operations, frames, proposals, *count, *members, content,
        )),
        Call::Read { node } => numbered(floor.read(nodes, operations, frames, proposals, *node)),
        Call::Write { node, content } => numbered(floor.write(
            nodes, operations, frames, proposals, *node, content,
        )),
        Call::Regroup { node, members } => numbered(floor.regroup(
            nodes, operations, frames, proposals, *node, *members,
        )),
        Call::Propose { operation } => counted(floor.propose(
            nodes, operations, frames, proposals, *operation,
        )),
        Call::Settle { node } => counted(floor.settle(nodes, operations, frames, proposals, *node)),
        Call::Work {
            number,
            step,
            ballot,
            set,
        } => zero(floor.work(
            nodes, operations, frames, proposals, *number, *step, *ballot, *set,
        )),
        Call::Deliver { slot } => delivered(floor.deliver(
            nodes, operations, frames, proposals, *slot,
        )),
        Call::Lose { slot } => zero(floor.lose(nodes, operations, frames, proposals, *slot)),
        Call::GiveUp { operation } => zero(floor.give_up(
            nodes, operations, frames, proposals, *operation,
        )),
        Call::Stop { node } => zero(floor.stop(nodes, operations, frames, proposals, *node)),
        Call::Look { operation } => look(floor, nodes, operations, frames, proposals, *operation),
    }
}

fn zero(answer: Result<(), Fault>) -> Result<Answer, Fault>
    ensures { result ≡ zero_told answer }
{
    answer?;
    Ok(Answer::Number(0))
}

fn numbered(answer: Result<u16, Fault>) -> Result<Answer, Fault>
    ensures { result ≡ number_told answer }
{
    Ok(Answer::Number(answer?))
}

fn counted(answer: Result<u8, Fault>) -> Result<Answer, Fault>
    ensures { result ≡ number_told answer }
{
    Ok(Answer::Number(u16::from(answer?)))
}

fn delivered(answer: Result<Delivery, Fault>) -> Result<Answer, Fault>
    ensures { result ≡ told number answer }
{
    Ok(Answer::Number(u16::from(answer?.number())))
}

// The row that a look answers.
fn look<C: Content, Q: QuorumRule + Drop, S: Chooser + Drop>(
    floor: &Floor<C, Q, S>,
    nodes: &[NodeRecord],
    operations: &[OperationRow],
    frames: &[u8],
    proposals: &[ProposalRow],
    operation: u16,
) -> Result<Answer, Fault>
    ensures { result ≡ row_told (may_look (desk_of floor.now) (tables nodes.now operations.now frames.now proposals.now) operation) }
{
    let mut row = blank_row();
    match floor.look(nodes, operations, frames, proposals, operation, &mut row) {
        Ok(()) => Ok(Answer::Row(row)),
        Err(fault) => Err(fault),
    }
}

// A place for a row to be answered into.
fn blank_row() -> OperationRow {
    OperationRow {
        kind: OperationKind::Read,
        node: 0,
        number: 0,
        copy: SheetCopy::new(
            Tag {
                version: 0,
                node: 0,
            },
            &[],
        ),
        members: Members::new(&[]),
        set: 0,
        state: OperationState::Open,
        start: 0,
        answer: 0,
    }
}
