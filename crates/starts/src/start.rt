//! How an operation starts.
ghost use Rattle.std.specs.Prelude.{◌≡◌, ◌<◌};
ghost use Rattle.frame.specs.Limits.{highest_version};
ghost use Rattle.starts.specs.Grounds.{begun, start_of, read_start, written, write_start, regroup_start};

use content::Content;
use desk::Desk;
use frame::Tag;
use slots::{Body, Letter};
use tables::{
    Members, NodeRecord, OperationKind, OperationRow, OperationState, SheetCopy, Status,
    next_moment,
};

/// How an operation starts: the record of its node as it will be, its row, and the letter that goes to each present member of the node's group.
#[derive(Clone, Copy, Debug, PartialEq, Eq)]
pub struct Start {
    pub node: NodeRecord,
    pub row: OperationRow,
    pub letter: Letter,
}

/// A read begins with the copy that the node serves.
pub(crate) fn read_start(desk: &Desk, node: u8, found: NodeRecord) -> Start
    ensures { result ≡ read_start desk.now node found }
{
    let members = found.configuration.members;
    let row = begun(
        desk,
        node,
        found,
        OperationKind::Read,
        found.served,
        members,
    );
    let operation = desk.operations_used;
    start_of(node, found, row, Body::Get { operation })
}

/// A write gives out the version after the newest; that there is one was asked before.
pub(crate) fn write_start<C: Content>(
    desk: &Desk,
    node: u8,
    found: NodeRecord,
    content: &C,
) -> Start
    requires { found.newest < highest_version }
    ensures { result ≡ write_start desk.now node found (C.meaning content.now) }
{
    let version = found.newest + 1;
    let copy = SheetCopy {
        tag: Tag { version, node },
        content: content.to_bytes(),
    };
    let members = found.configuration.members;
    let row = begun(desk, node, found, OperationKind::Write, copy, members);
    let mut after = found;
    after.newest = version;
    let operation = desk.operations_used;
    start_of(node, after, row, Body::Put { operation, copy })
}

/// A regroup freezes its node, and begins with the copy that the node serves and with the new members.
pub(crate) fn regroup_start(desk: &Desk, node: u8, found: NodeRecord, members: Members) -> Start
    ensures { result ≡ regroup_start desk.now node found members }
{
    let row = begun(
        desk,
        node,
        found,
        OperationKind::Regroup,
        found.served,
        members,
    );
    let mut after = found;
    after.status = Status::Frozen;
    let operation = desk.operations_used;
    start_of(node, after, row, Body::Freeze { operation })
}

// A row as it begins: open, nobody has acknowledged it, and it keeps the next moment.
fn begun(
    desk: &Desk,
    node: u8,
    found: NodeRecord,
    kind: OperationKind,
    copy: SheetCopy,
    members: Members,
) -> OperationRow
    ensures { result ≡ begun desk.now node found kind copy members }
{
    OperationRow {
        kind,
        node,
        number: found.configuration.number,
        copy,
        members,
        set: 0,
        state: OperationState::Open,
        start: next_moment(desk.moment),
        answer: 0,
    }
}

// The row, and a letter with this body to each present member.
fn start_of(node: u8, found: NodeRecord, row: OperationRow, body: Body) -> Start
    ensures { result ≡ start_of node found row body }
{
    let letter = Letter {
        sender: node,
        number: found.configuration.number,
        body,
    };
    Start {
        node: found,
        row,
        letter,
    }
}
