//! Tables for a host that has none yet: what the programs hand to every call.
#![tactic(auto)]

ghost use Rattle.std.specs.Prelude.{◌≡◌, IfOk};
ghost use Rattle.desk.specs.Tables.{tables};
ghost use Rattle.host.specs.Fresh.{fresh, blank_copy, blank_record, blank_operation, blank_proposal};

use content::WIDEST;
use desk::NODES;
use frame::{SLOT, Tag};
use std::alloc::{AllocError, Global};
use tables::{
    Configuration, Members, NodeRecord, OperationKind, OperationRow, OperationState, ProposalRow,
    SheetCopy, Status,
};

/// How many rows and slots the tables have. The node records are always sixteen.
#[derive(Clone, Copy, Debug, PartialEq, Eq)]
pub struct TableLengths {
    pub operations: u16,
    pub slots: u16,
    pub proposals: u16,
}

/// The four tables that a host hands to every call.
#[derive(Drop)]
pub struct HostTables {
    pub nodes: Vec<NodeRecord>,
    pub operations: Vec<OperationRow>,
    pub frames: Vec<u8>,
    pub proposals: Vec<ProposalRow>,
}

impl HostTables {
    /// Tables of these lengths, in which everything is 0 or empty. A floor takes them if the lengths are allowed.
    pub fn new(alloc: Global, lengths: TableLengths) -> Result<HostTables, AllocError>
        ensures made { IfOk result (λ host. tables host.nodes.items host.operations.items host.frames.items host.proposals.items ≡ fresh lengths) }
    {
        let bytes = SLOT * usize::from(lengths.slots);
        Ok(HostTables {
            nodes: vec![in alloc; blank_record(); NODES]?,
            operations: vec![in alloc; blank_operation(); usize::from(lengths.operations)]?,
            frames: vec![in alloc; 0; bytes]?,
            proposals: vec![in alloc; blank_proposal(); usize::from(lengths.proposals)]?,
        })
    }
}

// No write's tag.
const NO_TAG: Tag = Tag {
    version: 0,
    node: 0,
};

fn blank_copy() -> SheetCopy
    ensures { result ≡ blank_copy }
{
    SheetCopy {
        tag: NO_TAG,
        content: [0; WIDEST],
    }
}

fn blank_record() -> NodeRecord
    ensures { result ≡ blank_record }
{
    let configuration = Configuration {
        number: 0,
        members: Members::new(&[]),
        opening: NO_TAG,
    };
    NodeRecord {
        status: Status::Idle,
        stopped: false,
        configuration,
        stored: blank_copy(),
        served: blank_copy(),
        newest: 0,
    }
}

fn blank_operation() -> OperationRow
    ensures { result ≡ blank_operation }
{
    OperationRow {
        kind: OperationKind::Read,
        node: 0,
        number: 0,
        copy: blank_copy(),
        members: Members::new(&[]),
        set: 0,
        state: OperationState::Open,
        start: 0,
        answer: 0,
    }
}

fn blank_proposal() -> ProposalRow
    ensures { result ≡ blank_proposal }
{
    ProposalRow {
        number: 0,
        members: Members::new(&[]),
        copy: blank_copy(),
    }
}
