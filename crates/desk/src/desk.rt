//! What a floor keeps in plain numbers, and the lengths that tables may have.
ghost use Rattle.std.specs.Prelude.{◌≡◌};
ghost use Rattle.desk.specs.Tables.{tables, closed, allowed_lengths, lengths_of};

use frame::SLOT;
use tables::{NodeRecord, OperationRow, ProposalRow};

/// How many node records the host's table has.
pub const NODES: usize = 16;

/// The most operation rows.
pub const MOST_OPERATIONS: usize = 4096;

/// The most slots of the frame table.
pub const MOST_SLOTS: usize = 256;

/// The most proposal rows.
pub const MOST_PROPOSALS: usize = 128;

/// The lengths of the tables that differ from host to host: operation rows, bytes of the frame table, proposal rows.
#[derive(Clone, Copy, Debug, PartialEq, Eq)]
pub struct Lengths {
    pub operations: usize,
    pub frames: usize,
    pub proposals: usize,
}

/// The desk: what a floor keeps of a sheet in plain numbers, beside its rule and its chooser.
#[derive(Clone, Copy, Debug, PartialEq, Eq)]
pub struct Desk {
    /// Whether the floor was opened.
    pub is_open: bool,
    /// How many nodes there are: they are numbered from 1 to this.
    pub node_count: u8,
    /// The lengths of the tables at the opening.
    pub lengths: Lengths,
    /// How many operation rows are used, in ascending order.
    pub operations_used: u16,
    /// How many proposal rows are used, in ascending order.
    pub proposals_used: u8,
    /// How many starts and answers there have been, at most 2^32 - 1.
    pub moment: u32,
}

impl Desk {
    /// The desk of a floor that was not opened yet.
    pub fn closed() -> Desk
        ensures { result ≡ closed }
    {
        let lengths = Lengths {
            operations: 0,
            frames: 0,
            proposals: 0,
        };
        Desk {
            is_open: false,
            node_count: 0,
            lengths,
            operations_used: 0,
            proposals_used: 0,
            moment: 0,
        }
    }
}

/// The lengths of tables.
pub(crate) fn lengths_of(
    operations: &[OperationRow],
    frames: &[u8],
    proposals: &[ProposalRow],
) -> Lengths
    ensures { result ≡ lengths_of operations.now frames.now proposals.now }
{
    Lengths {
        operations: operations.len(),
        frames: frames.len(),
        proposals: proposals.len(),
    }
}

/// Whether tables may have these lengths.
pub(crate) fn allowed_lengths(
    nodes: &[NodeRecord],
    operations: &[OperationRow],
    frames: &[u8],
    proposals: &[ProposalRow],
) -> bool
    ensures { result ≡ allowed_lengths (tables nodes.now operations.now frames.now proposals.now) }
{
    nodes.len() == NODES
        && (1..=MOST_OPERATIONS).contains(&operations.len())
        && frames.len() % SLOT == 0
        && (1..=MOST_SLOTS).contains(&(frames.len() / SLOT))
        && (1..=MOST_PROPOSALS).contains(&proposals.len())
}
