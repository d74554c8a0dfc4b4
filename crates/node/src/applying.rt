//! Applying a plan to the host's tables.
ghost use Rattle.std.specs.Prelude.{◌≡◌, slice_set};
ghost use Rattle.node.specs.Applying.{with_record, with_row, with_reply, may_apply};

use crate::plan::Plan;
use content::Content;
use refusal::Refusal;
use slots::{may_send, send};
use tables::{NodeRecord, OperationRow};

impl Plan {
    /// Nothing where a reply, if one is due, finds an empty slot; refused with 19 where it does not.
    pub fn may_apply(&self, frames: &[u8]) -> Result<(), Refusal>
        ensures { result ≡ may_apply self.now.reply frames.now }
    {
        match self.reply {
            Some(_) => may_send(frames, 1),
            None => Ok(()),
        }
    }

    /// Writes record and row back, and sends the reply. What a table has no place for is left out; so a reply that finds no empty slot is lost, and `may_apply` is asked before.
    pub fn apply<C: Content>(
        &self,
        nodes: &mut [NodeRecord],
        rows: &mut [OperationRow],
        frames: &mut [u8],
    )
        ensures nodes { nodes.new ≡ with_record nodes.old self.now.receiver self.now.node }
        ensures rows { rows.new ≡ with_row rows.old self.now.row }
        ensures frames { frames.new ≡ with_reply C.width frames.old self.now.reply }
    {
        write_record(nodes, self.receiver, self.node);
        if let Some(change) = self.row {
            write_row(rows, change.operation, change.row);
        }
        if let Some(reply) = self.reply {
            send::<C>(frames, &[reply.receiver], &reply.letter);
        }
    }
}

/// Writes the record of a node over the one that the table has; the first is node 1's.
pub fn write_record(nodes: &mut [NodeRecord], node: u8, written: NodeRecord)
    ensures { nodes.new ≡ with_record nodes.old node written }
{
    let Some(place) = usize::from(node).checked_sub(1) else {
        return;
    };
    if place < nodes.len() {
        nodes[place] = written;
    }
}

/// Writes the row of an operation over the one that the table has.
pub fn write_row(rows: &mut [OperationRow], operation: u16, written: OperationRow)
    ensures { rows.new ≡ slice_set rows.old operation written }
{
    let place = usize::from(operation);
    if place < rows.len() {
        rows[place] = written;
    }
}
