//! A floor with the tables that its host hands to every call.
use calls::{Answer, Call};
use chooser::Chooser;
use content::Content;
use fault::Fault;
use floor::Floor;
use host::{HostTables, TableLengths};
use quorum::QuorumRule;
use schedule::make_call;
use std::alloc::{AllocError, Global};
use tables::{NodeRecord, OperationKind, OperationRow, OperationState};

/// A floor and its tables.
#[derive(Drop)]
pub(crate) struct HostFloor<C: Content, Q: QuorumRule + Drop, S: Chooser + Drop> {
    pub floor: Floor<C, Q, S>,
    pub tables: HostTables,
}

impl<C: Content, Q: QuorumRule + Drop, S: Chooser + Drop> HostFloor<C, Q, S> {
    /// A closed floor with these parts, and empty tables.
    pub(crate) fn new(
        alloc: Global,
        rule: Q,
        chooser: S,
        lengths: TableLengths,
    ) -> Result<HostFloor<C, Q, S>, AllocError> {
        Ok(HostFloor {
            floor: Floor::new(rule, chooser),
            tables: HostTables::new(alloc, lengths)?,
        })
    }

    /// Makes a call.
    pub(crate) fn make(&mut self, call: &Call<C>) -> Result<Answer, Fault> {
        make_call(
            &mut self.floor,
            self.tables.nodes.as_mut_slice(),
            self.tables.operations.as_mut_slice(),
            self.tables.frames.as_mut_slice(),
            self.tables.proposals.as_mut_slice(),
            call,
        )
    }

    /// Makes a call with a table of operations that lacks its first row.
    pub(crate) fn make_with_short_table(&mut self, call: &Call<C>) -> Result<Answer, Fault> {
        let operations = self.tables.operations.as_mut_slice();
        let (_, short) = operations.split_at_mut(operations.len().min(1));
        make_call(
            &mut self.floor,
            self.tables.nodes.as_mut_slice(),
            short,
            self.tables.frames.as_mut_slice(),
            self.tables.proposals.as_mut_slice(),
            call,
        )
    }

    /// At how many nodes a regroup is under way that may still be proposed.
    pub(crate) fn regroups_under_way(&self) -> u32 {
        let used = usize::from(self.floor.desk().operations_used);
        let mut nodes = 0u32;
        for row in self.tables.operations.iter().take(used) {
            let place = usize::from(row.node).saturating_sub(1);
            if let Some(record) = self.tables.nodes.get(place) {
                if is_under_way(row, record) {
                    nodes |= 1 << u32::from(row.node % 32);
                }
            }
        }
        nodes.count_ones()
    }
}

fn is_under_way(row: &OperationRow, record: &NodeRecord) -> bool {
    row.kind == OperationKind::Regroup
        && row.state == OperationState::Open
        && row.number == record.configuration.number
        && !record.stopped
}
