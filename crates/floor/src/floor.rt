//! The floor and its twelve calls.
ghost use Rattle.std.specs.Prelude.{◌≡◌, Ok};
ghost use Rattle.desk.specs.Tables.{closed, tables};
ghost use Rattle.floor.specs.LawfulStates.{LawfulState, LawfulStays};
ghost use Rattle.floor.specs.State.{desk_of, rule_of, chooser_of, state};
ghost use Rattle.floor.specs.Steps.{opens, reads, writes, regroups, Proposes, settles, Works, delivers, loses, gives_up, stops, looks};

use chooser::Chooser;
use content::Content;
use delivery::Delivery;
use desk::Desk;
use fault::Fault;
use quorum::QuorumRule;
use std::marker::PhantomData;
use tables::{Members, NodeRecord, OperationRow, ProposalRow};

/// A floor keeps what the calls have to know of one sheet beside the host's tables, which are handed to every call: 16 node records, 1 to 4,096 operation rows, 1 to 256 slots of 32 bytes, and 1 to 128 proposal rows.
/// A call stops at the first ground that holds, in the order of the grounds' numbers. Then it changes nothing; of a chooser that refused, no offer and no decision.
/// Every call is refused with 1 if the floor is closed (an opening: if it is open already), and with 2 if a table's length is not allowed, or not that of the opening. Its other grounds stand with each call.
#[derive(Drop)]
pub struct Floor<C: Content, Q: QuorumRule + Drop, S: Chooser + Drop> {
    desk: Desk,
    rule: Q,
    chooser: S,
    kind: PhantomData<C>,
}

impl<C: Content, Q: QuorumRule + Drop, S: Chooser + Drop> Floor<C, Q, S> {
    /// A closed floor with a rule and a chooser; the chooser may have been used before.
    pub fn new(rule: Q, chooser: S) -> Floor<C, Q, S>
        ensures desk { desk_of result ≡ closed }
        ensures rule { rule_of result ≡ rule }
        ensures chooser { chooser_of result ≡ chooser }
    {
        Floor {
            desk: Desk::closed(),
            rule,
            chooser,
            kind: PhantomData,
        }
    }

    /// What the floor keeps in plain numbers: whether it is open, the node count, the lengths of the tables, the rows used, the moment.
    pub fn desk(&self) -> Desk
        ensures { result ≡ desk_of self.now }
    {
        let Floor { desk, .. } = self;
        *desk
    }

    /// Opens the floor with nodes 1 to the count: configuration 0 with these members, and this content.
    /// Refused with 7 if the count is not 1 to 16, with 13 if the members are no lawful list or one is above the count.
    pub fn open(
        &mut self,
        nodes: &mut [NodeRecord],
        operations: &[OperationRow],
        frames: &mut [u8],
        proposals: &[ProposalRow],
        count: u8,
        members: Members,
        content: &C,
    ) -> Result<(), Fault>
        ensures does { (result, state self.new nodes.new operations.now frames.new proposals.now) ≡ opens (state self.old nodes.old operations.now frames.old proposals.now) count members (C.meaning content.now) }
        ensures lawful { result ≡ Ok tt → LawfulState C.meaning (state self.new nodes.new operations.now frames.new proposals.now) }
        ensures lawful_stays { LawfulStays C.meaning (state self.old nodes.old operations.now frames.old proposals.now) (state self.new nodes.new operations.now frames.new proposals.now) }
    {
        desk::open(
            &mut self.desk,
            nodes,
            operations,
            frames,
            proposals,
            count,
            members,
            content,
        )
    }

    /// Starts a read at the primary of a group, and answers the number of its row.
    /// Refused with 7 if there is no such node, with 8 if it has stopped, with 9 if it is idle, with 10 if it is frozen, with 11 if it is not the primary, with 17 if all operation rows are used, with 19 if there are fewer empty slots than members.
    pub fn read(
        &mut self,
        nodes: &[NodeRecord],
        operations: &mut [OperationRow],
        frames: &mut [u8],
        proposals: &[ProposalRow],
        node: u8,
    ) -> Result<u16, Fault>
        ensures does { (result, state self.new nodes.now operations.new frames.new proposals.now) ≡ reads C.width (state self.old nodes.now operations.old frames.old proposals.now) node }
        ensures lawful_stays { LawfulStays C.meaning (state self.old nodes.now operations.old frames.old proposals.now) (state self.new nodes.now operations.new frames.new proposals.now) }
    {
        starts::read::<C>(&mut self.desk, nodes, operations, frames, proposals, node)
    }

    /// Starts a write at the primary of a group, and answers the number of its row.
    /// Refused as a read is, and with 18 if the node's newest version is the last.
    pub fn write(
        &mut self,
        nodes: &mut [NodeRecord],
        operations: &mut [OperationRow],
        frames: &mut [u8],
        proposals: &[ProposalRow],
        node: u8,
        content: &C,
    ) -> Result<u16, Fault>
        ensures does { (result, state self.new nodes.new operations.new frames.new proposals.now) ≡ writes C.width (state self.old nodes.old operations.old frames.old proposals.now) node (C.meaning content.now) }
        ensures lawful_stays { LawfulStays C.meaning (state self.old nodes.old operations.old frames.old proposals.now) (state self.new nodes.new operations.new frames.new proposals.now) }
    {
        starts::write(
            &mut self.desk,
            nodes,
            operations,
            frames,
            proposals,
            node,
            content,
        )
    }

    /// Starts a change of a node's group to new members, and answers the number of its row.
    /// Refused with 7 if there is no such node, with 8 if it has stopped, with 9 if it is idle, with 13 if the members are no lawful list or one is above the node count, with 17 if all operation rows are used, with 19 if there are fewer empty slots than present members.
    pub fn regroup(
        &mut self,
        nodes: &mut [NodeRecord],
        operations: &mut [OperationRow],
        frames: &mut [u8],
        proposals: &[ProposalRow],
        node: u8,
        members: Members,
    ) -> Result<u16, Fault>
        ensures does { (result, state self.new nodes.new operations.new frames.new proposals.now) ≡ regroups C.width (state self.old nodes.old operations.old frames.old proposals.now) node members }
        ensures lawful_stays { LawfulStays C.meaning (state self.old nodes.old operations.old frames.old proposals.now) (state self.new nodes.new operations.new frames.new proposals.now) }
    {
        starts::regroup::<C>(
            &mut self.desk,
            nodes,
            operations,
            frames,
            proposals,
            node,
            members,
        )
    }

    /// Proposes what a regroup gathered to the chooser, and answers the number of the proposal's row.
    /// Refused with 5 if the operation was not started, with 6 if it is not open or no regroup, with 8 if its node has stopped, with 12 if that is no longer under the operation's number, with 14 if the places that froze do not win, with 20 if all proposal rows are used, with 21 if the chooser refuses.
    pub fn propose(
        &mut self,
        nodes: &[NodeRecord],
        operations: &mut [OperationRow],
        frames: &[u8],
        proposals: &mut [ProposalRow],
        operation: u16,
    ) -> Result<u8, Fault>
        ensures does { Proposes (Q.winning (rule_of self.old)) S.offering (state self.old nodes.now operations.old frames.now proposals.old) operation result (state self.new nodes.now operations.new frames.now proposals.new) }
        ensures lawful_stays { LawfulStays C.meaning (state self.old nodes.now operations.old frames.now proposals.old) (state self.new nodes.now operations.new frames.now proposals.new) }
    {
        handover::propose(
            &mut self.desk,
            &self.rule,
            &mut self.chooser,
            nodes,
            operations,
            frames,
            proposals,
            operation,
        )
    }

    /// Sends what is decided under a node's number to its members, and answers how many they are.
    /// Refused with 7 if there is no such node, with 8 if it has stopped, with 9 if it is idle, with 15 if nothing is decided under its number, with 16 if that is no used proposal row of the number, with 19 if there are fewer empty slots than members.
    pub fn settle(
        &self,
        nodes: &[NodeRecord],
        operations: &[OperationRow],
        frames: &mut [u8],
        proposals: &[ProposalRow],
        node: u8,
    ) -> Result<u8, Fault>
        ensures does { (result, state self.now nodes.now operations.now frames.new proposals.now) ≡ settles C.width (S.decided (chooser_of self.now)) (state self.now nodes.now operations.now frames.old proposals.now) node }
        ensures lawful_stays { LawfulStays C.meaning (state self.now nodes.now operations.now frames.old proposals.now) (state self.now nodes.now operations.now frames.new proposals.now) }
    {
        handover::settle::<C, S>(
            &self.desk,
            &self.chooser,
            nodes,
            operations,
            frames,
            proposals,
            node,
        )
    }

    /// Hands a step of work to the chooser.
    /// Refused with 21 if the chooser refuses.
    pub fn work(
        &mut self,
        nodes: &[NodeRecord],
        operations: &[OperationRow],
        frames: &[u8],
        proposals: &[ProposalRow],
        number: u8,
        step: u8,
        ballot: u8,
        set: u8,
    ) -> Result<(), Fault>
        ensures does { Works S.working (state self.old nodes.now operations.now frames.now proposals.now) number step ballot set result (state self.new nodes.now operations.now frames.now proposals.now) }
        ensures lawful_stays { LawfulStays C.meaning (state self.old nodes.now operations.now frames.now proposals.now) (state self.new nodes.now operations.now frames.now proposals.now) }
    {
        handover::work(
            &self.desk,
            &mut self.chooser,
            nodes,
            operations,
            frames,
            proposals,
            number,
            step,
            ballot,
            set,
        )
    }

    /// Delivers the frame in a slot to its receiver; the frame stays in its slot, and may be delivered again.
    /// Refused with 3 if there is no such slot or it is empty, with 4 if it cannot be read, with 7 if the receiver is no node of the floor, with 8 if that has stopped, with 19 if no slot is empty for its reply.
    pub fn deliver(
        &mut self,
        nodes: &mut [NodeRecord],
        operations: &mut [OperationRow],
        frames: &mut [u8],
        proposals: &[ProposalRow],
        slot: u16,
    ) -> Result<Delivery, Fault>
        ensures does { (result, state self.new nodes.new operations.new frames.new proposals.now) ≡ delivers C.width C.reads (Q.winning (rule_of self.old)) (state self.old nodes.old operations.old frames.old proposals.now) slot }
        ensures lawful_stays { LawfulStays C.meaning (state self.old nodes.old operations.old frames.old proposals.now) (state self.new nodes.new operations.new frames.new proposals.now) }
    {
        delivery::deliver::<C, Q>(
            &mut self.desk,
            &self.rule,
            nodes,
            operations,
            frames,
            proposals,
            slot,
        )
    }

    /// Loses the frame in a slot.
    /// Refused with 3 if there is no such slot or it is empty.
    pub fn lose(
        &self,
        nodes: &[NodeRecord],
        operations: &[OperationRow],
        frames: &mut [u8],
        proposals: &[ProposalRow],
        slot: u16,
    ) -> Result<(), Fault>
        ensures does { (result, state self.now nodes.now operations.now frames.new proposals.now) ≡ loses (state self.now nodes.now operations.now frames.old proposals.now) slot }
        ensures lawful_stays { LawfulStays C.meaning (state self.now nodes.now operations.now frames.old proposals.now) (state self.now nodes.now operations.now frames.new proposals.now) }
    {
        desk::lose(&self.desk, nodes, operations, frames, proposals, slot)
    }

    /// Gives up an operation.
    /// Refused with 5 if it was not started, with 6 if it is not open.
    pub fn give_up(
        &self,
        nodes: &[NodeRecord],
        operations: &mut [OperationRow],
        frames: &[u8],
        proposals: &[ProposalRow],
        operation: u16,
    ) -> Result<(), Fault>
        ensures does { (result, state self.now nodes.now operations.new frames.now proposals.now) ≡ gives_up (state self.now nodes.now operations.old frames.now proposals.now) operation }
        ensures lawful_stays { LawfulStays C.meaning (state self.now nodes.now operations.old frames.now proposals.now) (state self.now nodes.now operations.new frames.now proposals.now) }
    {
        desk::give_up(&self.desk, nodes, operations, frames, proposals, operation)
    }

    /// Stops a node.
    /// Refused with 7 if there is no such node, with 8 if it has stopped already.
    pub fn stop(
        &self,
        nodes: &mut [NodeRecord],
        operations: &[OperationRow],
        frames: &[u8],
        proposals: &[ProposalRow],
        node: u8,
    ) -> Result<(), Fault>
        ensures does { (result, state self.now nodes.new operations.now frames.now proposals.now) ≡ stops (state self.now nodes.old operations.now frames.now proposals.now) node }
        ensures lawful_stays { LawfulStays C.meaning (state self.now nodes.old operations.now frames.now proposals.now) (state self.now nodes.new operations.now frames.now proposals.now) }
    {
        desk::stop(&self.desk, nodes, operations, frames, proposals, node)
    }

    /// Answers the row of an operation into the place that is handed along, which a refused look leaves as it was.
    /// Refused with 5 if the operation was not started.
    pub fn look(
        &self,
        nodes: &[NodeRecord],
        operations: &[OperationRow],
        frames: &[u8],
        proposals: &[ProposalRow],
        operation: u16,
        row: &mut OperationRow,
    ) -> Result<(), Fault>
        ensures { (result, row.new) ≡ looks (state self.now nodes.now operations.now frames.now proposals.now) operation row.old }
    {
        desk::look(
            &self.desk, nodes, operations, frames, proposals, operation, row,
        )
    }
}
