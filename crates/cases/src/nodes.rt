//! The examples of nodes, run: the acknowledgement that is enough for a read, judged by `node::judge`.
ghost use Rattle.std.specs.Prelude.{◌≡◌, true};
ghost use Rattle.std.specs.Option.{option_and_then, option_map};
ghost use Rattle.frame.specs.Messages.{says, get_ack};
ghost use Rattle.tables.specs.Copies.{copy_of};
ghost use Rattle.cases.specs.NodeExamples.{NodeExamples, node_1, read_2, from_to};

use frame::{Head, Message, Tag};
use node::{Plan, judge};
use quorum::Majority;
use quote::Quote;
use tables::{
    Configuration, Members, NodeRecord, OperationKind, OperationRow, OperationState, SheetCopy,
    Status,
};

/// Every worked example of nodes comes out as it is written down; the acknowledgement that is enough for a read is judged, too, and answers it.
pub fn node_examples_stand() -> bool
    ensures listed { NodeExamples }
    ensures asked { result ≡ true }
{
    let plan = judge::<Quote, _>(&Majority, &primary(), &[read()], 12, acknowledgement());
    planned_state(plan) == Some(OperationState::Answered)
}

// How far a plan leaves its operation, if it has one.
fn planned_state(plan: Option<Plan>) -> Option<OperationState>
    ensures { result ≡ option_map (λ change. change.row.state) (option_and_then (λ plan. plan.row) plan) }
{
    Some(plan?.row?.row.state)
}

// Node 1 of the examples.
fn primary() -> NodeRecord
    ensures { result ≡ node_1 }
{
    NodeRecord {
        status: Status::Active,
        stopped: false,
        configuration: Configuration {
            number: 1,
            members: Members::new(&[1, 2, 3]),
            opening: Tag {
                version: 2,
                node: 1,
            },
        },
        stored: of_node_1(3, [0, 0, 0x01, 0xF7, 0, 0, 0x02, 0x01]),
        served: of_node_1(4, [0, 0, 0x01, 0xF8, 0, 0, 0x02, 0x02]),
        newest: 6,
    }
}

// The read that node 3 has acknowledged.
fn read() -> OperationRow
    ensures { result ≡ read_2 }
{
    OperationRow {
        kind: OperationKind::Read,
        node: 1,
        number: 1,
        copy: of_node_1(2, [0, 0, 0x01, 0xF6, 0, 0, 0x02, 0x00]),
        members: Members::new(&[1, 2, 3]),
        set: 0b100,
        state: OperationState::Open,
        start: 3,
        answer: 0,
    }
}

// Node 2 acknowledges the first operation.
fn acknowledgement() -> Message<'static>
    ensures { says result ≡ get_ack (from_to 2 1) 0 }
{
    Message::GetAck {
        head: Head {
            receiver: 1,
            sender: 2,
            number: 1,
        },
        operation: 0,
    }
}

// A copy with a tag of node 1, and a quote.
fn of_node_1(version: u16, quote: [u8; 8]) -> SheetCopy
    ensures { result ≡ copy_of (record { version = version; node = 1 }) quote }
{
    SheetCopy::new(Tag { version, node: 1 }, &quote)
}

#[cfg(test)]
mod tests {
    use frame::Tag;
    use node::judge;
    use quorum::Majority;
    use quote::Quote;
    use reader::read;
    use slots::{Body, Letter, empty_count, lose, lowest_empty, may_send, occupied, send};
    use tables::{
        Configuration, Members, NodeRecord, OperationKind, OperationRow, OperationState, SheetCopy,
        Status,
    };

    const FIRST: Tag = Tag {
        version: 0,
        node: 0,
    };

    // The quote 500, 510 under a tag.
    fn copy(tag: Tag) -> SheetCopy {
        SheetCopy::new(tag, &[0, 0, 0x01, 0xF4, 0, 0, 0x01, 0xFE])
    }

    // A member of the group 1, 2, 3, as at the opening.
    fn member() -> NodeRecord {
        NodeRecord {
            status: Status::Active,
            stopped: false,
            configuration: Configuration {
                number: 0,
                members: Members::new(&[1, 2, 3]),
                opening: FIRST,
            },
            stored: copy(FIRST),
            served: copy(FIRST),
            newest: 0,
        }
    }

    // A write of node 1, just started.
    fn write(written: SheetCopy) -> OperationRow {
        OperationRow {
            kind: OperationKind::Write,
            node: 1,
            number: 0,
            copy: written,
            members: Members::new(&[1, 2, 3]),
            set: 0,
            state: OperationState::Open,
            start: 1,
            answer: 0,
        }
    }

    // The frame in a slot goes to its node; whether that does anything with it.
    fn deliver(
        nodes: &mut [NodeRecord; 3],
        rows: &mut [OperationRow; 1],
        frames: &mut [u8],
        slot: usize,
    ) -> bool {
        let Ok(bytes) = occupied(frames, slot) else {
            return false;
        };
        let receiver = bytes.get(1).copied().unwrap_or(0);
        let Some(node) = nodes.get(usize::from(receiver).saturating_sub(1)) else {
            return false;
        };
        let Ok(message) = read::<Quote>(bytes) else {
            return false;
        };
        let Some(plan) = judge::<Quote, _>(&Majority, node, rows, 1, message) else {
            return false;
        };
        plan.apply::<Quote>(nodes, rows, frames);
        true
    }

    #[test]
    fn write_of_a_group_of_three(rt: HostRuntime) {
        let written = copy(Tag {
            version: 1,
            node: 1,
        });
        let mut nodes = [member(); 3];
        let mut rows = [write(written)];
        let mut frames = [0u8; 8 * 32];
        let letter = Letter {
            sender: 1,
            number: 0,
            body: Body::Put {
                operation: 0,
                copy: written,
            },
        };
        assert!(rt; may_send(&frames, 8).is_ok());
        send::<Quote>(&mut frames, &[1, 2, 3], &letter);
        assert!(rt; empty_count(&frames) == 5);
        assert!(rt; lowest_empty(&frames) == Some(3));
        assert!(rt; deliver(&mut nodes, &mut rows, &mut frames, 0));
        assert!(rt; deliver(&mut nodes, &mut rows, &mut frames, 1));
        assert!(rt; deliver(&mut nodes, &mut rows, &mut frames, 3));
        assert!(rt; rows[0].state == OperationState::Open);
        assert!(rt; deliver(&mut nodes, &mut rows, &mut frames, 4));
        assert!(rt; !deliver(&mut nodes, &mut rows, &mut frames, 4));
        assert!(rt; rows[0].state == OperationState::Answered);
        assert!(rt; rows[0].set == 0b011);
        assert!(rt; rows[0].answer == 2);
        assert!(rt; nodes[0].served == written);
        assert!(rt; nodes[1].stored == written);
        assert!(rt; nodes[2].stored == copy(FIRST));
        assert!(rt; lose(&mut frames, 0).is_ok());
        assert!(rt; lose(&mut frames, 0).is_err());
        assert!(rt; lowest_empty(&frames) == Some(0));
    }
}
