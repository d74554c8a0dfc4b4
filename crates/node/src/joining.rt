//! How a node takes the next configuration.
ghost use Rattle.std.specs.Prelude.{◌≡◌};
ghost use Rattle.node.specs.Rules.{joining, on_update};

use crate::conditions::may_join;
use crate::plan::{Plan, plan_for};
use frame::Head;
use tables::{Configuration, Members, NodeRecord, SheetCopy, Status};

/// The node joins the configuration that an update carries, from none or from one with a lower number.
pub(crate) fn on_update(
    node: &NodeRecord,
    head: Head,
    members: Members,
    copy: SheetCopy,
) -> Option<Plan>
    ensures { result ≡ on_update node.now head members copy }
{
    if !may_join(node, head, members) {
        return None;
    }
    Some(plan_for(head, joining(node, head, members, copy)))
}

// The node takes number, members and opening tag, and is active. It keeps a higher stored copy, serves the opening copy, and gives out no version again.
fn joining(node: &NodeRecord, head: Head, members: Members, copy: SheetCopy) -> NodeRecord
    ensures { result ≡ joining node.now head members copy }
{
    NodeRecord {
        status: Status::Active,
        stopped: node.stopped,
        configuration: Configuration {
            number: head.number,
            members,
            opening: copy.tag,
        },
        stored: node.stored.newer(copy),
        served: copy,
        newest: node.newest.max(copy.tag.version),
    }
}
