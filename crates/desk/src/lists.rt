//! Lists of members that a host hands over.
ghost use Rattle.std.specs.Prelude.{◌≡◌, ◌≤◌, true, ℕ, ◌<◌, length, slice_index};
ghost use Rattle.tables.specs.Lawful.{LawfulList};
ghost use Rattle.frame.specs.Limits.{highest_node};
ghost use Rattle.quorum.specs.Limits.{largest_group};
ghost use Rattle.desk.specs.Tables.{one_to};
ghost use Rattle.desk.specs.Lists.{passes, all_pass, is_lawful};

use quorum::LARGEST_GROUP;
use tables::Members;

/// Whether a list is lawful, and none of its members is above the highest node: one to seven different nodes, then zeros.
pub fn is_lawful(members: &Members, highest: u8) -> bool
    ensures is { result ≡ is_lawful members.now highest }
    ensures lawful { highest ≤ highest_node → result ≡ true → LawfulList members.now }
    ensures bounded { (place : ℕ) → result ≡ true → place < members.now.count → slice_index members.now.nodes place ≤ highest }
    ensures only_others_fail { LawfulList members.now → ((place : ℕ) → place < members.now.count → slice_index members.now.nodes place ≤ highest) → result ≡ true }
{
    all_pass(members, highest) && is_counted(members)
}

// Whether there are one to seven members.
fn is_counted(members: &Members) -> bool
    ensures { result ≡ one_to largest_group members.now.count }
{
    (1..=LARGEST_GROUP).contains(&usize::from(members.count))
}

// Whether each of the seven numbers is what it may be.
#[tactic(auto, using(crate::proofs::LawfulLists::pass_before_next, crate::proofs::LawfulLists::pass_before_end))]
fn all_pass(members: &Members, highest: u8) -> bool
    ensures is { result ≡ all_pass members.now highest }
    ensures seven { length members.now.nodes ≡ largest_group }
{
    let count = usize::from(members.count);
    let mut all = true;
    for (place, node) in members.nodes.iter().enumerate() {
        all &= passes(*node, &members.nodes[..place], place < count, highest);
    }
    all
}

// Whether one of the seven numbers is what it may be: a counted one a node that is none of those before it, and not above the highest; any other 0.
fn passes(node: u8, before: &[u8], counted: bool, highest: u8) -> bool
    ensures { result ≡ passes node before.now counted highest }
{
    if counted {
        (1..=highest).contains(&node) && !before.contains(&node)
    } else {
        node == 0
    }
}
