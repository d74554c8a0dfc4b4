//! Lists of members.
ghost use Rattle.std.specs.Prelude.{◌≡◌, ℕ, ◌<◌, Some, length};
ghost use Rattle.quorum.specs.Limits.{largest_group};
ghost use Rattle.tables.specs.Members.{listed, size, primary, place_of, list_of};

use quorum::LARGEST_GROUP;

/// The members of a group: seven numbers of nodes, of which the first `count` are the members, in their order. A list is lawful if these are one to seven different nodes, and the others are 0.
#[derive(Clone, Copy, Debug, PartialEq, Eq)]
pub struct Members {
    pub nodes: [u8; LARGEST_GROUP],
    pub count: u8,
}

impl Members {
    /// The list of these members, in their order, as `Members::new(&[2, 3, 4])`. Those behind the seventh have no place.
    pub fn new(members: &[u8]) -> Members
        ensures { result ≡ list_of members.now }
    {
        let count = members.len().min(LARGEST_GROUP);
        let mut nodes = [0; LARGEST_GROUP];
        nodes[..count].copy_from_slice(&members[..count]);
        Members {
            nodes,
            count: count as u8,
        }
    }

    /// The members, in their order: never more than seven, whatever the count.
    pub fn as_slice(&self) -> &[u8]
        ensures { result.now ≡ listed self.now }
    {
        &self.nodes[..usize::from(self.count).min(LARGEST_GROUP)]
    }

    /// How many there are.
    pub fn size(&self) -> u8
        ensures { result ≡ size self.now }
    {
        self.as_slice().len() as u8
    }

    /// The first member; 0 where there is none.
    pub fn primary(&self) -> u8
        ensures { result ≡ primary self.now }
    {
        self.as_slice().first().copied().unwrap_or(0)
    }

    /// The place of a node among the members, counted from 0; none if it is no member.
    pub fn place_of(&self, node: u8) -> Option<usize>
        ensures place { result ≡ place_of self.now node }
        ensures below_seven { (place : ℕ) → result ≡ Some place → place < largest_group }
    {
        self.as_slice().iter().position(|member| *member == node)
    }
}
