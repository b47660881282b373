ghost use Rattle.std.specs.Prelude.{◌≡◌, ◌≤◌, ◌<◌, ◌+◌, ◌*◌, ℕ};
ghost use Rattle.reiser_make.specs.Inner.{nodes_above, first_child, end_child, child_count, root_level};
ghost use Rattle.reiser_make.specs.Levels.{level_of};

/// The most leaves that a sample has: three items for each object.
pub const MOST_LEAVES: u32 = 12123;

/// Nodes of one level of a tree. The leaves are level 1.
#[derive(Clone, Copy, Debug, PartialEq, Eq)]
pub struct Level {
    /// The level's number.
    pub number: u16,
    /// How many nodes it has.
    pub nodes: u32,
    /// How many nodes the levels below it have.
    pub below: u32,
}

impl Level {
    /// The level of so many leaves.
    pub fn leaves(count: u32) -> Level
        requires { 1 ≤ count }
        ensures { result ≡ level_of count 1 }
    {
        Level {
            number: 1,
            nodes: count,
            below: 0,
        }
    }

    /// The level of a number above so many leaves.
    pub fn above_leaves(count: u32, number: u16) -> Level
        requires some { 1 ≤ count }
        requires most { count ≤ 12123 }
        requires number { 1 ≤ number }
        requires few { number ≤ 4 }
        ensures { result ≡ level_of count number }
    {
        let mut level = Level::leaves(count);
        for _ in 1..number {
            level = level.above();
        }
        level
    }

    /// The level of the root: the first of one node.
    pub fn root(count: u32) -> Level
        requires some { 1 ≤ count }
        requires most { count ≤ 12123 }
        ensures level { result ≡ level_of count (root_level count) }
        ensures one { result.nodes ≡ 1 }
        ensures few { root_level count ≤ 3 }
    {
        let mut level = Level::leaves(count);
        while level.nodes > 1 {
            level = level.above();
        }
        level
    }

    /// The level above it.
    pub fn above(&self) -> Level
        requires number { self.now.number ≤ 4 }
        requires nodes { self.now.nodes ≤ 12123 }
        requires below { self.now.below ≤ 100000 }
        ensures number { result.number ≡ self.now.number + 1 }
        ensures nodes { result.nodes ≡ nodes_above self.now.nodes }
        ensures below { result.below ≡ self.now.below + self.now.nodes }
    {
        Level {
            number: self.number + 1,
            nodes: nodes_above(self.nodes),
            below: self.below + self.nodes,
        }
    }

    /// The first child of node `m` above this level.
    pub fn first_child(&self, m: u32) -> u32
        requires { m ≤ 20000 }
        ensures { result ≡ first_child self.now.nodes m }
    {
        (170 * m).min(self.nodes.saturating_sub(2))
    }

    /// The first child of the node behind it, or how many nodes this level has.
    pub fn end_child(&self, m: u32) -> u32
        requires { m ≤ 12123 }
        ensures { result ≡ end_child self.now.nodes m }
    {
        if m + 1 < nodes_above(self.nodes) {
            self.first_child(m + 1)
        } else {
            self.nodes
        }
    }

    /// How many children node `m` above this level has: 2 to 170, where the level has at least 2 nodes and there is such a
    /// node above it.
    pub fn child_count(&self, m: u32) -> u32
        requires some { 1 ≤ self.now.nodes }
        requires most { self.now.nodes ≤ 12123 }
        requires node { m < nodes_above self.now.nodes }
        ensures count { result ≡ child_count self.now.nodes m }
        ensures most { result ≤ 170 }
        ensures least { 2 ≤ self.now.nodes → 2 ≤ result }
        ensures within { first_child self.now.nodes m + result ≤ self.now.nodes }
    {
        self.end_child(m) - self.first_child(m)
    }
}

/// How many nodes stand above so many: each has 170 children, and the last one the rest.
fn nodes_above(nodes: u32) -> u32
    ensures { result ≡ nodes_above nodes }
{
    nodes.div_ceil(170)
}
