ghost use Rattle.std.specs.Prelude.{◌≡◌, ◌≤◌, ◌<◌, ◌+◌, ◌^◌, ◌++◌, ◌∷◌, [], ℕ, List};
ghost use Rattle.btr_node.specs.NodeSize.{IsNodeSize};
ghost use Rattle.btr_tree.specs.Counting.{Counted, tree_nodes, nodes_of_level, node_bound};
ghost use Rattle.btr_tree.specs.Packing.{fan_out};

use crate::bound::HEAD_SIZE;
use crate::levels::{count_nodes, nodes_at};
use btr_node::btrfs_format::size::{ITEM_SIZE, KEY_PTR_SIZE};
use std::marker::Model;

/// The bytes of an item's head in a leaf.
const HEAD_OF_ITEM: u64 = ITEM_SIZE as u64;

/// The bytes of a child in an inner node.
pub const CHILD_SIZE: u64 = KEY_PTR_SIZE as u64;

/// The nodes that a tree takes, counted from the lengths of its items. It keeps no list of them.
#[derive(Drop)]
pub struct Counter {
    nodesize: u32,
    leaves: u64,
    fill: u64,
    bytes: u64,
}

impl Model for Counter {
    ghost use Rattle.btr_tree.specs.Counting.{Tally, IsTally};

    ghost Value = { Tally };

    ghost view = { λ c. record { nodesize = c.nodesize; leaves = c.leaves; fill = c.fill; bytes = c.bytes } };

    ghost invariant = { λ c. IsTally (record { nodesize = c.nodesize; leaves = c.leaves; fill = c.fill; bytes = c.bytes }) };
}

impl Counter {
    /// A counter of the nodes of a tree without items. The size of nodes in bytes is 4096, 8192, 16384, 32768 or 65536.
    pub fn new(nodesize: u32) -> Counter
        requires { IsNodeSize nodesize }
        ensures size { result.nodesize ≡ nodesize }
        ensures counted { Counted result [] }
    {
        Counter {
            nodesize,
            leaves: 1,
            fill: 0,
            bytes: 0,
        }
    }

    /// Adds an item with a body of this length, behind those that were added.
    pub fn add(&mut self, length: usize)
        requires fits { length + 126 ≤ self.old.nodesize }
        requires small { self.old.bytes + ITEM_SIZE + length < 2 ^ 60 }
        ensures size { self.new.nodesize ≡ self.old.nodesize }
        ensures bytes { self.new.bytes ≡ self.old.bytes + ITEM_SIZE + length }
        ensures counted { (lengths : List ℕ) → Counted self.old lengths → Counted self.new (lengths ++ length ∷ []) }
    {
        let weight = HEAD_OF_ITEM + length as u64;
        if self.nodesize as u64 - HEAD_SIZE < self.fill + weight {
            self.leaves += 1;
            self.fill = 0;
        }
        self.fill += weight;
        self.bytes += weight;
    }

    /// How many nodes the tree has.
    pub fn finish(&self) -> u64
        ensures exact { (lengths : List ℕ) → Counted self.now lengths → result ≡ tree_nodes self.now.nodesize lengths }
        ensures bound { result ≤ node_bound self.now.bytes self.now.nodesize }
    {
        count_nodes(self.leaves, self.fan_out())
    }

    /// How many nodes of this level the tree has. Leaves have level 0.
    pub fn level_nodes(&self, level: u8) -> u64
        ensures { (lengths : List ℕ) → Counted self.now lengths → result ≡ nodes_of_level self.now.nodesize lengths level }
    {
        nodes_at(self.leaves, self.fan_out(), level)
    }

    fn fan_out(&self) -> u64
        ensures exact { result ≡ fan_out self.now.nodesize }
        ensures wide { 121 ≤ result }
    {
        (self.nodesize as u64 - HEAD_SIZE) / CHILD_SIZE
    }
}
