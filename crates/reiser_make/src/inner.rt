ghost use Rattle.std.specs.Prelude.{◌≡◌, ◌≤◌, ◌<◌, ◌+◌, ◌-◌, ◌*◌, ◌^◌, ◌++◌, ℕ, length, take, drop, replicate, IsSomeAnd};
ghost use Rattle.std.specs.List.{flat_map, range_with_len};
ghost use Rattle.reiser_make.specs.Finding.{BeginsAtPlace, IsToldLeaf};
ghost use Rattle.reiser_make.specs.Inner.{inner_bytes, child, children, child_key, disk_child_bytes, child_count, nodes_above, first_leaf, level_nodes, used_by};
ghost use Rattle.reiser_make.specs.Leaf.{leaves};
ghost use Rattle.reiser_make.specs.Levels.{level_of};

use crate::leaf::{ItemPlace, NODE_ROOM};
use crate::level::Level;
use crate::node::{key_bytes, put_node_head};
use crate::sample_plan::SamplePlan;
use reiser_items::reiserfs_format::size::{BLKH_SIZE, DC_SIZE, KEY_SIZE};
use reiser_items::{Block, Field, ItemHead, put_fields};

/// A node as its parent names it.
#[derive(Clone, Copy, Debug, PartialEq, Eq)]
pub struct DiskChild {
    /// The head of the first item below it, whose key the parent has.
    pub head: ItemHead,
    /// Where it is.
    pub block: u32,
    /// The bytes that it uses behind its head.
    pub size: u16,
}

/// A walk over the leaves, to find one by its number. It is short where numbers rise.
#[derive(Clone, Copy, Debug, PartialEq, Eq)]
pub struct LeafWalk {
    leaf: u32,
    at: ItemPlace,
}

/// What a parent says of a leaf.
#[derive(Clone, Copy, Debug, PartialEq, Eq)]
struct Leaf {
    first: ItemHead,
    used: u16,
}

impl LeafWalk {
    /// A walk over the leaves of a plan that has not begun.
    pub fn new(plan: &SamplePlan) -> LeafWalk
        ensures stands { BeginsAtPlace plan.now.sample result }
        ensures first { result.leaf ≡ 0 }
    {
        LeafWalk {
            leaf: 0,
            at: ItemPlace::first(),
        }
    }

    /// The walk, begun again where leaf `leaf` lies behind it.
    fn turned(self, plan: &SamplePlan, leaf: u32) -> LeafWalk
        requires { BeginsAtPlace plan.now.sample self }
        ensures stands { BeginsAtPlace plan.now.sample result }
        ensures before { result.leaf ≤ leaf }
    {
        if leaf < self.leaf {
            LeafWalk::new(plan)
        } else {
            self
        }
    }

    /// Leaf `leaf` of a plan.
    fn find(&mut self, plan: &SamplePlan, leaf: u32) -> Option<Leaf>
        requires stands { BeginsAtPlace plan.now.sample self.old }
        requires there { leaf < length (leaves plan.now.sample) }
        ensures stands { BeginsAtPlace plan.now.sample self.new }
        ensures found { IsSomeAnd result (IsToldLeaf plan.now.sample leaf) }
    {
        *self = self.turned(plan, leaf);
        while self.leaf < leaf {
            let next = plan.sample.pack(self.at)?;
            *self = LeafWalk {
                leaf: self.leaf + 1,
                at: next.end,
            };
        }
        let found = plan.sample.pack(self.at)?;
        Some(Leaf {
            first: found.first,
            used: found.used,
        })
    }
}

impl SamplePlan {
    /// Writes node `m` of the level above `below` into a block. The walk is one over the leaves of this plan.
    pub fn put_inner(&self, below: &Level, m: u32, walk: &mut LeafWalk, into: &mut Block)
        requires level { below.now ≡ level_of self.now.leaf_count below.now.number }
        requires low { 1 ≤ below.now.number }
        requires high { below.now.number ≤ 3 }
        requires many { 2 ≤ below.now.nodes }
        requires node { m < nodes_above below.now.nodes }
        requires stands { BeginsAtPlace self.now.sample walk.old }
        ensures node { into.new.bytes ≡ inner_bytes (below.now.number + 1) (children self.now.sample below.now.number m) }
        ensures stands { BeginsAtPlace self.now.sample walk.new }
    {
        self.put_inner_bytes(below, m, walk, &mut into.bytes);
    }

    fn put_inner_bytes(&self, below: &Level, m: u32, walk: &mut LeafWalk, into: &mut [u8])
        requires level { below.now ≡ level_of self.now.leaf_count below.now.number }
        requires low { 1 ≤ below.now.number }
        requires high { below.now.number ≤ 3 }
        requires many { 2 ≤ below.now.nodes }
        requires node { m < nodes_above below.now.nodes }
        requires stands { BeginsAtPlace self.now.sample walk.old }
        requires room { length into.old ≡ 4096 }
        ensures node { into.new ≡ inner_bytes (below.now.number + 1) (children self.now.sample below.now.number m) }
        ensures stands { BeginsAtPlace self.now.sample walk.new }
    {
        let first = below.first_child(m);
        let count = below.child_count(m);
        put_node_head(
            below.number + 1,
            (count - 1) as u16,
            NODE_ROOM - inner_size(count),
            &mut into[..BLKH_SIZE],
        );
        self.put_keys(below, first, count, walk, into);
        let pointers = BLKH_SIZE + KEY_SIZE * (count as usize - 1);
        self.put_pointers(below, first, count, walk, pointers, into);
        clear_from(into, pointers + DC_SIZE * count as usize);
    }

    /// Writes the keys of so many nodes of a level from node `first` on, but for the first one, behind the head of a node.
    fn put_keys(&self, level: &Level, first: u32, count: u32, walk: &mut LeafWalk, into: &mut [u8])
        requires level { level.now ≡ level_of self.now.leaf_count level.now.number }
        requires low { 1 ≤ level.now.number }
        requires high { level.now.number ≤ 3 }
        requires nodes { first + count ≤ level.now.nodes }
        requires some { 1 ≤ count }
        requires few { count ≤ 170 }
        requires stands { BeginsAtPlace self.now.sample walk.old }
        requires room { length into.old ≡ 4096 }
        ensures keys { take (24 + 16 * (count - 1)) into.new ≡ take 24 into.old ++ flat_map (λ m. child_key (child self.now.sample level.now.number m)) (range_with_len (first + 1) (count - 1)) }
        ensures stands { BeginsAtPlace self.now.sample walk.new }
    {
        for i in 1..count {
            let at = BLKH_SIZE + KEY_SIZE * (i as usize - 1);
            self.put_key(level, first + i, walk, at, into);
        }
    }

    /// Writes the key of node `m` of a level from byte `at` on.
    fn put_key(&self, level: &Level, m: u32, walk: &mut LeafWalk, at: usize, into: &mut [u8])
        requires level { level.now ≡ level_of self.now.leaf_count level.now.number }
        requires low { 1 ≤ level.now.number }
        requires high { level.now.number ≤ 3 }
        requires node { m < level.now.nodes }
        requires stands { BeginsAtPlace self.now.sample walk.old }
        requires room { at + 16 ≤ length into.old }
        ensures key { take (at + 16) into.new ≡ take at into.old ++ child_key (child self.now.sample level.now.number m) }
        ensures stands { BeginsAtPlace self.now.sample walk.new }
    {
        match self.child(level, m, walk) {
            Some(child) => into[at..at + KEY_SIZE].copy_from_slice(&key_bytes(&child.head)),
            None => {}
        }
    }

    /// Writes pointers to so many nodes of a level from node `first` on, from byte `start` on.
    fn put_pointers(
        &self,
        level: &Level,
        first: u32,
        count: u32,
        walk: &mut LeafWalk,
        start: usize,
        into: &mut [u8],
    )
        requires level { level.now ≡ level_of self.now.leaf_count level.now.number }
        requires low { 1 ≤ level.now.number }
        requires high { level.now.number ≤ 3 }
        requires nodes { first + count ≤ level.now.nodes }
        requires stands { BeginsAtPlace self.now.sample walk.old }
        requires room { start + 8 * count ≤ length into.old }
        requires small { length into.old ≡ 4096 }
        ensures pointers { take (start + 8 * count) into.new ≡ take start into.old ++ flat_map (λ m. disk_child_bytes (child self.now.sample level.now.number m)) (range_with_len first count) }
        ensures stands { BeginsAtPlace self.now.sample walk.new }
    {
        for i in 0..count {
            self.put_pointer(level, first + i, walk, start + DC_SIZE * i as usize, into);
        }
    }

    /// Writes a pointer to node `m` of a level from byte `at` on.
    fn put_pointer(&self, level: &Level, m: u32, walk: &mut LeafWalk, at: usize, into: &mut [u8])
        requires level { level.now ≡ level_of self.now.leaf_count level.now.number }
        requires low { 1 ≤ level.now.number }
        requires high { level.now.number ≤ 3 }
        requires node { m < level.now.nodes }
        requires stands { BeginsAtPlace self.now.sample walk.old }
        requires room { at + 8 ≤ length into.old }
        ensures pointer { take (at + 8) into.new ≡ take at into.old ++ disk_child_bytes (child self.now.sample level.now.number m) }
        ensures stands { BeginsAtPlace self.now.sample walk.new }
    {
        match self.child(level, m, walk) {
            Some(child) => put_child_pointer(&child, &mut into[at..at + DC_SIZE]),
            None => {}
        }
    }

    /// Node `m` of a level as its parent names it.
    fn child(&self, level: &Level, m: u32, walk: &mut LeafWalk) -> Option<DiskChild>
        requires level { level.now ≡ level_of self.now.leaf_count level.now.number }
        requires low { 1 ≤ level.now.number }
        requires high { level.now.number ≤ 3 }
        requires node { m < level.now.nodes }
        requires stands { BeginsAtPlace self.now.sample walk.old }
        ensures child { IsSomeAnd result (λ c. (c ≡ child self.now.sample level.now.number m) × (c.head.offset < 2 ^ 32)) }
        ensures stands { BeginsAtPlace self.now.sample walk.new }
    {
        let leaf = walk.find(self, self.first_leaf(level.number, m))?;
        Some(DiskChild {
            head: leaf.first,
            block: self.node_place(level, m),
            size: self.size_of(level.number, m, leaf.used),
        })
    }

    /// The bytes that node `m` of a level uses behind its head, where a leaf uses this many.
    fn size_of(&self, number: u16, m: u32, leaf: u16) -> u16
        requires low { 1 ≤ number }
        requires high { number ≤ 3 }
        requires node { m < level_nodes self.now.leaf_count number }
        requires leaf { number ≡ 1 → leaf ≡ used_by self.now.sample 1 m }
        ensures { result ≡ used_by self.now.sample number m }
    {
        if number == 1 {
            leaf
        } else {
            let below = Level::above_leaves(self.leaf_count, number - 1);
            inner_size(below.child_count(m))
        }
    }

    /// The first leaf below node `m` of a level.
    fn first_leaf(&self, number: u16, m: u32) -> u32
        requires low { 1 ≤ number }
        requires high { number ≤ 3 }
        requires node { m < level_nodes self.now.leaf_count number }
        ensures leaf { result ≡ first_leaf self.now.leaf_count number m }
        ensures there { result < self.now.leaf_count }
    {
        let mut node = m;
        let mut level = number;
        while level > 1 {
            level -= 1;
            node = Level::above_leaves(self.leaf_count, level).first_child(node);
        }
        node
    }
}

/// The bytes that an inner node of so many children uses behind its head.
fn inner_size(children: u32) -> u16
    requires { children ≤ 170 }
    ensures size { result ≡ 24 * children - 16 }
    ensures most { result ≤ 4064 }
{
    (24 * children as u16).saturating_sub(16)
}

fn put_child_pointer(child: &DiskChild, into: &mut [u8])
    requires { length into.old ≡ 8 }
    ensures { into.new ≡ disk_child_bytes child.now }
{
    put_fields(
        into,
        &[
            Field::U32(child.block),
            Field::U16(child.size),
            Field::U16(0),
        ],
    );
}

/// Writes zeros from byte `at` on.
fn clear_from(bytes: &mut [u8], at: usize)
    requires { at ≤ length bytes.old }
    ensures { bytes.new ≡ take at bytes.old ++ replicate (length bytes.old - at) 0 }
{
    bytes[at..].fill(0);
}
