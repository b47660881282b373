ghost use Rattle.std.specs.Prelude.{◌≡◌, ◌≤◌, ◌<◌, ◌+◌, ◌^◌, ◌++◌, ◌∷◌, [], ℕ, List, length, take, drop, map, AllPairs, IfOk, OnOk};
ghost use Rattle.btr_tree.specs.btr_node.NodeSize.{IsNodeSize};
ghost use Rattle.btr_tree.specs.Counting.{Counted};
ghost use Rattle.btr_tree.specs.Roots.{lengths_of};
ghost use Rattle.unit_plan.specs.Chunks.{AreChunks, FitsVolume};
ghost use Rattle.unit_plan.specs.declared.chunk.PlannedChunk.{PlannedChunk as PlannedChunkOf};
ghost use Rattle.space_items.specs.Extents.{extent_items};
ghost use Rattle.space_items.specs.Nodes.{AreNodes, HasSlots, merged_nodes, nodes_at, nodes_of_tree};
ghost use Rattle.space_items.specs.Own.{IsOwnCount, own_at, own_bound, nodes_with_own};
ghost use Rattle.space_items.specs.Stream.{ArePieces};

use crate::extent_stream::extents;
use crate::node::{NodeList, TreeNode};
use btr_space_items::btrfs_format::object::EXTENT_TREE;
use btr_tree::{Counter, Memory, Slots};
use std::alloc::Global;
use unit_plan::{PieceList, Plan};

/// How many nodes the extent tree has: the least number x for which the tree of `others` and of its own nodes at the first
/// x slots of `rest` has x nodes. It is counted again from none until the number describes itself.
///
/// The slots ascend, and there are as many as the bound says.
pub fn own_nodes<P: PieceList>(
    alloc: Global,
    plan: &Plan,
    pieces: &P,
    others: &NodeList,
    rest: &Slots,
    blocks: u64,
    nodesize: u32,
) -> Result<u64, Memory>
    requires size { IsNodeSize nodesize }
    requires small { blocks ≤ 2 ^ 29 }
    requires units { FitsVolume plan.now blocks }
    requires pieces { ArePieces (P.pieces pieces.now) }
    requires nodes { AreNodes others.now }
    requires slots { AllPairs (λ a b. a < b) rest.now }
    requires few { length others.now + length rest.now < 2 ^ 44 }
    requires enough { (chunks : List PlannedChunkOf) → AreChunks plan.now blocks chunks → own_bound chunks (P.pieces pieces.now) others.now nodesize ≤ length rest.now }
    ensures count { (chunks : List PlannedChunkOf) → AreChunks plan.now blocks chunks → IfOk result (λ x. IsOwnCount chunks (P.pieces pieces.now) others.now rest.now nodesize x) }
    ensures room { IfOk result (λ x. x ≤ length rest.now) }
    ensures bound { (chunks : List PlannedChunkOf) → AreChunks plan.now blocks chunks → IfOk result (λ x. x ≤ own_bound chunks (P.pieces pieces.now) others.now nodesize) }
{
    let mut count = 0;
    loop {
        let nodes = with_leaves(alloc, others, rest, count)?;
        let counter = counted(alloc, plan, pieces, &nodes, blocks, nodesize)?;
        let next = counter.finish();
        if next == count {
            return Ok(count);
        }
        count = next;
    }
}

/// The nodes `others`, and those of the extent tree, which has so many, at the slots of `rest`.
pub fn with_own<P: PieceList>(
    alloc: Global,
    plan: &Plan,
    pieces: &P,
    others: &NodeList,
    rest: &Slots,
    count: u64,
    blocks: u64,
    nodesize: u32,
) -> Result<NodeList, Memory>
    requires size { IsNodeSize nodesize }
    requires small { blocks ≤ 2 ^ 29 }
    requires units { FitsVolume plan.now blocks }
    requires pieces { ArePieces (P.pieces pieces.now) }
    requires nodes { AreNodes others.now }
    requires own { (chunks : List PlannedChunkOf) → AreChunks plan.now blocks chunks → IsOwnCount chunks (P.pieces pieces.now) others.now rest.now nodesize count }
    requires slots { AllPairs (λ a b. a < b) rest.now }
    requires few { length others.now + length rest.now < 2 ^ 44 }
    requires enough { count ≤ length rest.now }
    ensures fit { IfOk result AreNodes }
    ensures nodes { (chunks : List PlannedChunkOf) → AreChunks plan.now blocks chunks → IfOk result (λ nodes. nodes ≡ nodes_with_own chunks (P.pieces pieces.now) others.now rest.now nodesize count) }
{
    let leaves = with_leaves(alloc, others, rest, count)?;
    let counter = counted(alloc, plan, pieces, &leaves, blocks, nodesize)?;
    let mut own = NodeList::new(alloc);
    add_nodes(&mut own, rest, 0, &counter, EXTENT_TREE)?;
    merged(alloc, others, &own)
}

/// Appends the nodes of a tree with this number whose items were counted, which lie at the slots from number `first` on:
/// leaves first, and each level behind those below it.
pub fn add_nodes(
    nodes: &mut NodeList,
    slots: &Slots,
    first: usize,
    counter: &Counter,
    owner: u64,
) -> Result<(), Memory>
    requires { HasSlots counter.now first slots.now }
    ensures { (lengths : List ℕ) → Counted counter.now lengths → OnOk result (nodes.new ≡ nodes.old ++ nodes_of_tree owner counter.now.nodesize lengths (drop first slots.now)) }
{
    let slots = slots.as_slice();
    let mut at = first;
    for level in 0..=255 {
        let count = counter.level_nodes(level) as usize;
        if count == 0 {
            break;
        }
        add_level(nodes, &slots[at..at + count], level, owner)?;
        at += count;
    }
    Ok(())
}

/// Appends nodes of one level, at these slots.
fn add_level(nodes: &mut NodeList, slots: &[u64], level: u8, owner: u64) -> Result<(), Memory>
    ensures { OnOk result (nodes.new ≡ nodes.old ++ nodes_at owner level slots.now) }
{
    for &address in slots {
        nodes.add(TreeNode {
            address,
            level,
            owner,
        })?;
    }
    Ok(())
}

/// The nodes `others`, and leaves of the extent tree at so many of the first slots of `rest`.
fn with_leaves(
    alloc: Global,
    others: &NodeList,
    rest: &Slots,
    count: u64,
) -> Result<NodeList, Memory>
    requires { count ≤ length rest.now }
    ensures { IfOk result (λ nodes. nodes ≡ merged_nodes others.now (own_at rest.now count)) }
{
    let mut leaves = NodeList::new(alloc);
    add_level(
        &mut leaves,
        &rest.as_slice()[..count as usize],
        0,
        EXTENT_TREE,
    )?;
    merged(alloc, others, &leaves)
}

/// The nodes of two lists that ascend by address, ascending.
pub fn merged(alloc: Global, nodes: &NodeList, others: &NodeList) -> Result<NodeList, Memory>
    ensures { IfOk result (λ all. all ≡ merged_nodes nodes.now others.now) }
{
    let mut all = NodeList::new(alloc);
    let (mut i, mut j) = (0, 0);
    while i < nodes.len() && j < others.len() {
        let (node, other) = (nodes.get(i), others.get(j));
        if node.address <= other.address {
            all.add(node)?;
            i += 1;
            if node.address == other.address {
                j += 1;
            }
        } else {
            all.add(other)?;
            j += 1;
        }
    }
    add_all(&mut all, &nodes.as_slice()[i..])?;
    add_all(&mut all, &others.as_slice()[j..])?;
    Ok(all)
}

/// Appends these nodes.
fn add_all(all: &mut NodeList, nodes: &[TreeNode]) -> Result<(), Memory>
    ensures { OnOk result (all.new ≡ all.old ++ nodes.now) }
{
    for node in nodes {
        all.add(*node)?;
    }
    Ok(())
}

/// A counter of the nodes of the extent tree for these nodes.
fn counted<P: PieceList>(
    alloc: Global,
    plan: &Plan,
    pieces: &P,
    nodes: &NodeList,
    blocks: u64,
    nodesize: u32,
) -> Result<Counter, Memory>
    requires size { IsNodeSize nodesize }
    requires small { blocks ≤ 2 ^ 29 }
    requires units { FitsVolume plan.now blocks }
    requires pieces { ArePieces (P.pieces pieces.now) }
    requires nodes { AreNodes nodes.now }
    ensures size { IfOk result (λ c. c.nodesize ≡ nodesize) }
    ensures lengths { (chunks : List PlannedChunkOf) → AreChunks plan.now blocks chunks → IfOk result (λ c. Counted c (lengths_of (extent_items chunks (P.pieces pieces.now) nodes.now nodesize))) }
{
    let mut stream = extents(alloc, plan, pieces, nodes, blocks, nodesize)?;
    let mut counter = Counter::new(nodesize);
    while stream.advance(pieces, nodes) {
        counter.add(stream.body().len());
    }
    Ok(counter)
}
