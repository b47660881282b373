// Nodes of small trees, and the number of nodes of an extent tree that is counted by hand.
ghost use Rattle.std.specs.Prelude.{◌≡◌, ◌≤◌, ◌<◌, ◌^◌, length, AllPairs, IfOk};
ghost use Rattle.space_items.specs.Nodes.{nodes_at};
ghost use Rattle.space_items.specs.Stream.{ArePieces};

use btr_tree::{Counter, Slots};
use btrfs_format::object::FS_TREE;
use outside::Memory;
use reiser_bitmap::Bitmap;
use space_items::{NodeList, TreeNode, add_nodes, merged, own_nodes, with_own};
use std::alloc::Global;
use unit_plan::{Need, Piece, PieceList, PlanAnswer, choose, plans_fit};

/// The blocks of the volume. Those below 8212 are in use.
const BLOCKS: u64 = 12288;

const NODESIZE: u32 = 4096;

/// One piece, in a list.
#[derive(Drop)]
struct Sample {
    items: [Piece; 1],
}

impl PieceList for Sample {
    ghost pieces = { λ s. s.items };

    fn len(&self) -> usize {
        self.items.len()
    }

    fn get(&self, i: usize) -> &Piece {
        &self.items[i]
    }
}

/// A tail at the begin of the last chunk.
fn tail() -> Sample
    ensures pieces { ArePieces result.items }
    ensures one { length result.items ≡ 1 }
{
    let piece = Piece {
        from: None,
        count: 1,
        owner: Some((265, 3)),
        place: 9216,
    };
    Sample { items: [piece] }
}

/// So many addresses in steps of 4096 bytes.
fn row(alloc: Global, first: u64, count: u64) -> Result<Slots, Memory>
    requires low { first ≤ 2 ^ 40 }
    requires few { count ≤ 2 ^ 20 }
    ensures order { IfOk result (AllPairs (λ a b. a < b)) }
    ensures long { IfOk result (λ slots. length slots ≡ count) }
{
    let mut slots = Slots::new(alloc);
    for i in 0..count {
        slots.add(first + 4096 * i)?;
    }
    Ok(slots)
}

/// Leaves of tree 5 at these addresses.
fn leaves(alloc: Global, slots: &Slots) -> Result<NodeList, Memory>
    ensures { IfOk result (λ nodes. nodes ≡ nodes_at FS_TREE 0 slots.now) }
{
    let mut nodes = NodeList::new(alloc);
    for &address in slots.as_slice() {
        nodes.add(TreeNode {
            address,
            level: 0,
            owner: 5,
        })?;
    }
    Ok(nodes)
}

/// Address, level and tree of node `i`, or zeros.
fn node(nodes: &NodeList, i: usize) -> (u64, u8, u64) {
    if i < nodes.len() {
        let node = nodes.get(i);
        (node.address, node.level, node.owner)
    } else {
        (0, 0, 0)
    }
}

#[test]
fn nodes_of_two_lists(rt: HostRuntime) -> Result<(), Memory> {
    let low = leaves(rt.alloc(), &row(rt.alloc(), 4096, 3)?)?;
    let high = leaves(rt.alloc(), &row(rt.alloc(), 12288, 2)?)?;
    let all = merged(rt.alloc(), &high, &low)?;
    assert_eq!(rt; all.len(), 4);
    let found = [node(&all, 0), node(&all, 2), node(&all, 3)];
    assert!(rt; found == [(4096, 0, 5), (12288, 0, 5), (16384, 0, 5)]);
    Ok(())
}

/// The nodes of a tree of three leaves and a root, behind two slots.
fn levels(alloc: Global) -> Result<NodeList, Memory> {
    let slots = row(alloc, 4096, 10)?;
    let mut counter = Counter::new(NODESIZE);
    counter.add(3000);
    counter.add(3000);
    counter.add(3000);
    let mut nodes = NodeList::new(alloc);
    if counter.finish() <= 8 {
        add_nodes(&mut nodes, &slots, 2, &counter, 7)?;
    }
    Ok(nodes)
}

#[test]
fn nodes_of_a_tree(rt: HostRuntime) -> Result<(), Memory> {
    let nodes = levels(rt.alloc())?;
    assert_eq!(rt; nodes.len(), 4);
    let found = [node(&nodes, 0), node(&nodes, 2), node(&nodes, 3)];
    assert!(rt; found == [(12288, 0, 7), (20480, 0, 7), (24576, 1, 7)]);
    Ok(())
}

/// The extent tree's nodes beside 200 others, behind four block groups and a piece. Without nodes of its own its items fill
/// three leaves, so it would have four nodes; with these four it has four leaves and a root.
fn own(alloc: Global) -> Result<(u64, NodeList), PlanAnswer> {
    plans_fit();
    let mut map = Bitmap::new(alloc, BLOCKS)?;
    for b in 0..8212 {
        if b < map.len() {
            map.insert(b);
        }
    }
    let blocks = map.len();
    if blocks > BLOCKS {
        return Err(PlanAnswer::Memory);
    }
    let need = Need {
        system: 1,
        metadata: 2,
        data_: 1,
    };
    let plan = choose(alloc, &map, &need)?;
    let pieces = tail();
    let others = leaves(alloc, &row(alloc, 40_960_000, 200)?)?;
    let rest = row(alloc, 49_152_000, 1000)?;
    let count = own_nodes(alloc, &plan, &pieces, &others, &rest, blocks, NODESIZE)?;
    let nodes = with_own(
        alloc, &plan, &pieces, &others, &rest, count, blocks, NODESIZE,
    )?;
    Ok((count, nodes))
}

/// Nodes of that list, by their numbers.
const OWN: [(usize, (u64, u8, u64)); 4] = [
    (199, (41_775_104, 0, 5)),
    (200, (49_152_000, 0, 2)),
    (203, (49_164_288, 0, 2)),
    (204, (49_168_384, 1, 2)),
];

#[test]
fn own_nodes_are_counted_again(rt: HostRuntime) -> Result<(), PlanAnswer> {
    let (count, nodes) = own(rt.alloc())?;
    assert!(rt; (count, nodes.len()) == (5, 205));
    for (i, wanted) in &OWN {
        assert_eq!(rt; node(&nodes, *i), *wanted);
    }
    Ok(())
}
