ghost use Rattle.std.specs.Prelude.{◌≡◌, ◌≤◌, ◌+◌, ◌*◌, [], All, Some, false, length, map, IfOk, IsTrue, OnOk};
ghost use Rattle.std.specs.List.{range_with_len};
ghost use Rattle.outside.specs.History.{reads};
ghost use Rattle.btr_reader_walk.specs.btr_node.NodeSize.{IsNodeSize};
ghost use Rattle.btr_tree.specs.Builder.{Holds, IsSameBuilding, Stands};
ghost use Rattle.btr_tree.specs.Building.{AreSlots};

use btr_keys::Key;
use btr_tree::{Counter, NodeSlots, Root, Slots, TreeAnswer, TreeBuilder, node_bound};
use btrfs_format::block::SUPER_INFO_OFFSET;
use btrfs_format::key::INODE_ITEM;
use csum_kinds::SumKind;
use outside::{Access, Disk, Memory};
use outside_mem::MemDisk;
use std::alloc::Global;
use std::test::Fail;
use vol_block::Ids;

/// A counter of so many items with bodies of one length.
fn counted(nodesize: u32, items: u64, length: usize) -> Counter
    requires size { IsNodeSize nodesize }
    requires few { items ≤ 1000 }
    requires fits { length + 126 ≤ nodesize }
{
    let mut tree = Counter::new(nodesize);
    for _ in 0..items {
        tree.add(length);
    }
    tree
}

// The numbers of nodes are those of a slow program in another language, which packs the items into lists.
#[test]
fn nodes_of_trees(rt: HostRuntime) {
    let found = [
        counted(16384, 88, 160).finish(),
        counted(16384, 89, 160).finish(),
        counted(4096, 0, 0).finish(),
        counted(4096, 2, 3970).finish(),
        counted(4096, 1000, 1000).finish(),
        counted(8192, 1000, 2000).finish(),
        counted(32768, 1000, 3970).finish(),
        counted(65536, 1000, 3970).finish(),
    ];
    assert!(rt; found == [1, 3, 1, 3, 338, 337, 126, 64]);
}

#[test]
fn nodes_of_levels(rt: HostRuntime) {
    let counter = counted(4096, 122, 3970);
    assert_eq!(rt; counter.finish(), 125);
    for (level, nodes) in &[(0, 122), (1, 2), (2, 1), (3, 0), (255, 0)] {
        assert_eq!(rt; counter.level_nodes(*level), *nodes);
    }
}

#[test]
fn bounds(rt: HostRuntime) {
    assert!(rt; [node_bound(0, 16384), node_bound(20631, 16384)] == [10, 12]);
}

const IDS: Ids = Ids {
    fsid: [0x11; 16],
    device: [0x22; 16],
    chunk_tree: [0x33; 16],
    subvolume: [0x44; 16],
};

fn key(objectid: u64) -> Key
    ensures { result ≡ record { objectid = objectid; kind = INODE_ITEM; offset = 0 } }
{
    Key {
        objectid,
        kind: 1,
        offset: 0,
    }
}

#[test]
fn no_slot_for_a_leaf(rt: HostRuntime) -> Result<(), Fail> {
    let mut disk = MemDisk::new(rt.alloc(), 32)?;
    disk.open("", Access::Write)?;
    let slots = NodeSlots::in_place(Slots::new(rt.alloc()));
    let mut tree = TreeBuilder::new(rt.alloc(), 5, 1, slots, IDS, 4096, SumKind::Crc32c)?;
    let pushed = tree.push(&mut disk, key(256), b"body");
    assert_eq!(rt; pushed, Err(TreeAnswer::OutOfSlots));
    assert!(rt; tree.spent());
    assert_eq!(rt; disk.writes(), 0);
    Ok(())
}

#[test]
fn one_leaf(rt: HostRuntime) -> Result<(), Fail> {
    let mut disk = MemDisk::new(rt.alloc(), 32)?;
    disk.open("", Access::Write)?;
    let mut slots = Slots::new(rt.alloc());
    slots.add(65536)?;
    let slots = NodeSlots::in_place(slots);
    let mut tree = TreeBuilder::new(rt.alloc(), 5, 1, slots, IDS, 4096, SumKind::Crc32c)?;
    if tree.push(&mut disk, key(256), b"body").is_ok() {
        let root = tree.finish(&mut disk);
        assert_eq!(rt;
            root,
            Ok(Root {
                address: SUPER_INFO_OFFSET,
                level: 0,
                nodes: 1
            })
        );
    }
    assert_eq!(rt; disk.writes(), 1);
    Ok(())
}

/// Slots for so many nodes of 4,096 bytes, one behind the other.
fn slots_in_a_row(alloc: Global, count: u64) -> Result<Slots, Memory>
    requires few { count ≤ 1000 }
    ensures slots { IfOk result (AreSlots 4096) }
    ensures within { IfOk result (λ slots. All (λ a. a + 4096 ≤ 4096 * (count + 16)) slots) }
{
    let mut slots = Slots::new(alloc);
    for k in 0..count {
        slots.add(65536 + 4096 * k)?;
    }
    Ok(slots)
}

/// Pushes so many items with one body, whose keys are numbered from 0 on.
fn push_numbered<D: Disk>(
    tree: &mut TreeBuilder,
    disk: &mut D,
    count: u64,
    body: &[u8],
) -> Result<(), TreeAnswer>
    requires unspent { tree.old.spent ≡ false }
    requires going { tree.old.done ≡ false }
    requires stands { IsTrue D.tells → Stands tree.old (reads (D.history disk.old)) }
    requires empty { Holds tree.old [] }
    requires small { length body.now + 126 ≤ tree.old.made.form.nodesize }
    requires open { D.opened disk.old ≡ Some Access.Write }
    requires in_range { All (λ a. a + tree.old.made.form.nodesize ≤ 4096 * D.size disk.old) tree.old.made.offsets }
    ensures unspent { OnOk result (tree.new.spent ≡ false) }
    ensures going { tree.new.done ≡ false }
    ensures stands { IsTrue D.tells → OnOk result (Stands tree.new (reads (D.history disk.new))) }
    ensures holds { OnOk result (Holds tree.new (map (λ k. (record { objectid = k; kind = INODE_ITEM; offset = 0 }, body.now)) (range_with_len 0 count))) }
    ensures same { OnOk result (IsSameBuilding tree.old tree.new) }
    ensures open { D.opened disk.new ≡ D.opened disk.old }
    ensures size { D.size disk.new ≡ D.size disk.old }
{
    for number in 0..count {
        tree.push(disk, key(number), body)?;
    }
    Ok(())
}

// A leaf has room for one of these items, and an inner node for 121 children: above 122 leaves stand two nodes and the root.
#[test]
fn three_levels(rt: HostRuntime) -> Result<(), Fail> {
    let mut disk = MemDisk::new(rt.alloc(), 141)?;
    disk.open("", Access::Write)?;
    let slots = NodeSlots::in_place(slots_in_a_row(rt.alloc(), 125)?);
    let mut tree = TreeBuilder::new(rt.alloc(), 5, 1, slots, IDS, 4096, SumKind::Crc32c)?;
    push_numbered(&mut tree, &mut disk, 122, &[7; 3970])?;
    let root = tree.finish(&mut disk);
    assert_eq!(rt;
        root,
        Ok(Root {
            address: SUPER_INFO_OFFSET + 4096 * 124,
            level: 2,
            nodes: 125
        })
    );
    assert_eq!(rt; disk.writes(), 125);
    Ok(())
}
