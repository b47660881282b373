// Trees on a disk in memory, read back by a walk.
ghost use Rattle.std.specs.Prelude.{◌≡◌, ◌≤◌, ◌<◌, ◌+◌, ◌*◌, All, AllPairs, IfOk, Some, length};
ghost use Rattle.btr_reader_walk.specs.Walks.{LieOn};
ghost use Rattle.btr_tree.specs.Building.{AreSlots};

use btr_item_list::ItemList;
use btr_keys::Key;
use btr_reader_walk::{Form, MapRange, NodePointer, NodeWalker, Owners, Tree, TreeWalker};
use btr_tree::{NodeSlots, Root, Slots};
use btr_tree_writer::{
    ListItems, NodeForm, Trees, WriteAnswer, WrittenTree, write_tree, write_tree_at,
};
use btrfs_format::block::SUPER_INFO_OFFSET;
use csum_kinds::SumKind;
use outside::{Access, BlockSource, Disk, Memory};
use outside_mem::MemDisk;
use refusals::{BtrAnswer, BtrRefusal, BtrRule};
use std::alloc::Global;
use std::test::Fail;
use vol_block::Ids;

const FORM: NodeForm = NodeForm {
    ids: Ids {
        fsid: [0x11; 16],
        device: [0x22; 16],
        chunk_tree: [0x33; 16],
        subvolume: [0x44; 16],
    },
    nodesize: 4096,
    sums: SumKind::Crc32c,
};

/// The number of the trees.
const OWNER: u64 = 5;

/// All addresses of a disk of 32 blocks.
const ALL: MapRange = MapRange {
    logical: 0,
    length: 131072,
    physical: 0,
    mirror: None,
};

/// How far the logical addresses of the slots elsewhere lie behind their offsets.
const FURTHER: u64 = 1048576;

/// Blocks 16 to 31 of a disk, at logical addresses of a volume.
const ELSEWHERE: MapRange = MapRange {
    logical: 1114112,
    length: 65536,
    physical: 65536,
    mirror: None,
};

fn key(objectid: u64) -> Key {
    Key {
        objectid,
        kind: 1,
        offset: 0,
    }
}

/// Slots for so many nodes of 4,096 bytes, one behind the other.
fn slots_in_a_row(alloc: Global, count: u64) -> Result<Slots, Memory>
    requires few { count ≤ 16 }
    ensures slots { IfOk result (AreSlots 4096) }
    ensures within { IfOk result (λ slots. All (λ a. a + 4096 ≤ 4096 * (count + 16)) slots) }
    ensures ascending { IfOk result (λ slots. AllPairs (λ a b. a < b) slots) }
    ensures count { IfOk result (λ slots. length slots ≡ count) }
{
    let mut slots = Slots::new(alloc);
    for k in 0..count {
        slots.add(65536 + 4096 * k)?;
    }
    Ok(slots)
}

/// The tree with this root.
fn tree_of(root: &Root) -> Tree
    ensures form { result.form.nodesize ≡ 4096 }
    ensures level { result.root.level ≡ root.now.level }
{
    let fsid = FORM.ids.fsid;
    Tree {
        form: Form {
            fsid,
            nodesize: FORM.nodesize,
            sums: FORM.sums,
        },
        root: NodePointer {
            address: root.address,
            level: root.level,
            generation: 1,
        },
        owner: OWNER,
    }
}

/// Whether the tree with this root has the items of the list, and no more.
fn has_items<S: BlockSource>(
    alloc: Global,
    src: &mut S,
    root: &Root,
    list: &ItemList,
) -> Result<bool, BtrAnswer>
    requires size { 32 ≤ S.size src.old }
    ensures size { S.size src.new ≡ S.size src.old }
{
    if root.level > 7 {
        return Ok(false);
    }
    let mut walker = TreeWalker::new(alloc, tree_of(root))?;
    for i in 0..list.len() {
        if !walker.advance(src, &[ALL])? {
            return Ok(false);
        }
        if walker.key() != list.key(i) || walker.body() != list.body(i) {
            return Ok(false);
        }
    }
    let more = walker.advance(src, &[ALL])?;
    Ok(!more)
}

/// Writes the items of a list to so many slots.
fn written<D: Disk>(
    alloc: Global,
    disk: &mut D,
    count: u64,
    list: &ItemList,
) -> Result<WrittenTree, WriteAnswer>
    requires few { count ≤ 16 }
    requires open { D.opened disk.old ≡ Some Access.Write }
    requires size { 32 ≤ D.size disk.old }
    ensures size { D.size disk.new ≡ D.size disk.old }
{
    let slots = slots_in_a_row(alloc, count)?;
    write_tree(alloc, disk, OWNER, FORM, slots, &mut ListItems::new(list))
}

/// A list of items with these numbers and bodies.
fn list_of(alloc: Global, items: &[(u64, &[u8])]) -> Result<ItemList, Memory> {
    let mut list = ItemList::new(alloc);
    for (number, body) in items {
        list.add(key(*number), *body)?;
    }
    Ok(list)
}

/// The root of a tree of the items of a list that is written to so many slots, the nodes that it counted, how many blocks were
/// written, and whether the items are back.
fn written_back(alloc: Global, count: u64, list: &ItemList) -> Result<(Root, u64, u64, bool), Fail>
    requires few { count ≤ 16 }
{
    let mut disk = MemDisk::new(alloc, 32)?;
    disk.open("", Access::Write)?;
    let tree = written(alloc, &mut disk, count, list)?;
    let is_back = has_items(alloc, &mut disk, &tree.root, list)?;
    let nodes = tree.counter.finish();
    Ok((tree.root, nodes, disk.writes(), is_back))
}

/// A leaf has room for one of these two items.
const LARGE: &[(u64, &[u8])] = &[(256, &[7; 3970]), (257, &[8; 3970])];

/// Items, and address, level and nodes of the root of their tree, which takes so many slots.
const TREES: [(&[(u64, &[u8])], u64, u8, u64); 3] = [
    (&[(256, b"one"), (257, b"two")], SUPER_INFO_OFFSET, 0, 1),
    (LARGE, 73728, 1, 3),
    (&[], SUPER_INFO_OFFSET, 0, 1),
];

#[test]
fn trees_are_back(rt: HostRuntime) -> Result<(), Fail> {
    for (items, address, level, nodes) in &TREES {
        let (address, level, nodes) = (*address, *level, *nodes);
        let list = list_of(rt.alloc(), *items)?;
        let found = written_back(rt.alloc(), nodes.min(16), &list)?;
        let root = Root {
            address,
            level,
            nodes,
        };
        assert!(rt; found == (root, nodes, nodes, true));
    }
    Ok(())
}

/// The address of the next node of a walk, and the key that its parent has for it; it is opened, by a map of addresses.
fn next_node<S: BlockSource>(
    walker: &mut NodeWalker,
    src: &mut S,
    ranges: &[MapRange],
) -> Result<Option<(u64, Option<Key>)>, BtrAnswer>
    requires inside { LieOn (S.size src.old) ranges.now }
    ensures size { S.size src.new ≡ S.size src.old }
{
    let entry = match walker.take() {
        Some(entry) => entry,
        None => return Ok(None),
    };
    walker.open(src, ranges, &entry)?;
    Ok(Some((entry.pointer.address, entry.key)))
}

/// Writes a tree of two leaves and their root, and says where the root is.
fn three_nodes<D: Disk>(alloc: Global, disk: &mut D) -> Result<Root, WriteAnswer>
    requires open { D.opened disk.old ≡ Some Access.Write }
    requires size { 32 ≤ D.size disk.old }
    ensures size { D.size disk.new ≡ D.size disk.old }
{
    let list = list_of(alloc, LARGE)?;
    let tree = written(alloc, disk, 3, &list)?;
    Ok(tree.root)
}

/// A tree of which a node is taken to be the root, and how it is walked.
#[derive(Clone, Copy)]
struct Walk {
    root: Root,
    owner: u64,
    generation: u64,
    owners: Owners,
}

impl Walk {
    fn walker(&self, alloc: Global) -> Result<NodeWalker, BtrAnswer> {
        if self.root.level > 7 {
            return Err(BtrAnswer::Memory);
        }
        let tree = tree_of(&self.root);
        let tree = Tree {
            root: NodePointer {
                generation: self.generation,
                ..tree.root
            },
            owner: self.owner,
            ..tree
        };
        Ok(NodeWalker::new(alloc, tree, self.owners)?)
    }
}

/// The address of a node, and the key that its parent has for it.
type Visit = Option<(u64, Option<Key>)>;

/// The first four nodes of a walk, by a range of addresses.
fn visits<S: BlockSource>(
    alloc: Global,
    src: &mut S,
    walk: &Walk,
    range: MapRange,
) -> Result<[Visit; 4], BtrAnswer>
    requires size { 32 ≤ S.size src.old }
    requires inside { range.physical + range.length ≤ 131072 }
    ensures size { S.size src.new ≡ S.size src.old }
{
    let mut walker = walk.walker(alloc)?;
    let ranges = [range];
    let first = next_node(&mut walker, src, &ranges)?;
    let second = next_node(&mut walker, src, &ranges)?;
    let third = next_node(&mut walker, src, &ranges)?;
    let fourth = next_node(&mut walker, src, &ranges)?;
    Ok([first, second, third, fourth])
}

/// Why the root of a walk is refused, and whether anything is below it.
fn refusal<S: BlockSource>(
    alloc: Global,
    src: &mut S,
    walk: &Walk,
    range: MapRange,
) -> Result<(Option<BtrAnswer>, bool), BtrAnswer>
    requires size { 32 ≤ S.size src.old }
    requires inside { range.physical + range.length ≤ 131072 }
    ensures size { S.size src.new ≡ S.size src.old }
{
    let mut walker = walk.walker(alloc)?;
    let refused = next_node(&mut walker, src, &[range]).err();
    Ok((refused, walker.take().is_some()))
}

/// Whether a walk has two nodes to take, where none is opened.
fn takes(alloc: Global, walk: &Walk) -> Result<[bool; 2], BtrAnswer> {
    let mut walker = walk.walker(alloc)?;
    Ok([walker.take().is_some(), walker.take().is_some()])
}

/// The nodes of that tree, this far behind: the root has no parent.
fn nodes(further: u64) -> [Visit; 4]
    requires { further ≤ 1048576 }
{
    [
        Some((further + 73728, None)),
        Some((further + 65536, Some(key(256)))),
        Some((further + 69632, Some(key(257)))),
        None,
    ]
}

/// A root is refused that is there, and nothing is below it.
fn refused(address: u64) -> (Option<BtrAnswer>, bool) {
    let rule = BtrRule::NodeHead;
    let refusal = BtrRefusal::BadBtrfs { address, rule };
    (Some(BtrAnswer::Refused(refusal)), false)
}

/// The nodes of a walk over a tree of its own, why the same root is refused to another tree, and the nodes where trees share them.
fn walked<D: Disk>(
    alloc: Global,
    disk: &mut D,
    walk: &Walk,
) -> Result<([Visit; 4], (Option<BtrAnswer>, bool), [Visit; 4]), BtrAnswer>
    requires size { 32 ≤ D.size disk.old }
{
    let other = Walk {
        owner: 257,
        ..*walk
    };
    let shared = Walk {
        owners: Owners::Files,
        ..other
    };
    let own = visits(alloc, disk, walk, ALL)?;
    let refused = refusal(alloc, disk, &other, ALL)?;
    Ok((own, refused, visits(alloc, disk, &shared, ALL)?))
}

// A node that is not opened has nothing below it. A node of another tree is refused, but where trees share nodes.
#[test]
fn nodes_one_by_one(rt: HostRuntime) -> Result<(), Fail> {
    let mut disk = MemDisk::new(rt.alloc(), 32)?;
    disk.open("", Access::Write)?;
    let walk = Walk {
        root: three_nodes(rt.alloc(), &mut disk)?,
        owner: OWNER,
        generation: 1,
        owners: Owners::Own,
    };
    let found = walked(rt.alloc(), &mut disk, &walk)?;
    assert!(rt; found == (nodes(0), refused(73728), nodes(0)));
    assert!(rt; takes(rt.alloc(), &walk)? == [true, false]);
    Ok(())
}

/// Addresses of so many slots, each that far behind the offset of the slot.
fn addresses_elsewhere(alloc: Global, count: u64) -> Result<Slots, Memory>
    requires few { count ≤ 16 }
    ensures count { IfOk result (λ slots. length slots ≡ count) }
{
    let mut slots = Slots::new(alloc);
    for k in 0..count {
        slots.add(FURTHER + 65536 + 4096 * k)?;
    }
    Ok(slots)
}

/// Writes the items of a list to so many slots whose addresses are not their offsets, by transaction 7.
fn written_elsewhere<D: Disk>(
    alloc: Global,
    disk: &mut D,
    count: u64,
    list: &ItemList,
) -> Result<WrittenTree, WriteAnswer>
    requires few { count ≤ 16 }
    requires open { D.opened disk.old ≡ Some Access.Write }
    requires size { 32 ≤ D.size disk.old }
    ensures size { D.size disk.new ≡ D.size disk.old }
{
    let offsets = slots_in_a_row(alloc, count)?;
    let addresses = addresses_elsewhere(alloc, count)?;
    let slots = NodeSlots::mapped(addresses, offsets);
    write_tree_at(
        alloc,
        disk,
        OWNER,
        FORM,
        7,
        slots,
        &mut ListItems::new(list),
    )
}

// The tree is read back by the map that gives the slots at their offsets, and not as one of transaction 1.
#[test]
fn nodes_elsewhere(rt: HostRuntime) -> Result<(), Fail> {
    let list = list_of(rt.alloc(), LARGE)?;
    let mut disk = MemDisk::new(rt.alloc(), 32)?;
    disk.open("", Access::Write)?;
    let walk = Walk {
        root: written_elsewhere(rt.alloc(), &mut disk, 3, &list)?.root,
        owner: OWNER,
        generation: 7,
        owners: Owners::Own,
    };
    assert!(rt; visits(rt.alloc(), &mut disk, &walk, ELSEWHERE)? == nodes(FURTHER));
    let early = Walk {
        generation: 1,
        ..walk
    };
    let found = refusal(rt.alloc(), &mut disk, &early, ELSEWHERE)?;
    assert!(rt; found == refused(FURTHER + 73728));
    Ok(())
}

/// What is answered for a list, with up to 16 slots.
fn answer(alloc: Global, list: &ItemList, count: u64) -> Result<Option<WriteAnswer>, Fail> {
    let mut disk = MemDisk::new(alloc, 32)?;
    disk.open("", Access::Write)?;
    Ok(written(alloc, &mut disk, count.min(16), list).err())
}

/// Two items, so many slots, and the answer. They do not fit there by their order, their length or the slots.
const ANSWERS: [(&[(u64, &[u8])], u64, Option<WriteAnswer>); 7] = [
    (&[(1, &[7; 3970]), (2, &[7; 3970])], 3, None),
    (&[(2, &[7; 3970]), (1, &[7; 3970])], 3, MISFIT),
    (&[(1, &[7; 3970]), (1, &[7; 3970])], 3, MISFIT),
    (&[(1, &[7; 3971]), (2, &[7; 3971])], 3, MISFIT),
    (&[(1, &[7; 3970]), (2, &[7; 3970])], 2, MISFIT),
    (&[(1, &[7; 3970]), (2, &[7; 3970])], 1, MISFIT),
    (&[(1, b"body"), (2, b"body")], 0, MISFIT),
];

const MISFIT: Option<WriteAnswer> = Some(WriteAnswer::Misfit);

#[test]
fn misfits(rt: HostRuntime) -> Result<(), Fail> {
    for (items, count, wanted) in &ANSWERS {
        let list = list_of(rt.alloc(), *items)?;
        assert!(rt; answer(rt.alloc(), &list, *count)? == *wanted);
    }
    Ok(())
}

/// Two trees of the items of one list, and how many slots and nodes they took together.
#[derive(Clone, Copy, Debug, PartialEq, Eq)]
struct Twice {
    roots: (Root, Root),
    taken: usize,
    nodes: usize,
}

impl Twice {
    /// Writes both to six slots.
    fn written<D: Disk>(alloc: Global, disk: &mut D, list: &ItemList) -> Result<Twice, WriteAnswer>
        requires open { D.opened disk.old ≡ Some Access.Write }
        requires size { 32 ≤ D.size disk.old }
        ensures size { D.size disk.new ≡ D.size disk.old }
    {
        let mut trees = Trees::new(alloc, FORM, slots_in_a_row(alloc, 6)?);
        let first = trees.write(alloc, disk, OWNER, &mut ListItems::new(list))?;
        let second = trees.write(alloc, disk, OWNER, &mut ListItems::new(list))?;
        Ok(Twice {
            roots: (first, second),
            taken: trees.taken(),
            nodes: trees.nodes().len(),
        })
    }
}

#[test]
fn two_trees(rt: HostRuntime) -> Result<(), Fail> {
    let list = list_of(rt.alloc(), LARGE)?;
    let mut disk = MemDisk::new(rt.alloc(), 32)?;
    disk.open("", Access::Write)?;
    let twice = Twice::written(rt.alloc(), &mut disk, &list)?;
    let (first, second) = twice.roots;
    let found = (first.address, second.address, twice.taken, twice.nodes);
    assert!(rt; found == (73728, 86016, 6, 6));
    assert!(rt; has_items(rt.alloc(), &mut disk, &first, &list)?);
    assert!(rt; has_items(rt.alloc(), &mut disk, &second, &list)?);
    Ok(())
}
