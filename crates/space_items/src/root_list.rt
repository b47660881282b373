ghost use Rattle.std.specs.Prelude.{◌≡◌, ◌≤◌, ◌<◌, ◌*◌, ◌^◌, ◌++◌, ◌∷◌, [], drop, slice_range, length, All, AllPairs, IfOk, OnOk};
ghost use Rattle.btr_item_list.specs.Inodes.{inode_item, ref_item};
ghost use Rattle.space_items.specs.Roots.{AreBefore, root_items, tree_root_item, root_body, root_inode, root_dirid, tree_uuid, other_root_items, saved_ref, default_item};

use crate::node::{RootList, TreeRoot};
use btr_item_list::{
    ItemList, add_inode, add_ref, inode_made, key_of, new_inode, put_dir_entry, stamp_of,
};
use btr_space_items::btrfs_format::flag::FT_DIR;
use btr_space_items::btrfs_format::key::{DIR_ITEM, ROOT_BACKREF, ROOT_ITEM, ROOT_REF};
use btr_space_items::btrfs_format::object::{
    CONV_IMAGE_SUBVOL, FIRST_FREE_OBJECTID, FS_TREE, ROOT_TREE_DIR_OBJECTID,
};
use btr_space_items::{RootItem, RootRef};
use btr_tree::vol_block::DIRECTORY_MODE;
use btr_tree::{DirEntry, Ids, Inode, InodeRef, Key, Memory, name_hash};
use std::alloc::Global;

/// The entry of tree 5's root that names the subvolume with the image.
const SAVED: &[u8] = b"reiserfs_saved";

/// The entry that names the tree to mount.
const DEFAULT: &[u8] = b"default";

/// The items of the root tree. `list` has the other trees, ascending by number, `index` is that of tree 5's entry
/// `reiserfs_saved`, and `now` is the time of the conversion in seconds since the start of 1970, below 2^63.
pub fn roots(
    alloc: Global,
    list: &RootList,
    index: u64,
    ids: &Ids,
    now: u64,
    nodesize: u32,
) -> Result<ItemList, Memory>
    requires moment { now < 2 ^ 63 }
    requires few { All (λ r. nodesize * r.root.nodes < 2 ^ 64) list.now }
    requires order { AllPairs (λ r s. r.tree < s.tree) list.now }
    ensures { IfOk result (λ items. items ≡ root_items list.now index ids.now now nodesize) }
{
    let others = other_items(alloc, index, now)?;
    let mut items = ItemList::new(alloc);
    let mut next = 0;
    for i in 0..list.len() {
        let root = list.get(i);
        let key = key_of(root.tree, ROOT_ITEM, 0);
        next = add_before(&mut items, &others, next, key)?;
        add_root(&mut items, ids, nodesize, root)?;
    }
    add_rest(&mut items, &others, next)?;
    Ok(items)
}

/// Appends those of the others from one on whose keys are before a key, and tells which is the next.
fn add_before(
    items: &mut ItemList,
    others: &ItemList,
    first: usize,
    key: Key,
) -> Result<usize, Memory>
    requires { first ≤ length others.now }
    ensures passed { IfOk result (AreBefore others.now first key) }
    ensures added { IfOk result (λ next. items.new ≡ items.old ++ slice_range others.now first next) }
{
    let mut next = first;
    while next < others.len() && others.key(next).is_before(&key) {
        items.add(others.key(next), others.body(next))?;
        next += 1;
    }
    Ok(next)
}

/// Appends all of the others from one on.
fn add_rest(items: &mut ItemList, others: &ItemList, first: usize) -> Result<(), Memory>
    ensures { OnOk result (items.new ≡ items.old ++ drop first others.now) }
{
    for i in first..others.len() {
        items.add(others.key(i), others.body(i))?;
    }
    Ok(())
}

/// Appends a root item.
fn add_root(items: &mut ItemList, ids: &Ids, nodesize: u32, root: TreeRoot) -> Result<(), Memory>
    requires { nodesize * root.root.nodes < 2 ^ 64 }
    ensures { OnOk result (items.new ≡ items.old ++ tree_root_item ids.now nodesize root ∷ []) }
{
    let mut body = [0; RootItem::SIZE];
    root_body(ids, nodesize, root).write(&mut body);
    items.add(key_of(root.tree, ROOT_ITEM, 0), &body)
}

/// What a root item has.
fn root_body(ids: &Ids, nodesize: u32, root: TreeRoot) -> RootItem
    requires { nodesize * root.root.nodes < 2 ^ 64 }
    ensures { result ≡ root_body ids.now nodesize root }
{
    let never = stamp_of(0);
    RootItem {
        inode: root_inode(nodesize),
        generation: 1,
        root_dirid: root_dirid(root.tree),
        bytenr: root.root.address,
        byte_limit: 0,
        bytes_used: nodesize as u64 * root.root.nodes,
        last_snapshot: 0,
        flags: 0,
        refs: 1,
        drop_progress: key_of(0, 0, 0),
        drop_level: 0,
        level: root.root.level,
        generation_v2: 1,
        uuid: uuid_of(ids, root.tree),
        parent_uuid: [0; 16],
        received_uuid: [0; 16],
        ctransid: 0,
        otransid: 0,
        stransid: 0,
        rtransid: 0,
        ctime: never,
        otime: never,
        stime: never,
        rtime: never,
    }
}

/// The subvolume of the image has an identifier.
fn uuid_of(ids: &Ids, tree: u64) -> [u8; 16]
    ensures { result ≡ tree_uuid ids.now tree }
{
    if tree == CONV_IMAGE_SUBVOL {
        ids.subvolume
    } else {
        [0; 16]
    }
}

/// The inode of the root directory of a tree that holds files, as tree 5 and those from 256 on; 0 for others.
fn root_dirid(tree: u64) -> u64
    ensures { result ≡ root_dirid tree }
{
    if tree == FS_TREE || tree >= FIRST_FREE_OBJECTID {
        FIRST_FREE_OBJECTID
    } else {
        0
    }
}

/// A root item has the inode of a directory in it, of which a kernel reads nothing.
fn root_inode(nodesize: u32) -> Inode
    ensures { result ≡ root_inode nodesize }
{
    Inode {
        generation: 0,
        transid: 0,
        size: 3,
        nbytes: nodesize as u64,
        mode: DIRECTORY_MODE,
        ..new_inode()
    }
}

/// The subvolume's references from and to tree 5, and directory 6 with the entry `default`.
fn other_items(alloc: Global, index: u64, now: u64) -> Result<ItemList, Memory>
    requires { now < 2 ^ 63 }
    ensures { IfOk result (λ items. items ≡ other_root_items index now) }
{
    let mut items = ItemList::new(alloc);
    let mut body = Vec::new(alloc);
    let saved = saved_ref(index);
    items.add(key_of(FS_TREE, ROOT_REF, CONV_IMAGE_SUBVOL), &saved)?;
    add_inode(
        &mut items,
        ROOT_TREE_DIR_OBJECTID,
        &inode_made(now, DIRECTORY_MODE, 0, 0, 0),
    )?;
    let up = InodeRef {
        index: 0,
        name: b"..",
    };
    add_ref(
        &mut items,
        &mut body,
        ROOT_TREE_DIR_OBJECTID,
        ROOT_TREE_DIR_OBJECTID,
        &up,
    )?;
    add_default(&mut items, &mut body)?;
    items.add(key_of(CONV_IMAGE_SUBVOL, ROOT_BACKREF, FS_TREE), &saved)?;
    Ok(items)
}

/// The body of the references between the subvolume and tree 5.
fn saved_ref(index: u64) -> [u8; 32]
    ensures { result ≡ saved_ref index }
{
    let name = RootRef {
        dirid: FIRST_FREE_OBJECTID,
        sequence: index,
        name: SAVED,
    };
    let mut body = [0; 32];
    name.write(&mut body);
    body
}

/// Appends the entry `default` of directory 6, which names tree 5.
fn add_default(items: &mut ItemList, body: &mut Vec<u8>) -> Result<(), Memory>
    ensures { OnOk result (items.new ≡ items.old ++ default_item ∷ []) }
{
    let entry = DirEntry {
        location: key_of(FS_TREE, ROOT_ITEM, u64::MAX),
        transid: 1,
        data_length: 0,
        kind: FT_DIR,
        name: DEFAULT,
    };
    body.clear();
    put_dir_entry(body, &entry)?;
    items.add(
        key_of(ROOT_TREE_DIR_OBJECTID, DIR_ITEM, name_hash(DEFAULT) as u64),
        body,
    )
}
