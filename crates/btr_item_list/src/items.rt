ghost use Rattle.std.specs.Prelude.{◌≡◌, ◌<◌, ◌++◌, ◌∷◌, [], length, OnOk};
ghost use Rattle.btr_node.specs.btr_keys.Key.{make_key};
ghost use Rattle.btr_item_list.specs.Inodes.{inode_item, ref_item};

use crate::list::ItemList;
use crate::records::put_inode_ref;
use btr_node::btrfs_format::key::{INODE_ITEM, INODE_REF};
use btr_node::{Inode, InodeRef, Key, Memory};

/// The key of an item.
pub fn key_of(objectid: u64, kind: u8, offset: u64) -> Key
    ensures { result ≡ make_key objectid kind offset }
{
    Key {
        objectid,
        kind,
        offset,
    }
}

/// Appends an inode.
pub fn add_inode(items: &mut ItemList, ino: u64, inode: &Inode) -> Result<(), Memory>
    ensures { OnOk result (items.new ≡ items.old ++ inode_item ino inode.now ∷ []) }
{
    items.add(key_of(ino, INODE_ITEM, 0), &inode.to_bytes())
}

/// Appends the one name of an inode in a directory. `body` is where the item's body is put together.
pub fn add_ref(
    items: &mut ItemList,
    body: &mut Vec<u8>,
    ino: u64,
    parent: u64,
    name: &InodeRef<'_>,
) -> Result<(), Memory>
    requires { length name.now.name.now < 65536 }
    ensures { OnOk result (items.new ≡ items.old ++ ref_item ino parent name.now.index name.now.name.now ∷ []) }
{
    body.clear();
    put_inode_ref(body, name)?;
    items.add(key_of(ino, INODE_REF, parent), body)
}
