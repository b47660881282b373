ghost use Rattle.std.specs.Prelude.{◌≡◌, Option, if◌then◌else◌, Some, None};
ghost use Rattle.btr_reader_walk.specs.Events.{TreeItem};
ghost use Rattle.btr_reader_names.specs.Inodes.{is_inode_of, first_item, TellsInode};

use btr_reader_names::InodeFound;
use btr_reader_walk::{Inode, Key};
use btr_space_items::btrfs_format::key::INODE_ITEM;

/// The first item of an inode, after one more item of the tree.
pub fn seek_inode(
    first: Option<InodeFound>,
    number: u64,
    key: &Key,
    body: &[u8],
    leaf: u64,
) -> Option<InodeFound>
    ensures { (i : TreeItem) (before : Option TreeItem) → i.key ≡ key.now → i.body ≡ body.now → i.leaf ≡ leaf → TellsInode first before
        → TellsInode result (first_item before (if is_inode_of number i then Some i else None)) }
{
    if first.is_some() {
        return first;
    }
    if key.objectid == number && key.kind == INODE_ITEM && key.offset == 0 {
        return Some(InodeFound {
            leaf,
            inode: Inode::read(body),
        });
    }
    None
}
