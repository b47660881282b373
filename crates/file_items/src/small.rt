// Root directories and files that no object of the volume is.
ghost use Rattle.std.specs.Prelude.{◌≡◌, ◌<◌, ◌^◌, ◌++◌, ◌∷◌, [], IfOk, OnOk};
ghost use Rattle.file_items.specs.Names.{root_ref, entry_items};
ghost use Rattle.file_items.specs.Small.{relocation_items, image_head, image_entries, image_flags};

use crate::directory::new_entry;
use btr_item_list::btrfs_format::flag::{INODE_NODATASUM, INODE_READONLY};
use btr_item_list::btrfs_format::key::{DIR_INDEX, DIR_ITEM, INODE_ITEM};
use btr_item_list::btrfs_format::object::FIRST_FREE_OBJECTID;
use btr_item_list::vol_block::{DIRECTORY_MODE, IMAGE_MODE};
use btr_item_list::{ItemList, add_inode, add_ref, inode_made, key_of, put_dir_entry};
use reiser_volume::{Memory, name_hash};
use reiser_volume_objects::fs_rows::Kind;
use std::alloc::Global;
use unit_plan::InodeRef;

/// The name of the image.
const IMAGE: &[u8] = b"image";

/// The flags of a file that nothing changes and whose data has no checksums.
const UNSUMMED: u64 = INODE_READONLY | INODE_NODATASUM;

/// Appends the reference of a root directory, which names itself.
pub fn add_root_ref(items: &mut ItemList, body: &mut Vec<u8>) -> Result<(), Memory>
    ensures { OnOk result (items.new ≡ items.old ++ root_ref ∷ []) }
{
    let name = InodeRef {
        index: 0,
        name: b"..",
    };
    add_ref(items, body, FIRST_FREE_OBJECTID, FIRST_FREE_OBJECTID, &name)
}

/// The items of the relocation tree: an empty root directory.
#[tactic(auto, unfolding(crate::specs::Small::relocation_items))]
pub fn relocation_items(alloc: Global, now: u64) -> Result<ItemList, Memory>
    requires { now < 2 ^ 63 }
    ensures { IfOk result (λ items. items ≡ relocation_items now) }
{
    let mut items = ItemList::new(alloc);
    let mut body = Vec::new(alloc);
    add_inode(
        &mut items,
        FIRST_FREE_OBJECTID,
        &inode_made(now, DIRECTORY_MODE, 0, 0, 0),
    )?;
    add_root_ref(&mut items, &mut body)?;
    Ok(items)
}

/// The items of the tree of the saved image up to the extents: a root directory, and the file of so many blocks with so
/// many bytes of extents.
#[tactic(auto, unfolding(crate::specs::Small::image_head))]
pub fn image_head(
    alloc: Global,
    blocks: u64,
    nbytes: u64,
    datasum: bool,
    now: u64,
) -> Result<ItemList, Memory>
    requires { now < 2 ^ 63 }
    ensures { blocks < 2 ^ 52 → IfOk result (λ items. items ≡ image_head blocks nbytes datasum now) }
{
    let mut items = ItemList::new(alloc);
    let mut body = Vec::new(alloc);
    add_inode(
        &mut items,
        FIRST_FREE_OBJECTID,
        &inode_made(now, DIRECTORY_MODE, 10, 0, 0),
    )?;
    add_root_ref(&mut items, &mut body)?;
    add_image_entry(&mut items, &mut body)?;
    let size = blocks.saturating_mul(4096);
    let name = InodeRef {
        index: 2,
        name: IMAGE,
    };
    let image = inode_made(now, IMAGE_MODE, size, nbytes, image_flags(datasum));
    add_inode(&mut items, 257, &image)?;
    add_ref(&mut items, &mut body, 257, FIRST_FREE_OBJECTID, &name)?;
    Ok(items)
}

/// Appends the dir item and the dir index of the image.
fn add_image_entry(items: &mut ItemList, body: &mut Vec<u8>) -> Result<(), Memory>
    ensures { OnOk result (items.new ≡ items.old ++ entry_items FIRST_FREE_OBJECTID image_entries) }
{
    body.clear();
    put_dir_entry(
        body,
        &new_entry(key_of(257, INODE_ITEM, 0), Kind::File, IMAGE),
    )?;
    items.add(
        key_of(FIRST_FREE_OBJECTID, DIR_ITEM, name_hash(IMAGE) as u64),
        body,
    )?;
    items.add(key_of(FIRST_FREE_OBJECTID, DIR_INDEX, 2), body)
}

/// The flags of the image: it is read-only, and where data has no checksums it says so.
fn image_flags(datasum: bool) -> u64
    ensures { result ≡ image_flags datasum }
{
    if datasum { INODE_READONLY } else { UNSUMMED }
}
