// File extents.
ghost use Rattle.std.specs.Prelude.{◌≡◌, ◌≤◌, ◌<◌, ◌*◌, ◌+◌, ◌^◌, ◌++◌, ◌∷◌, [], length, OnOk};
ghost use Rattle.btr_node.specs.btr_keys.FileExtent.{content_value, file_extent_value};
ghost use Rattle.btr_item_list.specs.Extents.{extent_item, regular_extent, inline_extent};

use crate::list::ItemList;
use crate::records::put_extent;
use btr_node::btrfs_format::key::EXTENT_DATA;
use btr_node::{BlockNo, DiskRange, ExtentContent, FileExtent, Key, Memory};

/// Where an extent lies, in blocks.
#[derive(Clone, Copy)]
pub struct Extent {
    /// The first block of the file.
    pub block: u64,
    /// The first block of the volume.
    pub place: BlockNo,
    /// How many there are.
    pub count: u64,
}

/// Appends an extent of blocks of the volume to the items of an inode. Each number of bytes stays at the last one of 64 bits.
pub fn add_extent(items: &mut ItemList, ino: u64, extent: Extent) -> Result<(), Memory>
    ensures { extent.block < 2 ^ 52 → extent.place < 2 ^ 52 → extent.count < 2 ^ 52
        → OnOk result (items.new ≡ items.old ++ extent_item ino extent.block (regular_extent extent.place extent.count) ∷ []) }
{
    let bytes = extent.count.saturating_mul(4096);
    let range = DiskRange {
        disk_bytenr: extent.place.saturating_mul(4096),
        disk_num_bytes: bytes,
        offset: 0,
        num_bytes: bytes,
    };
    let item = new_extent(bytes, ExtentContent::Regular(range));
    let mut body = [0; 53];
    item.write(&mut body);
    items.add(extent_key(ino, extent.block.saturating_mul(4096)), &body)
}

/// Appends the extent that holds the bytes of a file itself, at most 4096.
pub fn add_inline(
    items: &mut ItemList,
    body: &mut Vec<u8>,
    ino: u64,
    bytes: &[u8],
) -> Result<(), Memory>
    requires { length bytes.now ≤ 4096 }
    ensures { OnOk result (items.new ≡ items.old ++ extent_item ino 0 (inline_extent bytes.now) ∷ []) }
{
    let item = new_extent(bytes.len() as u64, ExtentContent::Inline(bytes));
    body.clear();
    put_extent(body, &item)?;
    items.add(extent_key(ino, 0), body)
}

/// An extent of a new tree.
fn new_extent<'a>(ram_bytes: u64, content: ExtentContent<'a>) -> FileExtent<'a>
    ensures { file_extent_value result ≡ record { generation = 1; ram_bytes = ram_bytes; compression = 0; encryption = 0; other = 0; content = content_value content.entry } }
{
    FileExtent {
        generation: 1,
        ram_bytes,
        compression: 0,
        encryption: 0,
        other: 0,
        content,
    }
}

/// The key of the extent from a byte of the file on.
fn extent_key(ino: u64, offset: u64) -> Key
    ensures { result ≡ record { objectid = ino; kind = EXTENT_DATA; offset = offset } }
{
    Key {
        objectid: ino,
        kind: EXTENT_DATA,
        offset,
    }
}
