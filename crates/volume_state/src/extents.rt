// The file extents of a tree.
ghost use Rattle.std.specs.Prelude.{◌≡◌, []};
ghost use Rattle.btr_node.specs.btr_keys.FileExtent.{content_value};
ghost use Rattle.btr_reader_walk.specs.Events.{TreeItem};
ghost use Rattle.volume_state.specs.Extents.{TellsRange};
ghost use Rattle.volume_state.specs.Reserved.{IsMapApart};
ghost use Rattle.volume_state.specs.Using.{HoldsExtent, TellsReserved, content_range, item_range, range_unless_hole};

use crate::reserved::reserved_in;
use btr_node::btrfs_format::key::EXTENT_DATA;
use btr_node::{DiskRange, ExtentContent, FileExtent, Key};
use btr_reader_contents::is_hole;
use btr_reader_walk::{MapRange, Notes};
use reiser_bitmap::{BlockNo, Memory};
use std::alloc::Global;

/// The range on the device, unless it is a hole.
fn unless_hole(range: DiskRange) -> Option<DiskRange>
    ensures { result ≡ range_unless_hole range }
{
    if is_hole(&range) { None } else { Some(range) }
}

/// The range that the contents of an extent have on the device.
fn content_range(content: &ExtentContent<'_>) -> Option<DiskRange>
    ensures { result ≡ content_range (content_value content.now) }
{
    match content {
        ExtentContent::Inline(_) => None,
        ExtentContent::Regular(range) => unless_hole(*range),
        ExtentContent::Prealloc(range) => unless_hole(*range),
    }
}

/// The range that an item of a file tree has on the device, compressed or not: one that is no file extent has none.
fn item_range(key: &Key, body: &[u8]) -> Option<DiskRange>
    ensures { (i : TreeItem) → i.key ≡ key.now → i.body ≡ body.now → result ≡ item_range i }
{
    if key.kind != EXTENT_DATA {
        return None;
    }
    match FileExtent::read(body) {
        Some(extent) => content_range(&extent.content),
        None => None,
    }
}

/// A reserved block in which a file extent lies, of those that were noted.
#[derive(Drop)]
pub struct ReservedExtent<'a> {
    ranges: &'a [MapRange],
    /// The blocks of the volume whose blocks are reserved.
    blocks: u64,
    pub found: Option<BlockNo>,
}

impl<'a> ReservedExtent<'a> {
    /// None so far, on a volume of so many blocks.
    pub fn new(ranges: &'a [MapRange], blocks: u64) -> ReservedExtent<'a>
        ensures ranges { result.ranges.now ≡ ranges.now }
        ensures blocks { result.blocks ≡ blocks }
        ensures begun { IsMapApart ranges.now → TellsReserved (HoldsExtent [] ranges.now) blocks result.found }
    {
        ReservedExtent {
            ranges,
            blocks,
            found: None,
        }
    }
}

impl Notes for ReservedExtent<'_> {
    ghost use Rattle.std.specs.Prelude.{◌≡◌};
    ghost use Rattle.volume_state.specs.Reserved.{IsMapApart};
    ghost use Rattle.volume_state.specs.Using.{HoldsExtent, TellsReserved};

    ghost holds = { λ begun noted items. (noted.ranges.now ≡ begun.ranges.now) × (noted.blocks ≡ begun.blocks)
        × (IsMapApart noted.ranges.now → TellsReserved (HoldsExtent items noted.ranges.now) noted.blocks noted.found) };

    /// Looks at one more item. Where a block was found, it is that.
    fn note(&mut self, _: Global, key: &Key, body: &[u8], _: u64) -> Result<(), Memory> {
        match self.found {
            Some(_) => Ok(()),
            None => {
                self.found = reserved_extent_of(key, body, self.ranges, self.blocks);
                Ok(())
            }
        }
    }
}

/// A reserved block in which the disk extent of an item lies, all of it: of a compressed extent the numbers of the file say nothing of the
/// device.
fn reserved_extent_of(key: &Key, body: &[u8], ranges: &[MapRange], blocks: u64) -> Option<BlockNo>
    ensures { (i : TreeItem) → i.key ≡ key.now → i.body ≡ body.now → IsMapApart ranges.now → TellsRange ranges.now blocks (item_range i) result }
{
    let range = item_range(key, body)?;
    reserved_in(
        ranges,
        range.disk_bytenr as u128,
        range.disk_num_bytes,
        blocks,
    )
}
