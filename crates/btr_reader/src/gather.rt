ghost use Rattle.std.specs.Prelude.{◌≡◌, ◌≢◌, ℕ, Some, true, ◌≤◌, ◌<◌, ◌+◌, ◌^◌, ◌++◌, ◌∷◌, ◌||◌, [], List, IfOk, OnErr, OnOk};
ghost use Rattle.btr_reader_walk.specs.refusals.declared.refusal.BtrRefusal.TheVariants.{LogPending};
ghost use Rattle.btr_reader_walk.specs.btr_keys.FileExtent.{content_value};
ghost use Rattle.btr_reader_walk.specs.declared.map.MapRange.{MapRange as RangeOf};
ghost use Rattle.btr_reader_walk.specs.Events.{TreeItem};
ghost use Rattle.btr_reader_contents.specs.Extents.{extent_length, covered_by, is_aligned, is_extent_key, extents_of};
ghost use Rattle.btr_reader.specs.Image.{content_is_inline};
ghost use Rattle.btr_reader.specs.Pieces.{range_pieces, pieces_of, GathersExtents, AreGatheredInOrder, TellsExtents};

use crate::gathered::Gathered;
use crate::mapped_extent::MappedExtent;
use btr_reader_contents::{Reach, check_extent, covered_by, extent_length, is_hole};
use btr_reader_walk::{
    BtrRefusal, BtrRule, DiskRange, ExtentContent, FileExtent, Key, MapRange, Memory,
};
use btr_space_items::btrfs_format::key::EXTENT_DATA;
use std::alloc::Global;

/// Whether a key is that of an extent of this inode.
fn is_extent_key(inode: u64, key: &Key) -> bool
    ensures { result ≡ is_extent_key inode key.now }
{
    key.objectid == inode && key.kind == EXTENT_DATA
}

fn is_inline(content: &ExtentContent<'_>) -> bool
    ensures { result ≡ content_is_inline (content_value content.now) }
{
    match content {
        ExtentContent::Inline(_) => true,
        ExtentContent::Regular(_) => false,
        ExtentContent::Prealloc(_) => false,
    }
}

/// Adds the piece of a regular extent at byte `offset` of the file, unless it is a hole.
fn push_range(pieces: &mut Vec<MappedExtent>, offset: u64, range: &DiskRange) -> Result<(), Memory>
    ensures pushed { OnOk result (pieces.new.items ≡ pieces.old.items ++ range_pieces offset range.now) }
    ensures unchanged { OnErr result (pieces.new.items ≡ pieces.old.items) }
{
    if is_hole(range) {
        return Ok(());
    }
    pieces.push(MappedExtent {
        first: offset / 4096,
        count: range.num_bytes / 4096,
        disk: range.disk_bytenr,
        offset: range.offset,
    })?;
    Ok(())
}

fn push_content(
    pieces: &mut Vec<MappedExtent>,
    offset: u64,
    content: &ExtentContent<'_>,
) -> Result<(), Memory>
    ensures pushed { OnOk result (pieces.new.items ≡ pieces.old.items ++ pieces_of offset (content_value content.now)) }
    ensures unchanged { OnErr result (pieces.new.items ≡ pieces.old.items) }
{
    match content {
        ExtentContent::Inline(_) => Ok(()),
        ExtentContent::Regular(range) => push_range(pieces, offset, range),
        ExtentContent::Prealloc(_) => Ok(()),
    }
}

/// Adds an extent at byte `offset` of the file.
fn add_extent(g: &mut Gathered, offset: u64, content: &ExtentContent<'_>) -> Result<(), Memory>
    requires few { g.old.reach.covered < 2 ^ 59 }
    requires behind { g.old.reach.end ≤ offset }
    requires aligned { is_aligned offset (content_value content.now) ≡ true }
    requires order { AreGatheredInOrder g.old }
    ensures order { AreGatheredInOrder g.new }
    ensures reach { OnErr result (g.new.reach ≡ g.old.reach) }
    ensures end { OnOk result (g.new.reach.end ≡ offset + extent_length (content_value content.now)) }
    ensures covered { OnOk result (g.new.reach.covered ≡ g.old.reach.covered + covered_by (content_value content.now)) }
    ensures inline { OnOk result (g.new.inline ≡ (g.old.inline || content_is_inline (content_value content.now))) }
    ensures pieces { OnOk result (g.new.pieces.items ≡ g.old.pieces.items ++ pieces_of offset (content_value content.now)) }
{
    push_content(&mut g.pieces, offset, content)?;
    g.reach = Reach {
        end: offset as u128 + extent_length(content) as u128,
        covered: g.reach.covered + covered_by(content) as u128,
    };
    g.inline = g.inline || is_inline(content);
    Ok(())
}

/// Gathers an item of a tree, if it is an extent of this inode. Where something is wrong with that, it is answered, and nothing is gathered.
pub fn gather_item(
    g: &mut Gathered,
    ranges: &[MapRange],
    inode: u64,
    key: &Key,
    body: &[u8],
    leaf: u64,
) -> Result<Option<BtrRefusal>, Memory>
    requires few { g.old.reach.covered < 2 ^ 59 }
    requires order { AreGatheredInOrder g.old }
    ensures order { AreGatheredInOrder g.new }
    ensures few { g.new.reach.covered < 2 ^ 59 }
    ensures told { (i : TreeItem) (given : List TreeItem) → i.key ≡ key.now → i.body ≡ body.now → i.leaf ≡ leaf → GathersExtents ranges.now (extents_of given inode) g.old
        → IfOk result (λ refusal. TellsExtents ranges.now (extents_of (given ++ i ∷ []) inode) refusal g.new) }
    ensures known { IfOk result (λ refusal. (address : ℕ) → refusal ≢ Some (LogPending address)) }
{
    if !is_extent_key(inode, key) {
        return Ok(None);
    }
    let extent = match FileExtent::read(body) {
        Some(extent) => extent,
        None => return Ok(Some(BtrRefusal::BadBtrfs {
            address: leaf,
            rule: BtrRule::Body,
        })),
    };
    if let Err(refusal) = check_extent(&g.reach, ranges, key.offset, leaf, &extent) {
        return Ok(Some(refusal));
    }
    add_extent(g, key.offset, &extent.content)?;
    Ok(None)
}

/// Nothing of a file.
pub fn nothing(alloc: Global) -> Gathered
    ensures gathers { (ranges : List RangeOf) → GathersExtents ranges [] result }
    ensures none { result.reach.covered ≡ 0 }
    ensures order { AreGatheredInOrder result }
{
    Gathered {
        reach: Reach { end: 0, covered: 0 },
        inline: false,
        pieces: Vec::new(alloc),
    }
}
