// What is read on the way to the saved image: its map, and whether reserved blocks are in use.
ghost use Rattle.std.specs.Prelude.{◌≡◌, ◌≢◌, [], ℕ, List, Ok, Err, IfErr, IfOk, IfSome, IsTrue};
ghost use Rattle.std.specs.Result.{MatchResult};
ghost use Rattle.reiser_bitmap.specs.outside.Fault.{HasCauseOf};
ghost use Rattle.reiser_bitmap.specs.outside.History.{Image, OverTold};
ghost use Rattle.reiser_bitmap.specs.refusals.declared.refusal.BtrRefusal.TheVariants.{BadBtrfs, LogPending};
ghost use Rattle.reiser_bitmap.specs.refusals.declared.rule.BtrRule.TheVariants.{SuperField};
ghost use Rattle.reiser_bitmap.specs.vol_block.Volume.{IsReserved};
ghost use Rattle.btr_reader.specs.Image.{entry_refusals, image_in, image_refusals, saved_image, saved_refusals};
ghost use Rattle.btr_reader.specs.Opening.{NamesNoLogTree};
ghost use Rattle.btr_reader.specs.Reading.{FindsSaved, IsWalkable, ReadsImage};
ghost use Rattle.btr_reader.specs.Roots.{HasRoots};
ghost use Rattle.btr_reader.specs.Volume.{IsVolumeOn};
ghost use Rattle.btr_reader_walk.specs.Events.{TreeItem};
ghost use Rattle.btr_reader_walk.specs.Walks.{IsAmong, IsBadOrFailed, LieOn, found};
ghost use Rattle.volume_state.specs.Reserved.{IsMapApart};
ghost use Rattle.volume_state.specs.Using.{HoldsPartOf, IsInFiles, IsInRoots, IsInUse, RefusesUse, TellsReserved};

use crate::extents::ReservedExtent;
use crate::nodes::reserved_node;
use btr_node::btrfs_format::block::SUPER_INFO_OFFSET;
use btr_node::btrfs_format::object::FS_TREE;
use btr_reader::{Btrfs, ImageMap, refused};
use btr_reader_walk::Tree;
use reiser_bitmap::{
    BlockNo, BlockSource, BtrAnswer, BtrRefusal, BtrRule, is_reserved, usable_end,
};
use std::alloc::Global;

/// A block that is reserved on a volume of so many blocks, and which a Btrfs volume uses, or that there is none.
#[derive(Clone, Copy, Debug, PartialEq, Eq)]
pub struct Reserved {
    /// How many blocks the volume has on which it is reserved.
    pub blocks: u64,
    /// None exactly where there is none.
    pub used: Option<BlockNo>,
}

impl Reserved {
    /// Whether the same is to be told of a volume of another length: where a block was found it is reserved there too, else no more blocks
    /// are.
    pub fn holds_of(&self, blocks: u64) -> bool
        ensures { IsTrue result → (image : Image) → TellsReserved (IsInUse image) self.now.blocks self.now.used → TellsReserved (IsInUse image) blocks self.now.used }
    {
        match self.used {
            Some(block) => is_reserved(block, blocks),
            None => has_no_more(blocks, self.blocks),
        }
    }
}

/// Whether each block that is reserved on a volume of so many blocks is so on the other one too.
fn has_no_more(blocks: u64, other: u64) -> bool
    ensures { IsTrue result → (b : ℕ) → IsReserved b blocks → IsReserved b other }
{
    let end = usable_end(blocks);
    end == blocks || (usable_end(other) <= end && blocks <= other)
}

/// What is read of a Btrfs volume on the way to its saved image.
#[derive(Drop)]
pub struct Way {
    /// Where the blocks of the image lie; None exactly where it is missing.
    pub map: Option<ImageMap>,
    /// A reserved block in use.
    pub reserved: Reserved,
}

/// Where the blocks of the saved image lie, and a block in use that is reserved on the volume in it, as long as that is thought to be.
///
/// The old volume stands behind the image, and how long it is is known late. It is taken to end within 64 KiB behind the end of the Btrfs
/// volume, as right after a conversion; ask [`Reserved::holds_of`] once its length is known.
///
/// The map is that of [`Btrfs::image_map`], refused in the same way, and what is in use that of [`reserved_used`]. For both the items of
/// the file tree are gone through once.
pub fn read_way<S: BlockSource>(
    alloc: Global,
    volume: &Btrfs,
    src: &mut S,
) -> Result<Way, BtrAnswer>
    ensures kept { S.kept src.old src.new }
    ensures cause { HasCauseOf BtrAnswer.Fault (S.faults src.old) (S.faults src.new) result }
    ensures known { IfErr result NamesNoLogTree }
    ensures device { IfOk result (λ way. IfSome way.map (λ m. m.device ≡ S.size src.old)) }
    // A source with another number of blocks is no source of this volume.
    ensures resized { S.size src.old ≢ volume.now.device → result ≡ Err (BtrAnswer.Refused (BadBtrfs SUPER_INFO_OFFSET SuperField)) }
    ensures reads { OverTold S.tells (S.blocks src.old) (λ image. IsVolumeOn image volume.now → MatchResult result (λ way. ReadsImage volume.now.ranges.items (saved_image image volume.now.sup volume.now.ranges.items) (image_refusals image volume.now.sup volume.now.ranges.items) (Ok way.map)) (IsAmong (image_refusals image volume.now.sup volume.now.ranges.items))) }
    ensures reserved { OverTold S.tells (S.blocks src.old) (λ image. IsVolumeOn image volume.now → IfOk result (λ way. TellsReserved (IsInUse image) way.reserved.blocks way.reserved.used)) }
{
    read_way_for(alloc, volume, src, old_blocks(volume.sup.total_bytes))
}

/// A conversion makes a Btrfs volume of whole stripes, `BTRFS_STRIPE_LEN`: so many blocks each.
const STRIPE_BLOCKS: u64 = 16;

/// The most blocks of an old volume of which a conversion makes a Btrfs volume of so many bytes.
fn old_blocks(total_bytes: u64) -> u64 {
    total_bytes / (4096 * STRIPE_BLOCKS) * STRIPE_BLOCKS + (STRIPE_BLOCKS - 1)
}

/// The same, where the old volume is taken to have so many blocks.
fn read_way_for<S: BlockSource>(
    alloc: Global,
    volume: &Btrfs,
    src: &mut S,
    blocks: u64,
) -> Result<Way, BtrAnswer>
    ensures kept { S.kept src.old src.new }
    ensures cause { HasCauseOf BtrAnswer.Fault (S.faults src.old) (S.faults src.new) result }
    ensures known { IfErr result NamesNoLogTree }
    ensures device { IfOk result (λ way. IfSome way.map (λ m. m.device ≡ S.size src.old)) }
    ensures blocks { IfOk result (λ way. way.reserved.blocks ≡ blocks) }
    ensures resized { S.size src.old ≢ volume.now.device → result ≡ Err (BtrAnswer.Refused (BadBtrfs SUPER_INFO_OFFSET SuperField)) }
    ensures reads { OverTold S.tells (S.blocks src.old) (λ image. IsVolumeOn image volume.now → MatchResult result (λ way. ReadsImage volume.now.ranges.items (saved_image image volume.now.sup volume.now.ranges.items) (image_refusals image volume.now.sup volume.now.ranges.items) (Ok way.map)) (IsAmong (image_refusals image volume.now.sup volume.now.ranges.items))) }
    ensures reserved { OverTold S.tells (S.blocks src.old) (λ image. IsVolumeOn image volume.now → IfOk result (λ way. TellsReserved (IsInUse image) way.reserved.blocks way.reserved.used)) }
{
    if src.len() != volume.device {
        return Err(refused(SUPER_INFO_OFFSET, BtrRule::SuperField));
    }
    let used = reserved_root(alloc, volume, src, blocks)?;
    let files = read_files(alloc, volume, src, blocks)?;
    Ok(Way {
        map: files.found,
        reserved: Reserved {
            blocks,
            used: used.or(files.used),
        },
    })
}

/// A block that is reserved on a volume of so many blocks, and in which a node of the chunk tree or of the root tree lies.
fn reserved_root<S: BlockSource>(
    alloc: Global,
    volume: &Btrfs,
    src: &mut S,
    blocks: u64,
) -> Result<Option<BlockNo>, BtrAnswer>
    requires inside { LieOn (S.size src.old) volume.now.ranges.items }
    ensures kept { S.kept src.old src.new }
    ensures cause { HasCauseOf BtrAnswer.Fault (S.faults src.old) (S.faults src.new) result }
    ensures answers { IfErr result IsBadOrFailed }
    ensures told { OverTold S.tells (S.blocks src.old) (λ image. IsVolumeOn image volume.now → MatchResult result (TellsReserved (IsInRoots image volume.now.sup volume.now.ranges.items) blocks) (IsAmong [])) }
{
    let ranges = volume.ranges.as_slice();
    if let Some(block) = reserved_node(alloc, src, &volume.chunk_tree(), ranges, blocks)? {
        return Ok(Some(block));
    }
    reserved_node(alloc, src, &volume.root_tree(), ranges, blocks)
}

/// What was sought, if it is there, and a reserved block that is used by the trees that were read for it.
#[derive(Drop)]
struct Sought<T> {
    found: Option<T>,
    used: Option<BlockNo>,
}

/// The map, and a block that is reserved on a volume of so many blocks in which a part of the file tree or of the tree of the saved image
/// lies.
fn read_files<S: BlockSource>(
    alloc: Global,
    volume: &Btrfs,
    src: &mut S,
    blocks: u64,
) -> Result<Sought<ImageMap>, BtrAnswer>
    requires inside { LieOn (S.size src.old) volume.now.ranges.items }
    ensures kept { S.kept src.old src.new }
    ensures cause { HasCauseOf BtrAnswer.Fault (S.faults src.old) (S.faults src.new) result }
    ensures known { IfErr result NamesNoLogTree }
    ensures device { IfOk result (λ files. IfSome files.found (λ m. m.device ≡ volume.now.device)) }
    ensures reads { OverTold S.tells (S.blocks src.old) (λ image. IsVolumeOn image volume.now → IsMapApart volume.now.ranges.items →
        MatchResult result (λ files. ReadsImage volume.now.ranges.items (saved_image image volume.now.sup volume.now.ranges.items) (image_refusals image volume.now.sup volume.now.ranges.items) (Ok files.found))
        (IsAmong (image_refusals image volume.now.sup volume.now.ranges.items))) }
    ensures used { OverTold S.tells (S.blocks src.old) (λ image. IsVolumeOn image volume.now → IsMapApart volume.now.ranges.items → IfOk result (λ files. TellsReserved (IsInFiles image) blocks files.used)) }
{
    let file = match volume.find_tree(FS_TREE)? {
        Some(file) => file,
        None => return Ok(Sought {
            found: None,
            used: None,
        }),
    };
    let own = note_file(alloc, volume, src, file, blocks)?;
    let saved = match own.found {
        Some(saved) => saved,
        None => return Ok(Sought {
            found: None,
            used: own.used,
        }),
    };
    let other = note_saved(alloc, volume, src, saved, blocks)?;
    Ok(Sought {
        found: other.found,
        used: own.used.or(other.used),
    })
}

/// The tree that the file tree names, and a block that is reserved on a volume of so many blocks in which a part of the file tree lies.
fn note_file<S: BlockSource>(
    alloc: Global,
    volume: &Btrfs,
    src: &mut S,
    file: Tree,
    blocks: u64,
) -> Result<Sought<Tree>, BtrAnswer>
    requires walkable { IsWalkable file }
    requires inside { LieOn (S.size src.old) volume.now.ranges.items }
    ensures kept { S.kept src.old src.new }
    ensures cause { HasCauseOf BtrAnswer.Fault (S.faults src.old) (S.faults src.new) result }
    ensures known { IfErr result NamesNoLogTree }
    ensures walkable { IfOk result (λ notes. IfSome notes.found IsWalkable) }
    ensures finds { OverTold S.tells (S.blocks src.old) (λ image. IsMapApart volume.now.ranges.items → (roots : List TreeItem) → HasRoots volume.now.roots roots →
        MatchResult result (λ notes. FindsSaved volume.now.sup roots (entry_refusals image volume.now.ranges.items file) (found image volume.now.ranges.items file) (Ok notes.found))
        (λ e. FindsSaved volume.now.sup roots (entry_refusals image volume.now.ranges.items file) (found image volume.now.ranges.items file) (Err e))) }
    ensures used { OverTold S.tells (S.blocks src.old) (λ image. IsMapApart volume.now.ranges.items → IfOk result (λ notes. TellsReserved (HoldsPartOf image volume.now.ranges.items file) blocks notes.used)) }
{
    let ranges = volume.ranges.as_slice();
    let node = reserved_node(alloc, src, &file, ranges, blocks)?;
    let mut extent = ReservedExtent::new(ranges, blocks);
    let saved = volume.saved_tree(alloc, src, file, &mut extent)?;
    Ok(Sought {
        found: saved,
        used: node.or(extent.found),
    })
}

/// The map of the image in the tree of the saved image, and a block that is reserved on a volume of so many blocks in which a part of that
/// tree lies.
fn note_saved<S: BlockSource>(
    alloc: Global,
    volume: &Btrfs,
    src: &mut S,
    tree: Tree,
    blocks: u64,
) -> Result<Sought<ImageMap>, BtrAnswer>
    requires walkable { IsWalkable tree }
    requires inside { LieOn (S.size src.old) volume.now.ranges.items }
    ensures kept { S.kept src.old src.new }
    ensures cause { HasCauseOf BtrAnswer.Fault (S.faults src.old) (S.faults src.new) result }
    ensures known { IfErr result NamesNoLogTree }
    ensures device { IfOk result (λ files. IfSome files.found (λ m. m.device ≡ volume.now.device)) }
    ensures reads { OverTold S.tells (S.blocks src.old) (λ image. IsMapApart volume.now.ranges.items →
        MatchResult result (λ files. ReadsImage volume.now.ranges.items (image_in (found image volume.now.ranges.items tree)) (saved_refusals image volume.now.ranges.items tree) (Ok files.found))
        (IsAmong (saved_refusals image volume.now.ranges.items tree))) }
    ensures used { OverTold S.tells (S.blocks src.old) (λ image. IsMapApart volume.now.ranges.items → IfOk result (λ files. TellsReserved (HoldsPartOf image volume.now.ranges.items tree) blocks files.used)) }
{
    let ranges = volume.ranges.as_slice();
    let node = reserved_node(alloc, src, &tree, ranges, blocks)?;
    let mut extent = ReservedExtent::new(ranges, blocks);
    let map = volume.read_saved(alloc, src, tree, &mut extent)?;
    Ok(Sought {
        found: map,
        used: node.or(extent.found),
    })
}

/// A block that is reserved on a volume of so many blocks, and which a Btrfs volume uses: a node of the chunk tree, the root tree, the
/// file tree or the tree of the saved image lies in it, or the disk extent of a file extent of one of the last two. None exactly where
/// there is none.
///
/// All of a disk extent is looked at, whatever part of it the file has; what lies in no chunk lies nowhere. Where the entry
/// `reiserfs_saved` names no tree that is there, the other three are looked at. No other tree is.
///
/// A log tree is answered before all else. Over the source that was opened, anything else that is answered is wrong with what is read on
/// the way to the saved image. Over a source with another number of blocks it is refused, whatever the blocks are.
pub fn reserved_used<S: BlockSource>(
    alloc: Global,
    volume: &Btrfs,
    src: &mut S,
    blocks: u64,
) -> Result<Option<BlockNo>, BtrAnswer>
    ensures kept { S.kept src.old src.new }
    ensures cause { HasCauseOf BtrAnswer.Fault (S.faults src.old) (S.faults src.new) result }
    // Over any source: a log tree first, and then another number of blocks.
    ensures logged { volume.now.sup.log_root ≢ 0 → result ≡ Err (BtrAnswer.Refused (LogPending volume.now.sup.log_root)) }
    ensures resized { volume.now.sup.log_root ≡ 0 → S.size src.old ≢ volume.now.device → result ≡ Err (BtrAnswer.Refused (BadBtrfs SUPER_INFO_OFFSET SuperField)) }
    ensures told { OverTold S.tells (S.blocks src.old) (λ image. IsVolumeOn image volume.now → MatchResult result (TellsReserved (IsInUse image) blocks) (RefusesUse image)) }
{
    if volume.sup.log_root != 0 {
        return Err(BtrAnswer::Refused(BtrRefusal::LogPending {
            address: volume.sup.log_root,
        }));
    }
    let way = read_way_for(alloc, volume, src, blocks)?;
    Ok(way.reserved.used)
}
