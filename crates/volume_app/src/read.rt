ghost use Rattle.std.specs.Prelude.{◌≡◌, ◌<◌, ◌-◌, ◌^◌, IsTrue, IfOk, IfErr, OnOk};
ghost use Rattle.std.specs.Option.{option_map};
ghost use Rattle.reiser_volume.specs.outside.Fault.{HasCauseOf};
ghost use Rattle.reiser_volume.specs.outside.History.{OverTold, block_at};
ghost use Rattle.btr_reader.specs.Opening.{NamesNoLogTree};
ghost use Rattle.btr_reader.specs.Parts.{SavedImage, IsReadable, RefusesPart};
ghost use Rattle.volume_app.specs.Told.{summary_with, summary_of};

use crate::summary::Summary;
use btr_reader::btr_super::Super;
use btr_reader::btrfs_format::block::SUPER_BLOCK;
use btr_reader::{Btrfs, ImageMap};
use reiser_volume::{Block, BlockSource, BtrAnswer};
use std::alloc::Global;

/// The length of the image of a map in blocks.
fn length_of(map: &Option<ImageMap>) -> Option<u64>
    ensures { result ≡ option_map (λ m. m.blocks) map.now }
{
    match map {
        Some(map) => Some(map.len()),
        None => None,
    }
}

/// What is told of a volume with this superblock and a saved image of so many blocks.
fn summary_with(sup: &Super, image: Option<u64>) -> Summary
    ensures { result ≡ summary_with sup.now image }
{
    Summary {
        fsid: sup.fsid,
        blocks: sup.total_bytes / 4096,
        generation: sup.generation,
        nodesize: sup.nodesize,
        label: sup.label,
        image,
    }
}

impl Summary {
    /// Reads what is told of the volume of a source whose block 16 was read; that is read no second time.
    ///
    /// The superblock, the chunk map, the root tree, and the trees on the way to the saved image are read and checked. The
    /// volume is refused exactly where something is wrong with them, apart from faults and want of memory, by one of the
    /// things that are; those of the opening come first. A log tree is not looked at, over any source.
    pub fn read<S: BlockSource>(
        alloc: Global,
        src: &mut S,
        block: &Block,
    ) -> Result<Summary, BtrAnswer>
        ensures kept { S.kept src.old src.new }
        ensures cause { HasCauseOf BtrAnswer.Fault (S.faults src.old) (S.faults src.new) result }
        ensures known { IfErr result NamesNoLogTree }
        ensures readable { OverTold S.tells (S.blocks src.old) (λ image. block.now.bytes ≡ block_at image SUPER_BLOCK → OnOk result (IsReadable image SavedImage)) }
        ensures told { OverTold S.tells (S.blocks src.old) (λ image. block.now.bytes ≡ block_at image SUPER_BLOCK → IfOk result (λ s. s ≡ summary_of image)) }
        ensures refused { OverTold S.tells (S.blocks src.old) (λ image. block.now.bytes ≡ block_at image SUPER_BLOCK → IfErr result (RefusesPart image SavedImage)) }
        // Where no count rose and nothing is wrong, it is read, unless memory was short.
        ensures complete { OverTold S.tells (S.blocks src.old) (λ image. block.now.bytes ≡ block_at image SUPER_BLOCK → IsReadable image SavedImage
            → S.faults src.new ≡ S.faults src.old → S.faults src.old < 2 ^ 64 - 1 → IfErr result (λ e. e ≡ BtrAnswer.Memory)) }
    {
        let volume = Btrfs::open_by(alloc, src, block)?;
        let map = volume.image_map(alloc, src)?;
        Ok(summary_with(volume.sup(), length_of(&map)))
    }
}
