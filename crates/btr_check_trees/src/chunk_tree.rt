// The chunk tree of a volume, with its superblock.
ghost use Rattle.std.specs.Prelude.{◌≡◌, Some, None, IfErr, IfOk, OnOk};
ghost use Rattle.btr_check_rules.specs.btr_reader.Opening.{boot_chunks};
ghost use Rattle.btr_check_rules.specs.btr_reader.Volume.{IsVolumeOn};
ghost use Rattle.btr_check_rules.specs.btr_reader.btr_reader_walk.Walks.{LieOn};
ghost use Rattle.btr_check_rules.specs.btr_reader.btr_reader_walk.outside.Fault.{HasCauseOf};
ghost use Rattle.btr_check_rules.specs.btr_reader.btr_reader_walk.outside.History.{OverTold};
ghost use Rattle.btr_check_walk.specs.Answers.{IsPassAnswer};
ghost use Rattle.btr_check_walk.specs.Parts.{TellsBy};
ghost use Rattle.btr_check_trees.specs.ChunkTree.{AreSoundChunks, FailsChunks, KeepsChunkTree, WalksChunks};

use crate::among::are_system;
use crate::chunk_items::ChunkItems;
use btr_check_fields::{DevicesFound, keeps_super, wrong_chunk};
use btr_check_rules::btr_reader::btr_reader_walk::BlockSource;
use btr_check_rules::btr_reader::btr_space_items::btrfs_format::block::SUPER_INFO_OFFSET;
use btr_check_rules::btr_reader::btr_super::Super;
use btr_check_rules::btr_reader::{Btrfs, ChunkAt, array_chunks};
use btr_check_walk::{Answer, SoundPart, each_item, tree_answer};
use std::alloc::Global;

/// The chunks of a volume, and what its chunk tree tells of the device.
#[derive(Drop)]
pub struct ChunksFound {
    /// The chunks of the bootstrap array and of the chunk tree, each once.
    pub chunks: Vec<ChunkAt>,
    pub devices: DevicesFound,
}

/// The chunks of the superblock's array. Where it is no list of chunks, part 1 fails at the superblock.
fn boot_chunks(alloc: Global, sup: &Super) -> Result<Vec<ChunkAt>, Answer>
    ensures ok { IfOk result (λ chunks. boot_chunks sup.now ≡ Some chunks.items) }
    ensures err { IfErr result (TellsBy (λ part address. boot_chunks sup.now ≡ None) ⊥) }
{
    let used = (sup.sys_chunk_array_size as usize).min(sup.sys_chunk_array.len());
    match array_chunks(alloc, &sup.sys_chunk_array[..used]) {
        Ok(chunks) => Ok(chunks),
        Err(answer) => Err(tree_answer(answer)),
    }
}

/// Judges the superblock, its array, and the chunks: part 1 fails at the superblock, part 7 where a chunk is.
fn judge(
    alloc: Global,
    sup: &Super,
    boot: &[ChunkAt],
    system: &[ChunkAt],
    chunks: &[ChunkAt],
) -> Result<(), Answer>
    ensures ok { OnOk result (AreSoundChunks sup.now boot.now system.now chunks.now) }
    ensures err { IfErr result (TellsBy (FailsChunks sup.now boot.now system.now chunks.now) ⊥) }
{
    SoundPart::Trees.ask(keeps_super(sup), SUPER_INFO_OFFSET)?;
    SoundPart::Trees.ask(are_system(boot, system), SUPER_INFO_OFFSET)?;
    SoundPart::Chunks.ask_none(wrong_chunk(alloc, sup, chunks)?)?;
    Ok(())
}

/// Walks the chunk tree of a volume, whose array has these chunks.
fn walk<'a, S: BlockSource>(
    alloc: Global,
    src: &mut S,
    volume: &'a Btrfs,
    boot: &'a [ChunkAt],
) -> Result<ChunkItems<'a>, Answer>
    requires inside { LieOn (S.size src.old) volume.now.ranges.items }
    ensures kept { S.kept src.old src.new }
    ensures cause { HasCauseOf Answer.Fault (S.faults src.old) (S.faults src.new) result }
    ensures walks { OverTold S.tells (S.blocks src.old) (λ image. IsVolumeOn image volume.now → boot_chunks volume.now.sup ≡ Some boot.now → IfOk result (WalksChunks image)) }
    ensures err { OverTold S.tells (S.blocks src.old) (λ image. IsVolumeOn image volume.now → IfErr result (IsPassAnswer image)) }
{
    let mut items = ChunkItems::new(alloc, volume.sup(), boot)?;
    each_item(
        alloc,
        src,
        volume.ranges.as_slice(),
        volume.chunk_tree(),
        &mut items,
    )?;
    Ok(items)
}

/// The chunks and the device items of a walk.
fn found_in(items: ChunkItems<'_>) -> ChunksFound
    ensures chunks { result.chunks.items ≡ items.entry.chunks.items }
    ensures devices { result.devices ≡ items.entry.devices }
{
    ChunksFound {
        chunks: items.chunks,
        devices: items.devices,
    }
}

/// Reads the chunk tree of an opened volume, and judges it with the superblock and the chunks.
///
/// It is Ok exactly where parts 1 and 7 ask nothing of them that is not so, apart from faults and want of memory. Else
/// it answers [`Answer::NotSound`] of part 1 at a node of the chunk tree or at the superblock, or of part 7 at a chunk
/// or at an item of the tree that is of no chunk and not of the device. Every node is read once.
pub fn read_chunk_tree<S: BlockSource>(
    alloc: Global,
    src: &mut S,
    volume: &Btrfs,
) -> Result<ChunksFound, Answer>
    requires inside { LieOn (S.size src.old) volume.now.ranges.items }
    ensures kept { S.kept src.old src.new }
    ensures cause { HasCauseOf Answer.Fault (S.faults src.old) (S.faults src.new) result }
    ensures keeps { OverTold S.tells (S.blocks src.old) (λ image. IsVolumeOn image volume.now → IfOk result (KeepsChunkTree image)) }
    ensures err { OverTold S.tells (S.blocks src.old) (λ image. IsVolumeOn image volume.now → IfErr result (IsPassAnswer image)) }
{
    let boot = boot_chunks(alloc, volume.sup())?;
    let items = walk(alloc, src, volume, boot.as_slice())?;
    judge(
        alloc,
        volume.sup(),
        boot.as_slice(),
        items.system.as_slice(),
        items.chunks.as_slice(),
    )?;
    Ok(found_in(items))
}
