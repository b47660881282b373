// The items of the chunk tree, one after the other.
ghost use Rattle.std.specs.Prelude.{◌≡◌, ◌++◌, [], filter, IfOk, OnOk};
ghost use Rattle.std.specs.Option.{option_map};
ghost use Rattle.btr_check_rules.specs.btr_reader.Chunks.{new_chunk};
ghost use Rattle.btr_check_rules.specs.Recount.{added_chunk};
ghost use Rattle.btr_check_rules.specs.Trees.{chunk_by, is_system};
ghost use Rattle.btr_check_trees.specs.ChunkTree.{HoldsChunks};

use btr_check_fields::DevicesFound;
use btr_check_rules::btr_reader::btr_reader_walk::{Key, Memory};
use btr_check_rules::btr_reader::btr_space_items::btrfs_format::flag::{
    BLOCK_GROUP_DUP, BLOCK_GROUP_SYSTEM,
};
use btr_check_rules::btr_reader::btr_space_items::btrfs_format::key::DEV_ITEM;
use btr_check_rules::btr_reader::btr_super::Super;
use btr_check_rules::btr_reader::{ChunkAt, is_among, is_chunk_key};
use btr_check_walk::{Answer, ItemVisitor, SoundPart};
use std::alloc::Global;

/// What the items of the chunk tree tell, as they go by.
#[derive(Drop)]
pub struct ChunkItems<'a> {
    pub sup: &'a Super,
    /// The chunks of the bootstrap array.
    pub boot: &'a [ChunkAt],
    /// These, and those of the tree that are none of them.
    pub chunks: Vec<ChunkAt>,
    /// The system chunks of the tree.
    pub system: Vec<ChunkAt>,
    pub devices: DevicesFound,
}

/// Whether a chunk holds nodes of the chunk tree.
fn is_system(c: &ChunkAt) -> bool
    ensures { result ≡ is_system c.now }
{
    c.chunk.kind == BLOCK_GROUP_SYSTEM || c.chunk.kind == BLOCK_GROUP_SYSTEM | BLOCK_GROUP_DUP
}

/// Adds what was read of a chunk's item, where that is no chunk of the array.
fn push_new(
    chunks: &mut Vec<ChunkAt>,
    boot: &[ChunkAt],
    read: Option<ChunkAt>,
) -> Result<(), Memory>
    ensures { OnOk result (chunks.new.items ≡ chunks.old.items ++ added_chunk (option_map (new_chunk boot.now) read)) }
{
    let Some(c) = read else {
        return Ok(());
    };
    if is_among(&c, boot) {
        return Ok(());
    }
    chunks.push(c)?;
    Ok(())
}

/// Adds what was read of a chunk's item, where that is a system chunk.
fn push_system(system: &mut Vec<ChunkAt>, read: Option<ChunkAt>) -> Result<(), Memory>
    ensures { OnOk result (system.new.items ≡ system.old.items ++ filter is_system (chunk_by read)) }
{
    let Some(c) = read else {
        return Ok(());
    };
    if !is_system(&c) {
        return Ok(());
    }
    system.push(c)?;
    Ok(())
}

/// Adds what was read of a chunk's item to the chunks and to the system chunks.
fn add_chunk(
    chunks: &mut Vec<ChunkAt>,
    system: &mut Vec<ChunkAt>,
    boot: &[ChunkAt],
    read: Option<ChunkAt>,
) -> Result<(), Memory>
    ensures chunks { OnOk result (chunks.new.items ≡ chunks.old.items ++ added_chunk (option_map (new_chunk boot.now) read)) }
    ensures system { OnOk result (system.new.items ≡ system.old.items ++ filter is_system (chunk_by read)) }
{
    push_new(chunks, boot, read)?;
    push_system(system, read)?;
    Ok(())
}

/// Chunks once more.
fn copy_of(alloc: Global, chunks: &[ChunkAt]) -> Result<Vec<ChunkAt>, Memory>
    ensures { IfOk result (λ copy. copy.items ≡ chunks.now) }
{
    let mut copy = Vec::new(alloc);
    copy.extend_from_slice(chunks)?;
    Ok(copy)
}

impl<'a> ChunkItems<'a> {
    /// No items so far, where these are the chunks of the array.
    pub fn new(alloc: Global, sup: &'a Super, boot: &'a [ChunkAt]) -> Result<ChunkItems<'a>, Memory>
        ensures sup { IfOk result (λ v. v.sup.now ≡ sup.now) }
        ensures boot { IfOk result (λ v. v.boot.now ≡ boot.now) }
        ensures begun { IfOk result (λ v. HoldsChunks v v []) }
    {
        let chunks = copy_of(alloc, boot)?;
        Ok(ChunkItems {
            sup,
            boot,
            chunks,
            system: Vec::new(alloc),
            devices: DevicesFound::None,
        })
    }
}

impl ItemVisitor for ChunkItems<'_> {
    ghost use Rattle.btr_check_trees.specs.ChunkTree.{HoldsChunks, RefusesChunks};

    ghost holds = { λ begun now items. HoldsChunks begun now items };

    ghost refuses = { λ begun items part address. RefusesChunks items part address };

    /// Takes the next item of the chunk tree: a chunk or the device; any other one breaks part 7.
    fn visit(&mut self, _: Global, key: &Key, body: &[u8], _: u64) -> Result<(), Answer> {
        if is_chunk_key(key) {
            let read = ChunkAt::read(key.offset, body);
            add_chunk(&mut self.chunks, &mut self.system, self.boot, read)?;
            return Ok(());
        }
        if key.kind != DEV_ITEM {
            return Err(SoundPart::Chunks.fails_at(key.offset));
        }
        self.devices = self.devices.with(self.sup, key, body);
        Ok(())
    }
}
