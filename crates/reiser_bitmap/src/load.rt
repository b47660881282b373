ghost use Rattle.std.specs.Prelude.{◌≡◌, ◌+◌, ◌/◌, ◌≤◌, ◌++◌, [], length, take, IfOk, IfErr, OnOk};
ghost use Rattle.refusals.specs.outside.Fault.{HasCauseOf};
ghost use Rattle.refusals.specs.outside.History.{OverTold};
ghost use Rattle.reiser_bitmap.specs.Answers.{IsNoRefusal};
ghost use Rattle.reiser_bitmap.specs.Bits.{bits};
ghost use Rattle.reiser_bitmap.specs.Layout.{bitmap_of};
ghost use Rattle.reiser_bitmap.specs.Stored.{IsStored};

use crate::Bitmap;
use crate::layout::bitmap_block;
use refusals::{Block, BlockSource, Memory, VolAnswer};
use reiserfs_format::block::{BITS_IN_BLOCK, FIRST_FREE_BLOCK};
use std::alloc::Global;

/// How many bytes a block has.
const BLOCK_SIZE: usize = 4096;

impl Bitmap {
    /// The bitmap of a volume of `blocks` blocks: which of them are marked as used. Bits past them are ignored.
    ///
    /// Each bitmap block is read once. Memory is taken once, a byte for eight blocks.
    pub fn load<S: BlockSource>(
        alloc: Global,
        src: &mut S,
        blocks: u64,
    ) -> Result<Bitmap, VolAnswer>
        requires low { FIRST_FREE_BLOCK ≤ blocks }
        requires inside { blocks ≤ S.size src.old }
        ensures kept { S.kept src.old src.new }
        ensures cause { HasCauseOf VolAnswer.Fault (S.faults src.old) (S.faults src.new) result }
        ensures answers { IfErr result IsNoRefusal }
        ensures size { IfOk result (λ m. length m ≡ blocks) }
        ensures loaded { OverTold S.tells (S.blocks src.old) (λ image. IfOk result (λ m. m ≡ bitmap_of blocks image)) }
    {
        let bytes = read_bytes(alloc, src, blocks)?;
        Ok(Bitmap::of_bytes(blocks, bytes))
    }

    /// The first bits of the bytes.
    fn of_bytes(blocks: u64, mut bytes: Vec<u8>) -> Bitmap
        requires { length bytes.items ≡ (blocks + 7) / 8 }
        ensures { result ≡ bits blocks bytes.items }
    {
        clear_tail(&mut bytes, blocks);
        Bitmap { blocks, bytes }
    }
}

/// Reads the bytes of the bitmap, to the one that has the last bit.
fn read_bytes<S: BlockSource>(alloc: Global, src: &mut S, blocks: u64) -> Result<Vec<u8>, VolAnswer>
    requires low { FIRST_FREE_BLOCK ≤ blocks }
    requires inside { blocks ≤ S.size src.old }
    ensures kept { S.kept src.old src.new }
    ensures cause { HasCauseOf VolAnswer.Fault (S.faults src.old) (S.faults src.new) result }
    ensures answers { IfErr result IsNoRefusal }
    ensures size { IfOk result (λ bytes. length bytes.items ≡ (blocks + 7) / 8) }
    ensures read { OverTold S.tells (S.blocks src.old) (λ image. IfOk result (λ bytes. bits blocks bytes.items ≡ bitmap_of blocks image)) }
{
    let size = blocks.div_ceil(8) as usize;
    let mut bytes = with_room(alloc, size)?;
    let mut block = Block::zero();
    for k in 0..blocks.div_ceil(BITS_IN_BLOCK) {
        src.read(bitmap_block(k), &mut block)?;
        let count = BLOCK_SIZE.min(size - bytes.len());
        append(&mut bytes, &block, count)?;
    }
    Ok(bytes)
}

/// Makes the bits of the last byte that are at or past bit `count` 0.
fn clear_tail(bytes: &mut Vec<u8>, count: u64)
    requires { length bytes.old.items ≡ (count + 7) / 8 }
    ensures bits { bits count bytes.new.items ≡ bits count bytes.old.items }
    ensures stored { IsStored count bytes.new.items }
{
    let used = count % 8;
    if used == 0 {
        return;
    }
    bytes[(count / 8) as usize] &= (1 << used) - 1;
}

fn with_room(alloc: Global, size: usize) -> Result<Vec<u8>, Memory>
    ensures { IfOk result (λ bytes. bytes.items ≡ []) }
{
    Ok(Vec::with_capacity(alloc, size)?)
}

/// Appends the first `count` bytes of a block.
fn append(bytes: &mut Vec<u8>, block: &Block, count: usize) -> Result<(), Memory>
    requires { count ≤ 4096 }
    ensures items { OnOk result (bytes.new.items ≡ bytes.old.items ++ take count block.now.bytes) }
    ensures size { OnOk result (length bytes.new.items ≡ length bytes.old.items + count) }
{
    bytes.extend_from_slice(&block.bytes[..count])?;
    Ok(())
}
