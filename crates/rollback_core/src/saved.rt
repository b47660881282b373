// The blocks of the old volume that are to be written.
ghost use Rattle.std.specs.Prelude.{◌≡◌, ◌≢◌, ◌⊎◌, ◌≤◌, ◌<◌, ◌==◌, ◌&&◌, [], ◌∷◌, ◌++◌, map, not, true, All, IfErr, IfOk, OnOk, filter, length};
ghost use Rattle.reiser_bitmap.specs.outside.Fault.{HasCause, HasCauseOf};
ghost use Rattle.reiser_bitmap.specs.outside.History.{OverTold, block_at};
ghost use Rattle.reiser_bitmap.specs.vol_block.Volume.{is_reserved};
ghost use Rattle.reiser_bitmap.specs.Bits.{has, used_blocks};
ghost use Rattle.rollback_core.specs.Prepared.{AreSaved};
ghost use Rattle.rollback_core.specs.Writing.{GoApart};

use crate::Saved;
use btr_reader::btrfs_format::block::SUPER_BLOCK;
use reiser_bitmap::{Bitmap, Block, BlockNo, BlockSource, Fault, Memory, VolAnswer, is_reserved};
use std::alloc::Global;

/// A block of an image.
pub fn read_block<S: BlockSource>(src: &mut S, n: BlockNo) -> Result<Block, Fault>
    requires inside { n < S.size src.old }
    ensures kept { S.kept src.old src.new }
    ensures block { OverTold S.tells (S.blocks src.old) (λ image. IfOk result (λ block. block.bytes ≡ block_at image n)) }
    ensures cause { HasCause (S.faults src.old) (S.faults src.new) result }
{
    let mut block = Block::zero();
    src.read(n, &mut block)?;
    Ok(block)
}

/// The blocks of an image that a bitmap marks used and that are reserved, ascending, but for block 16.
pub fn read_reserved<S: BlockSource>(
    alloc: Global,
    src: &mut S,
    used: &Bitmap,
) -> Result<Vec<Saved>, VolAnswer>
    requires inside { length used.now ≤ S.size src.old }
    ensures kept { S.kept src.old src.new }
    ensures cause { HasCauseOf VolAnswer.Fault (S.faults src.old) (S.faults src.new) result }
    ensures answers { IfErr result (λ e. (e ≡ VolAnswer.Fault) ⊎ (e ≡ VolAnswer.Memory)) }
    ensures apart { IfOk result (λ saved. GoApart saved.items) }
    ensures marked { IfOk result (λ saved. All (λ s. (has used.now s.at ≡ true) × (s.at ≢ 16)) saved.items) }
    ensures saved { OverTold S.tells (S.blocks src.old) (λ image. IfOk result (λ saved.
        AreSaved image (filter (λ b. not (b == 16)) (filter (λ b. is_reserved b (length used.now)) (used_blocks used.now))) saved.items)) }
{
    let end = used.len();
    let mut saved = Vec::new(alloc);
    let mut at = used.next_used(0, end);
    while at < end {
        if is_saved(at, end) {
            save(src, &mut saved, at)?;
        }
        at = used.next_used(at + 1, end);
    }
    Ok(saved)
}

/// Whether a block of a volume of so many is reserved, and not that of the superblock.
fn is_saved(block: BlockNo, blocks: u64) -> bool
    ensures { result ≡ (not (block == 16) && is_reserved block blocks) }
{
    block != SUPER_BLOCK && is_reserved(block, blocks)
}

/// Appends a block of an image.
fn save<S: BlockSource>(src: &mut S, saved: &mut Vec<Saved>, at: BlockNo) -> Result<(), VolAnswer>
    requires inside { at < S.size src.old }
    ensures kept { S.kept src.old src.new }
    ensures cause { HasCauseOf VolAnswer.Fault (S.faults src.old) (S.faults src.new) result }
    ensures answers { IfErr result (λ e. (e ≡ VolAnswer.Fault) ⊎ (e ≡ VolAnswer.Memory)) }
    ensures numbers { OnOk result (map (λ s. s.at) saved.new.items ≡ map (λ s. s.at) saved.old.items ++ at ∷ []) }
    ensures blocks { OverTold S.tells (S.blocks src.old) (λ image. OnOk result (All (λ s. s.block.bytes ≡ block_at image s.at) saved.old.items → All (λ s. s.block.bytes ≡ block_at image s.at) saved.new.items)) }
{
    let block = read_block(src, at)?;
    add(saved, Saved { at, block })?;
    Ok(())
}

/// Appends a block.
fn add(saved: &mut Vec<Saved>, block: Saved) -> Result<(), Memory>
    ensures { OnOk result (saved.new.items ≡ saved.old.items ++ block ∷ []) }
{
    saved.push(block)?;
    Ok(())
}

/// How many blocks a bitmap marks used that are reserved.
pub fn count_reserved(used: &Bitmap) -> u64
    ensures { result ≡ length (filter (λ b. is_reserved b (length used.now)) (used_blocks used.now)) }
{
    let end = used.len();
    let mut count = 0;
    let mut at = used.next_used(0, end);
    while at < end {
        if is_reserved(at, end) {
            count += 1;
        }
        at = used.next_used(at + 1, end);
    }
    count
}
