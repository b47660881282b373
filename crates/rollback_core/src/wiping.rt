// Copies of the Btrfs superblock in blocks that the old volume has without use.
ghost use Rattle.std.specs.Prelude.{◌≡◌, ◌≢◌, ◌≤◌, ◌<◌, ◌+◌, ◌^◌, ◌&&◌, not, nat_lt, true, codes, IfOk, length};
ghost use Rattle.reiser_bitmap.specs.outside.Fault.{HasCause};
ghost use Rattle.reiser_bitmap.specs.outside.History.{OverTold, block_at};
ghost use Rattle.reiser_bitmap.specs.vol_block.Format.{has_bytes_at};
ghost use Rattle.reiser_bitmap.specs.Bits.{has};

use crate::saved::read_block;
use btr_reader::btrfs_format::block::{FIRST_MIRROR, MAGIC, SECOND_MIRROR, SUPER_MAGIC_OFFSET};
use reiser_bitmap::{Bitmap, BlockNo, BlockSource, Fault, has_magic};

/// Whether a block of a disk is to become zeros: a copy has its place there on the volume with these used blocks, which has it without
/// use, and it holds the magic of a Btrfs superblock.
pub fn is_wiped<S: BlockSource>(src: &mut S, used: &Bitmap, place: BlockNo) -> Result<bool, Fault>
    requires inside { length used.now ≤ S.size src.old }
    requires small { place < 2 ^ 52 }
    ensures kept { S.kept src.old src.new }
    ensures free { IfOk result (λ wiped. wiped ≡ true → (place < length used.now) × (has used.now place ≢ true)) }
    ensures wiped { OverTold S.tells (S.blocks src.old) (λ disk. IfOk result (λ wiped.
        wiped ≡ (nat_lt (place + 1) (length used.now) && (not (has used.now place) && has_bytes_at (block_at disk place) SUPER_MAGIC_OFFSET (codes "_BHRfS_M"))))) }
    ensures cause { HasCause (S.faults src.old) (S.faults src.new) result }
{
    if place + 1 >= used.len() || used.is_used(place) {
        return Ok(false);
    }
    let block = read_block(src, place)?;
    Ok(has_magic(&block, SUPER_MAGIC_OFFSET, MAGIC))
}

/// The same of the blocks of both copies.
pub fn wipe_both<S: BlockSource>(src: &mut S, used: &Bitmap) -> Result<(bool, bool), Fault>
    requires inside { length used.now ≤ S.size src.old }
    ensures kept { S.kept src.old src.new }
    ensures first_free { IfOk result (λ both. both.0 ≡ true → (FIRST_MIRROR < length used.now) × (has used.now FIRST_MIRROR ≢ true)) }
    ensures second_free { IfOk result (λ both. both.1 ≡ true → (SECOND_MIRROR < length used.now) × (has used.now SECOND_MIRROR ≢ true)) }
    ensures first { OverTold S.tells (S.blocks src.old) (λ disk. IfOk result (λ both.
        both.0 ≡ (nat_lt (FIRST_MIRROR + 1) (length used.now) && (not (has used.now FIRST_MIRROR) && has_bytes_at (block_at disk FIRST_MIRROR) SUPER_MAGIC_OFFSET (codes "_BHRfS_M"))))) }
    ensures second { OverTold S.tells (S.blocks src.old) (λ disk. IfOk result (λ both.
        both.1 ≡ (nat_lt (SECOND_MIRROR + 1) (length used.now) && (not (has used.now SECOND_MIRROR) && has_bytes_at (block_at disk SECOND_MIRROR) SUPER_MAGIC_OFFSET (codes "_BHRfS_M"))))) }
    ensures cause { HasCause (S.faults src.old) (S.faults src.new) result }
{
    let first = is_wiped(src, used, FIRST_MIRROR)?;
    let second = is_wiped(src, used, SECOND_MIRROR)?;
    Ok((first, second))
}
