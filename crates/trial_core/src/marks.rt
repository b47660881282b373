// The mark of the used blocks of a volume.
ghost use Rattle.std.specs.Prelude.{◌≡◌, ◌≤◌, ◌<◌, ℕ, true, IfOk, length, slice_index};
ghost use Rattle.reiser_bitmap.specs.outside.Fault.{HasCause};
ghost use Rattle.reiser_bitmap.specs.outside.History.{OverTold, block_at};
ghost use Rattle.reiser_bitmap.specs.Bits.{has};
ghost use Rattle.trial_core.specs.Parts.{used_mark};

use reiser_bitmap::{Bitmap, Block, BlockNo, BlockSource, Fault};
use reiser_volume::fs_rows::Marker;

/// The mark of the used blocks of a volume, each with its number. Every byte of them is read.
pub fn read_mark<S: BlockSource>(used: &Bitmap, src: &mut S) -> Result<[u8; 32], Fault>
    requires inside { length used.now ≤ S.size src.old }
    ensures kept { S.kept src.old src.new }
    ensures mark { OverTold S.tells (S.blocks src.old) (λ image. IfOk result (λ mark. mark ≡ used_mark used.now image)) }
    ensures bytes { OverTold S.tells (S.blocks src.old) (λ image. IfOk result (λ mark. (b : ℕ) → has used.now b ≡ true → (i : ℕ) → slice_index (block_at image b) i < 256)) }
    ensures cause { HasCause (S.faults src.old) (S.faults src.new) result }
{
    let mut marker = Marker::new();
    for b in 0..used.len() {
        if used.is_used(b) {
            let block = read_block(src, b)?;
            marker.add(b, &block);
        }
    }
    Ok(marker.finish())
}

/// A block, which holds bytes.
fn read_block<S: BlockSource>(src: &mut S, n: BlockNo) -> Result<Block, Fault>
    requires inside { n < S.size src.old }
    ensures kept { S.kept src.old src.new }
    ensures block { OverTold S.tells (S.blocks src.old) (λ image. IfOk result (λ block. block.bytes ≡ block_at image n)) }
    ensures bytes { IfOk result (λ block. (i : ℕ) → slice_index block.bytes i < 256) }
    ensures cause { HasCause (S.faults src.old) (S.faults src.new) result }
{
    let mut block = Block::zero();
    src.read(n, &mut block)?;
    know_bytes(&block.bytes);
    Ok(block)
}

/// Bytes are below 256. It does nothing: its caller learns it by the contract.
fn know_bytes(bytes: &[u8])
    ensures { (i : ℕ) → slice_index bytes.now i < 256 }
{
    for i in 0..bytes.len() {
        know_byte(bytes[i]);
    }
}

/// So is one of them.
fn know_byte(byte: u8)
    ensures { byte < 256 }
{
    let _value = byte;
}
