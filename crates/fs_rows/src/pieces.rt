// Parts of a file.
ghost use Rattle.std.specs.Prelude.{◌≡◌, ◌<◌, ◌+◌, ◌-◌, ◌*◌, ◌^◌, ℕ, length, min};
ghost use Rattle.std.specs.Int.{div_ceil};
ghost use Rattle.fs_rows.specs.Bytes.{block_by};
ghost use Rattle.fs_rows.specs.Pieces.{Overlays, ReplacesBlock};

use sink_text::Block;

/// How many of `len` things from number `first` on lie below number `end`.
pub fn count_below(first: u64, len: usize, end: u64) -> usize
    ensures { result ≡ min len (end - first) }
{
    (len as u64).min(end.saturating_sub(first)) as usize
}

/// How many blocks a file of `size` bytes has.
pub fn block_count(size: u64) -> u64
    ensures exact { result ≡ div_ceil size 4096 }
    ensures bytes { 4096 * result < size + 4096 }
    ensures bound { size < 2 ^ 64 }
{
    size.div_ceil(4096)
}

/// Copies what of the bytes, the first of which is byte `at` of a file, lies in the block of the file that begins with
/// byte `start`.
pub fn copy_piece(block: &mut Block, start: u64, at: u64, bytes: &[u8])
    requires { at + length bytes.now < 2 ^ 64 }
    ensures { (f g : ℕ → ℕ) (k : ℕ) → start ≡ 4096 * k → Overlays at bytes.now f g → block.old.bytes ≡ block_by f k → block.new.bytes ≡ block_by g k }
{
    let from = at.max(start);
    let end = at + bytes.len() as u64;
    if end > start && from - start < 4096 {
        let to = (end - start).min(4096);
        let part = &bytes[(from - at) as usize..(start + to - at) as usize];
        block.bytes[(from - start) as usize..to as usize].copy_from_slice(part);
    }
}

/// Makes zeros of what of a block of a file, which begins with byte `start`, lies at or past the size.
pub(crate) fn cut(block: &mut Block, start: u64, size: u64)
    ensures { (f g : ℕ → ℕ) (k : ℕ) → start ≡ 4096 * k → ReplacesBlock size k block.old.bytes f g → block.new.bytes ≡ block_by g k }
{
    let keep = size.saturating_sub(start).min(4096);
    block.bytes[keep as usize..].fill(0);
}
