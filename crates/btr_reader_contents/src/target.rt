ghost use Rattle.std.specs.Prelude.{◌≡◌, ◌≤◌, ◌<◌, ◌+◌, ◌-◌, ◌*◌, ℕ, min, max, true, false, OnOk};
ghost use Rattle.btr_reader_walk.specs.outside.Fault.{HasCause};
ghost use Rattle.btr_reader_walk.specs.outside.History.{OverTold};
ghost use Rattle.btr_reader_walk.specs.btr_keys.FileExtent.{content_value, Regular};
ghost use Rattle.btr_reader_walk.specs.Map.{place};
ghost use Rattle.btr_reader_walk.specs.Walks.{LieOn};
ghost use Rattle.fs_rows.specs.Held.{HoldsBytes};
ghost use Rattle.fs_rows.specs.Pieces.{ReplacesBlock};
ghost use Rattle.btr_reader_contents.specs.Blocks.{AreInBlocks, block_or_zeros};
ghost use Rattle.btr_reader_contents.specs.Extents.{extent_length, content_byte, range_is_aligned, is_aligned, is_hole};
ghost use Rattle.btr_reader_contents.specs.Parts.{Appends};

use crate::blocks::read_place;
use crate::extents::is_hole;
use btr_reader_walk::{Block, BlockSource, DiskRange, ExtentContent, Fault, MapRange};
use fs_rows::{FileBytes, block_count};

/// How many of `count` things from number `first` on lie below number `end`.
fn count_below(first: u64, count: u64, end: u64) -> u64
    ensures { result ≡ min count (end - first) }
{
    count.min(end.saturating_sub(first))
}

/// Puts the block at an address as block `k` of the file, up to the size.
fn put_block<S: BlockSource>(
    file: &mut FileBytes,
    src: &mut S,
    ranges: &[MapRange],
    k: u64,
    address: u128,
) -> Result<(), Fault>
    requires inside { LieOn (S.size src.old) ranges.now }
    requires fits { 4096 * k < file.old.size }
    ensures kept { S.kept src.old src.new }
    ensures cause { HasCause (S.faults src.old) (S.faults src.new) result }
    ensures size { file.new.size ≡ file.old.size }
    ensures next { OnOk result (file.new.next ≡ max file.old.next k) }
    ensures bytes { OverTold S.tells (S.blocks src.old) (λ image. (f g : ℕ → ℕ) →
        ReplacesBlock file.old.size k (block_or_zeros image (place ranges.now address)) f g → file.old.next ≤ k → HoldsBytes file.old f → OnOk result (HoldsBytes file.new g)) }
{
    let mut block = Block::zero();
    read_place(src, ranges, address, &mut block)?;
    file.put_block(k, block);
    Ok(())
}

/// Puts the blocks of a range, which has places on the device, from byte `offset` of the file on, as far as they lie
/// below the size.
fn put_blocks<S: BlockSource>(
    file: &mut FileBytes,
    src: &mut S,
    ranges: &[MapRange],
    offset: u64,
    range: &DiskRange,
) -> Result<(), Fault>
    requires inside { LieOn (S.size src.old) ranges.now }
    ensures kept { S.kept src.old src.new }
    ensures cause { HasCause (S.faults src.old) (S.faults src.new) result }
    ensures size { file.new.size ≡ file.old.size }
    ensures near { 4096 * file.old.next ≤ offset → OnOk result (4096 * file.new.next ≤ offset + range.now.num_bytes) }
    ensures bytes { OverTold S.tells (S.blocks src.old) (λ image. AreInBlocks ranges.now → is_hole range.now ≡ false → range_is_aligned offset range.now ≡ true →
        (f g : ℕ → ℕ) → Appends offset (min range.now.num_bytes (file.old.size - offset)) (content_byte image ranges.now (Regular range.now)) f g →
        4096 * file.old.next ≤ offset → HoldsBytes file.old f → OnOk result (HoldsBytes file.new g)) }
{
    let first = offset / 4096;
    for j in 0..count_below(first, range.num_bytes / 4096, block_count(file.size())) {
        let at = range.disk_bytenr as u128 + range.offset as u128 + 4096 * j as u128;
        put_block(file, src, ranges, first + j, at)?;
    }
    Ok(())
}

/// Puts a range from byte `offset` of the file on; a hole adds nothing.
fn put_range<S: BlockSource>(
    file: &mut FileBytes,
    src: &mut S,
    ranges: &[MapRange],
    offset: u64,
    range: &DiskRange,
) -> Result<(), Fault>
    requires inside { LieOn (S.size src.old) ranges.now }
    ensures kept { S.kept src.old src.new }
    ensures cause { HasCause (S.faults src.old) (S.faults src.new) result }
    ensures size { file.new.size ≡ file.old.size }
    ensures near { 4096 * file.old.next ≤ offset → OnOk result (4096 * file.new.next ≤ offset + range.now.num_bytes) }
    ensures bytes { OverTold S.tells (S.blocks src.old) (λ image. AreInBlocks ranges.now → range_is_aligned offset range.now ≡ true →
        (f g : ℕ → ℕ) → Appends offset (min range.now.num_bytes (file.old.size - offset)) (content_byte image ranges.now (Regular range.now)) f g →
        4096 * file.old.next ≤ offset → HoldsBytes file.old f → OnOk result (HoldsBytes file.new g)) }
{
    if is_hole(range) {
        return Ok(());
    }
    put_blocks(file, src, ranges, offset, range)
}

/// Puts an extent from byte `offset` of the file on, behind all that was put. It reads the blocks that a regular
/// extent has below the size, each once.
pub(crate) fn put_content<S: BlockSource>(
    file: &mut FileBytes,
    src: &mut S,
    ranges: &[MapRange],
    offset: u64,
    content: &ExtentContent<'_>,
) -> Result<(), Fault>
    requires inside { LieOn (S.size src.old) ranges.now }
    ensures kept { S.kept src.old src.new }
    ensures cause { HasCause (S.faults src.old) (S.faults src.new) result }
    ensures size { file.new.size ≡ file.old.size }
    ensures near { 4096 * file.old.next ≤ offset → OnOk result (4096 * file.new.next ≤ offset + extent_length (content_value content.now)) }
    ensures bytes { OverTold S.tells (S.blocks src.old) (λ image. AreInBlocks ranges.now → is_aligned offset (content_value content.now) ≡ true →
        (f g : ℕ → ℕ) → Appends offset (min (extent_length (content_value content.now)) (file.old.size - offset)) (content_byte image ranges.now (content_value content.now)) f g →
        4096 * file.old.next ≤ offset → HoldsBytes file.old f → OnOk result (HoldsBytes file.new g)) }
{
    match content {
        ExtentContent::Inline(bytes) => {
            file.put_bytes(offset, bytes);
            Ok(())
        }
        ExtentContent::Regular(range) => put_range(file, src, ranges, offset, range),
        ExtentContent::Prealloc(_) => Ok(()),
    }
}
