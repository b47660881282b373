// Reserved blocks in which bytes of a Btrfs volume lie.
ghost use Rattle.std.specs.Prelude.{◌≤◌, ◌<◌, ◌^◌};
ghost use Rattle.reiser_bitmap.specs.vol_block.Volume.{IsReserved};
ghost use Rattle.volume_state.specs.Reserved.{IsMapApart, LieInCopy, LieInRange, LieInSecond, TellsBetween};
ghost use Rattle.volume_state.specs.Using.{LieIn, TellsReserved};

use btr_node::btrfs_format::block::{
    FIRST_MIRROR, FIRST_MIRROR_END, SECOND_MIRROR, SECOND_MIRROR_END,
};
use btr_reader_walk::MapRange;
use reiser_bitmap::{BlockNo, usable_end};

/// The first block from `first` to before `end` that is also one from `from` to before `to`.
fn first_in(first: BlockNo, end: BlockNo, from: BlockNo, to: BlockNo) -> Option<BlockNo>
    ensures { TellsBetween (λ b. (from ≤ b) × (b < to)) first end result }
{
    let first = first.max(from);
    if first < end.min(to) {
        Some(first)
    } else {
        None
    }
}

/// A block from `first` to before `end` that is reserved on a volume of so many blocks.
pub fn reserved_between(first: BlockNo, end: BlockNo, blocks: u64) -> Option<BlockNo>
    ensures { TellsBetween (λ b. IsReserved b blocks) first end result }
{
    if let Some(block) = first_in(first, end, 0, 256) {
        return Some(block);
    }
    if let Some(block) = first_in(first, end, FIRST_MIRROR, FIRST_MIRROR_END) {
        return Some(block);
    }
    if let Some(block) = first_in(first, end, SECOND_MIRROR, SECOND_MIRROR_END) {
        return Some(block);
    }
    first_in(first, end, usable_end(blocks), blocks)
}

/// A reserved block in which one of `count` bytes from an address on lies by the copy of this range that begins at `start`.
fn reserved_by_copy(
    range: &MapRange,
    start: u64,
    address: u128,
    count: u64,
    blocks: u64,
) -> Option<BlockNo>
    requires small { address < 2 ^ 65 }
    ensures { TellsReserved (λ b. LieInCopy range.now start address count b) blocks result }
{
    let logical = range.logical as u128;
    let first = address.max(logical);
    let end = (address + count as u128).min(logical + range.length as u128);
    if first >= end {
        return None;
    }
    let at = start as u128 + (first - logical);
    let last = at + (end - first) - 1;
    reserved_between((at / 4096) as u64, (last / 4096) as u64 + 1, blocks)
}

/// The same by the second copy of the range.
fn reserved_by_second(range: &MapRange, address: u128, count: u64, blocks: u64) -> Option<BlockNo>
    requires small { address < 2 ^ 65 }
    ensures { TellsReserved (λ b. LieInSecond range.now range.now.mirror address count b) blocks result }
{
    match range.mirror {
        Some(start) => reserved_by_copy(range, start, address, count, blocks),
        None => None,
    }
}

/// The same by either copy of the range.
fn reserved_by(range: &MapRange, address: u128, count: u64, blocks: u64) -> Option<BlockNo>
    requires small { address < 2 ^ 65 }
    ensures { TellsReserved (λ b. LieInRange range.now address count b) blocks result }
{
    match reserved_by_copy(range, range.physical, address, count, blocks) {
        Some(block) => Some(block),
        None => reserved_by_second(range, address, count, blocks),
    }
}

/// A reserved block of a volume of so many blocks in which one of `count` bytes from an address on lies, in either copy. Bytes whose
/// address is in no range lie nowhere.
pub fn reserved_in(ranges: &[MapRange], address: u128, count: u64, blocks: u64) -> Option<BlockNo>
    requires small { address < 2 ^ 65 }
    ensures { IsMapApart ranges.now → TellsReserved (λ b. LieIn ranges.now address count b) blocks result }
{
    for range in ranges {
        if let Some(block) = reserved_by(range, address, count, blocks) {
            return Some(block);
        }
    }
    None
}
