ghost use Rattle.std.specs.Prelude.{◌≡◌, ◌≤◌, ◌<◌, ◌+◌, ◌*◌, ◌/◌, ◌++◌, true, length, take, is_some, IsTrue, IfErr, OnOk};
ghost use Rattle.btr_node.specs.outside.Fault.{HasCause, HasCauseOf};
ghost use Rattle.btr_node.specs.outside.History.{Image, block_at};
ghost use Rattle.btr_node.specs.NodeSize.{IsNodeSize};
ghost use Rattle.btr_reader_walk.specs.Map.{place, are_mapped, is_mapped, block_of_place, blocks_at, node_at};
ghost use Rattle.btr_reader_walk.specs.Walks.{LieOn, IsReadFault};

use crate::map::{MapRange, is_mapped, place};
use btr_node::{Block, BlockNo, BlockSource, BtrAnswer, BtrRefusal, BtrRule, Fault};

/// How many bytes a block has.
const BLOCK_SIZE: usize = 4096;

/// Reads the node at an address into a buffer of the node's size.
pub fn read_node<S: BlockSource>(
    src: &mut S,
    ranges: &[MapRange],
    address: u64,
    buffer: &mut Vec<u8>,
) -> Result<(), BtrAnswer>
    requires inside { LieOn (S.size src.old) ranges.now }
    requires whole { IsNodeSize (length buffer.old.items) }
    ensures kept { S.kept src.old src.new }
    ensures cause { HasCauseOf BtrAnswer.Fault (S.faults src.old) (S.faults src.new) result }
    ensures size { length buffer.new.items ≡ length buffer.old.items }
    ensures mapped { OnOk result (is_mapped ranges.now (length buffer.old.items) address ≡ true) }
    ensures unmapped { IfErr result (IsReadFault ranges.now (length buffer.old.items) address) }
    ensures bytes { IsTrue S.tells → OnOk result (buffer.new.items ≡ node_at (S.blocks src.old) ranges.now (length buffer.old.items) address) }
{
    if !is_mapped(ranges, buffer.len() as u32, address) {
        return Err(BtrAnswer::Refused(BtrRefusal::BadBtrfs {
            address,
            rule: BtrRule::Unmapped,
        }));
    }
    read_blocks(src, ranges, address, buffer)?;
    Ok(())
}

/// Reads the blocks of a node into a buffer that has room for them, each by its own address.
fn read_blocks<S: BlockSource>(
    src: &mut S,
    ranges: &[MapRange],
    address: u64,
    buffer: &mut Vec<u8>,
) -> Result<(), Fault>
    requires inside { LieOn (S.size src.old) ranges.now }
    requires mapped { are_mapped ranges.now (length buffer.old.items / 4096) address ≡ true }
    requires whole { 4096 * (length buffer.old.items / 4096) ≡ length buffer.old.items }
    ensures kept { S.kept src.old src.new }
    ensures cause { HasCause (S.faults src.old) (S.faults src.new) result }
    ensures size { length buffer.new.items ≡ length buffer.old.items }
    ensures bytes { IsTrue S.tells → OnOk result (buffer.new.items ≡ blocks_at (S.blocks src.old) ranges.now (length buffer.old.items / 4096) address) }
{
    let device = src.len();
    let mut block = Block::zero();
    for i in 0..buffer.len() / BLOCK_SIZE {
        let no = block_of(ranges, address as u128 + 4096 * i as u128, device);
        src.read(no, &mut block)?;
        put_block(buffer, i, &block);
    }
    Ok(())
}

/// The block of the device that holds an address. The device has `device` blocks.
fn block_of(ranges: &[MapRange], address: u128, device: u64) -> BlockNo
    requires inside { LieOn device ranges.now }
    requires mapped { is_some (place ranges.now address) ≡ true }
    ensures within { result < device }
    ensures block { (image : Image) → block_at image result ≡ block_of_place image (place ranges.now address) }
{
    match place(ranges, address) {
        Some(at) => (at / 4096) as u64,
        None => 0,
    }
}

/// Puts block i of a node into its buffer.
fn put_block(buffer: &mut Vec<u8>, i: usize, block: &Block)
    requires { 4096 * i + 4096 ≤ length buffer.old.items }
    ensures size { length buffer.new.items ≡ length buffer.old.items }
    ensures more { take (4096 * (i + 1)) buffer.new.items ≡ take (4096 * i) buffer.old.items ++ block.now.bytes }
{
    let at = BLOCK_SIZE * i;
    buffer.as_mut_slice()[at..at + BLOCK_SIZE].copy_from_slice(&block.bytes);
}
