// Block 16 is written step by step.
ghost use Rattle.std.specs.Prelude.{◌≡◌, ◌⊎◌, ◌<◌, slice_set, Some, IfOk, IsTrue, OnOk};
ghost use Rattle.outside.specs.Fault.{HasCause};
ghost use Rattle.outside.specs.History.{EachCrash, IsBlock, IsSettled, OverTold, block_at, reads};
ghost use Rattle.outside.specs.Writes.{Writes};
ghost use Rattle.super_turn.specs.Turned.{IsStep, StandsWith};

use outside::btrfs_format::block::SUPER_BLOCK;
use outside::{Access, Block, BlockNo, BlockSource, Disk, Fault};

/// A block of a disk.
pub(crate) fn read_block<S: BlockSource>(src: &mut S, n: BlockNo) -> Result<Block, Fault>
    requires inside { n < S.size src.old }
    ensures kept { S.kept src.old src.new }
    ensures block { OverTold S.tells (S.blocks src.old) (λ image. IfOk result (λ block. block.bytes ≡ block_at image n)) }
    ensures cause { HasCause (S.faults src.old) (S.faults src.new) result }
{
    let mut block = Block::zero();
    src.read(n, &mut block)?;
    Ok(block)
}

/// Writes block 16, and syncs.
pub(crate) fn write_step<D: Disk>(disk: &mut D, to: &Block) -> Result<(), Fault>
    requires open { D.opened disk.old ≡ Some Access.Write }
    requires in_range { 16 < D.size disk.old }
    ensures writes { Writes D.Disk (IsBlock 16 to.now.bytes) disk.old disk.new }
    ensures written { IsTrue D.tells → OnOk result (reads (D.history disk.new) ≡ slice_set (reads (D.history disk.old)) 16 to.now.bytes) }
    ensures settled { IsTrue D.tells → OnOk result (IsSettled (D.history disk.new)) }
    ensures cause { HasCause (D.faults disk.old) (D.faults disk.new) result }
{
    disk.write(SUPER_BLOCK, to)?;
    disk.sync()
}

/// Writes block 16 twice.
pub(crate) fn turn_two<D: Disk>(disk: &mut D, first: &Block, second: &Block) -> Result<(), Fault>
    requires open { D.opened disk.old ≡ Some Access.Write }
    requires in_range { 16 < D.size disk.old }
    ensures crash { EachCrash D.tells (D.history disk.old) (D.history disk.new) (λ image.
        IsStep (block_at (reads (D.history disk.old)) 16) first.now.bytes (reads (D.history disk.old)) image
        ⊎ IsStep first.now.bytes second.now.bytes (reads (D.history disk.old)) image) }
    ensures writes { Writes D.Disk (λ b _. b ≡ 16) disk.old disk.new }
    ensures written { IsTrue D.tells → OnOk result (StandsWith second.now.bytes (reads (D.history disk.old)) (reads (D.history disk.new))) }
    ensures settled { IsTrue D.tells → OnOk result (IsSettled (D.history disk.new)) }
    ensures cause { HasCause (D.faults disk.old) (D.faults disk.new) result }
{
    write_step(disk, first)?;
    write_step(disk, second)
}

/// Writes block 16 three times.
pub(crate) fn turn_three<D: Disk>(
    disk: &mut D,
    first: &Block,
    second: &Block,
    third: &Block,
) -> Result<(), Fault>
    requires open { D.opened disk.old ≡ Some Access.Write }
    requires in_range { 16 < D.size disk.old }
    ensures crash { EachCrash D.tells (D.history disk.old) (D.history disk.new) (λ image.
        IsStep (block_at (reads (D.history disk.old)) 16) first.now.bytes (reads (D.history disk.old)) image
        ⊎ (IsStep first.now.bytes second.now.bytes (reads (D.history disk.old)) image
        ⊎ IsStep second.now.bytes third.now.bytes (reads (D.history disk.old)) image)) }
    ensures writes { Writes D.Disk (λ b _. b ≡ 16) disk.old disk.new }
    ensures written { IsTrue D.tells → OnOk result (StandsWith third.now.bytes (reads (D.history disk.old)) (reads (D.history disk.new))) }
    ensures settled { IsTrue D.tells → OnOk result (IsSettled (D.history disk.new)) }
    ensures cause { HasCause (D.faults disk.old) (D.faults disk.new) result }
{
    turn_two(disk, first, second)?;
    write_step(disk, third)
}
