// What a crash leaves of blocks that it tears apart.
ghost use Rattle.std.specs.Prelude.{◌≡◌, Some};

use outside::{Access, BlockSource, Disk};
use outside_mem::MemDisk;
use std::alloc::Global;
use std::test::Fail;
use vol_block::{Block, BlockNo};

/// A block that has in each of its sectors one byte 512 times.
fn sectors(bytes: [u8; 8]) -> Block {
    let mut block = Block::zero();
    for s in 0..8 {
        block.bytes[s * 512..s * 512 + 512].fill(bytes[s]);
    }
    block
}

fn put(disk: &mut MemDisk, n: BlockNo, byte: u8) -> Result<(), Fail>
    requires { disk.old.opened ≡ Some Access.Write }
    ensures { disk.new.opened ≡ Some Access.Write }
{
    if n < disk.len() {
        disk.write(n, &sectors([byte; 8]))?;
    }
    Ok(())
}

/// Four blocks, of which two wait: block 1 with twos and then threes over ones, and block 3 with fours over zeros.
fn waiting(alloc: Global) -> Result<MemDisk, Fail> {
    let mut disk = MemDisk::new(alloc, 4)?;
    disk.set_block(1, &sectors([1; 8]))?;
    disk.open("", Access::Write)?;
    put(&mut disk, 1, 2)?;
    put(&mut disk, 3, 4)?;
    put(&mut disk, 1, 3)?;
    Ok(disk)
}

fn has(disk: &mut MemDisk, n: BlockNo, wanted: [u8; 8]) -> Result<bool, Fail> {
    let mut block = Block::zero();
    if n >= disk.len() {
        return Ok(false);
    }
    disk.read(n, &mut block)?;
    Ok(block == sectors(wanted))
}

#[test]
fn each_sector_is_taken_by_its_own_number(rt: HostRuntime) -> Result<(), Fail> {
    let disk = waiting(rt.alloc())?;
    let mut left = disk.after_torn_crash(&[[1, 2, 0, 3, 4, 5, 1, 0], [0, 0, 0, 0, 0, 0, 0, 1]])?;
    left.open("", Access::Read)?;
    assert!(rt; has(&mut left, 1, [2, 3, 1, 1, 2, 3, 2, 1])?);
    assert!(rt; has(&mut left, 3, [0, 0, 0, 0, 0, 0, 0, 4])?);
    assert!(rt; has(&mut left, 0, [0; 8])?);
    Ok(())
}

#[test]
fn missing_numbers_leave_what_was_synced(rt: HostRuntime) -> Result<(), Fail> {
    let disk = waiting(rt.alloc())?;
    let mut left = disk.after_torn_crash(&[[2; 8]])?;
    left.open("", Access::Read)?;
    assert!(rt; has(&mut left, 1, [3; 8])?);
    assert!(rt; has(&mut left, 3, [0; 8])?);
    Ok(())
}
