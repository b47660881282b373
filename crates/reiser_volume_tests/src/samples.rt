// Volumes beside the checksums of those that another program made from the same description; reiserfsck finds nothing to
// complain of in these.
ghost use Rattle.std.specs.Prelude.{◌<◌, ◌^◌};

use outside::{Access, BlockSource, Disk};
use outside_mem::MemDisk;
use reiser_make::{make, make_old};
use std::alloc::Global;
use std::test::Fail;
use vol_block::Block;

/// The volume of a number in 12,288 blocks, on a disk of a few more.
fn made(alloc: Global, number: u32, old: bool) -> Result<MemDisk, Fail> {
    let number = number.min(4000);
    let mut disk = MemDisk::new(alloc, 12300)?;
    disk.open("", Access::Write)?;
    if disk.len() < 12288 {
        return Ok(disk);
    }
    if old {
        make_old(alloc, number, 12288, &mut disk)?;
    } else {
        make(alloc, number, 12288, &mut disk)?;
    }
    Ok(disk)
}

/// A checksum over all blocks of a disk: 31 times the sum so far and the next byte, modulo 2^64.
fn checksum(disk: &mut MemDisk) -> Result<u64, Fail> {
    let mut block = Block::zero();
    let mut sum: u64 = 0;
    for n in 0..disk.len() {
        if n >= disk.len() {
            break;
        }
        disk.read(n, &mut block)?;
        for &byte in &block.bytes {
            sum = sum.wrapping_mul(31).wrapping_add(byte as u64);
        }
    }
    Ok(sum)
}

#[test]
fn volumes_are_those_of_another_program(rt: HostRuntime) -> Result<(), Fail> {
    for (number, old, sum) in &[
        (0, false, 8746140367833053955),
        (7, false, 10666534633789198725),
        (7, true, 10459846018199331157),
        (100, false, 9014183227702672403),
        (100, true, 16408755452641477565),
    ] {
        let mut disk = made(rt.alloc(), *number, *old)?;
        assert_eq!(rt; checksum(&mut disk)?, *sum);
    }
    Ok(())
}
