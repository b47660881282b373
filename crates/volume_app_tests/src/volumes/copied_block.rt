// A volume whose one file lies in the block of the first copy of a Btrfs superblock. The copy is the last block that a conversion writes.
use outside_mem::MemDisk;
use std::alloc::Global;
use std::test::*;
use vol_block::{Format, format_of};
use volume_app_test_kit::End::Done;
use volume_app_test_kit::{
    Broken, MARKED, Old, Step, Trouble, Volume, block, follow, format_at_16, ran,
};

/// What a crash leaves of the volume that keeps block 16 and not the copy.
fn without_copy(alloc: Global, old: &Old) -> Result<MemDisk, Broken> {
    let before = old.converted_writes()?.saturating_sub(1);
    let mut disk = old.copy()?;
    ran(alloc, "convert x", &mut disk, Trouble::Power(before))?;
    Ok(disk.after_crash(&[1])?)
}

/// Whether a disk is a Btrfs volume by block 16, and block 16384 has the bytes of the file still.
fn lacks_copy(disk: &mut MemDisk) -> Result<bool, Broken> {
    Ok(format_at_16(disk)? == Format::Btrfs && block(disk, 16384)?.bytes == [MARKED; 4096])
}

/// Whether two disks have the same superblock of Btrfs in block 16384.
fn have_copy(disk: &mut MemDisk, other: &mut MemDisk) -> Result<bool, Broken> {
    let copy = block(disk, 16384)?;
    Ok(format_of(&copy) == Format::Btrfs && block(other, 16384)? == copy)
}

const RECOVERIES: [Step; 2] = [
    Step("recover x", Done("volume is btrfs\nmirrors 1\n")),
    Step("recover x", Done("volume is btrfs\nmirrors 0\n")),
];

/// Whether such a disk lacks the copy; and whether it has the copy behind two recoveries.
fn recovered(alloc: Global, old: &Old) -> Result<(bool, bool), Broken> {
    let mut left = without_copy(alloc, old)?;
    let lacks = lacks_copy(&mut left)?;
    follow(alloc, &mut left, &RECOVERIES)?;
    Ok((lacks, have_copy(&mut left, &mut old.converted()?)?))
}

/// The power fails before the copy, and block 16 was written: `recover` makes the copy.
#[test]
fn a_copy_that_was_not_made_is_recovered(rt: HostRuntime) -> Result<(), Broken> {
    let old = Volume::OneFile(16384).old(rt.alloc())?;
    if recovered(rt.alloc(), &old)? == (true, true) {
        Ok(())
    } else {
        Err(Broken::Changed(16384))
    }
}
