// Trials of samples with many files, on disks of 65,536 blocks.
use outside_mem::MemDisk;
use std::alloc::Global;
use std::test::*;
use volume_app_test_kit::End::Done;
use volume_app_test_kit::{Broken, Step, Volume, follow};

/// A disk on which this trial was made.
fn tried(alloc: Global, trial: Step) -> Result<MemDisk, Broken> {
    let mut disk = MemDisk::new(alloc, 65536)?;
    follow(alloc, &mut disk, &[trial])?;
    Ok(disk)
}

const HUNDRED: Step = Step(
    "trial 100 x",
    Done("trial 100\nrows 102\nbytes 1650882\nconverted\nsame rows\nrolled back\nsame blocks\n"),
);

/// The disk then has the rows of that sample on any other volume.
#[test]
fn a_hundred_files(rt: HostRuntime) -> Result<(), Broken> {
    let mut disk = tried(rt.alloc(), HUNDRED)?;
    Volume::Made(100, 12288)
        .old(rt.alloc())?
        .has_rows(&mut disk)
}

const THOUSAND: Step = Step(
    "trial 1000 x",
    Done("trial 1000\nrows 1011\nbytes 16082975\nconverted\nsame rows\nrolled back\nsame blocks\n"),
);

const MOST: Step = Step(
    "trial 4000 x",
    Done("trial 4000\nrows 4041\nbytes 66672510\nconverted\nsame rows\nrolled back\nsame blocks\n"),
);

/// The largest sample, on two disks.
#[test]
fn many_files(rt: HostRuntime) -> Result<(), Broken> {
    for trial in &[THOUSAND, MOST, MOST] {
        tried(rt.alloc(), *trial)?;
    }
    Ok(())
}
