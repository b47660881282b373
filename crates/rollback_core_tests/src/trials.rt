// Trials on small disks in memory.

use crate::disks::{Broken, see};
use command_answers::Answer;
use outside::{Access, Disk};
use outside_mem::MemDisk;
use refusals::VolumeRefusal;
use std::alloc::Global;
use std::test::*;
use trial_core::{TrialSummary, trial};
use vol_block::Ids;

const IDS: Ids = Ids {
    fsid: [0x11; 16],
    device: [0x22; 16],
    chunk_tree: [0x33; 16],
    subvolume: [0x44; 16],
};

type Ended = Result<TrialSummary, Answer>;

/// How the trial of a number ends on a disk, which is flushed before.
fn tried(alloc: Global, number: u32, disk: &mut MemDisk) -> Result<Ended, Broken> {
    disk.settle();
    disk.open("", Access::Write)?;
    if number > 4000 {
        return Err(Broken::Sample);
    }
    Ok(trial(alloc, number, &IDS, 1, disk))
}

/// A sample, the blocks of the disk, and how its trial ends there.
struct Case(u32, u64, Ended);

const CASES: [Case; 4] = [
    Case(0, 65_536, Ok(TrialSummary { rows: 1, bytes: 0 })),
    Case(
        1,
        65_536,
        Ok(TrialSummary {
            rows: 3,
            bytes: 20_480,
        }),
    ),
    Case(
        100,
        65_536,
        Ok(TrialSummary {
            rows: 102,
            bytes: 1_650_882,
        }),
    ),
    // the disk is too short
    Case(
        0,
        65_535,
        Err(Answer::Volume(VolumeRefusal::Short {
            volume: 65_536,
            device: 65_535,
        })),
    ),
];

/// How a trial ends on a new disk of so many blocks.
fn tried_on(alloc: Global, number: u32, blocks: u64) -> Result<Ended, Broken> {
    tried(alloc, number, &mut MemDisk::new(alloc, blocks)?)
}

#[test]
fn samples_go_there_and_back(rt: HostRuntime) -> Result<(), Broken> {
    for Case(number, blocks, ended) in &CASES {
        let told = tried_on(rt.alloc(), *number, *blocks)?;
        see(told == *ended, "a trial ends so")?;
    }
    Ok(())
}

#[test]
fn a_disk_with_a_volume(rt: HostRuntime) -> Result<(), Broken> {
    let mut disk = MemDisk::new(rt.alloc(), 65_536)?;
    see(tried(rt.alloc(), 0, &mut disk)?.is_ok(), "a trial is done")?;
    let second = tried(rt.alloc(), 0, &mut disk)?;
    see(second == Err(Answer::WrongFormat), "a second one is not")
}
