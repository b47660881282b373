// Runs of the top call over a disk in memory: tables of disks, and of the lines that are run over each.
mod btrfs;
mod converting;
mod reading;
mod sample;
mod trying;
mod words;

use outside_mem::MemDisk;
use sample::sample;
use std::alloc::Global;
use vol_block::BlockNo;
use volume_app_test_kit::{Broken, Step, block, follow, put_block, put_bytes};
use volume_samples::Sample;

/// What a disk has before anything is changed.
#[derive(Clone, Copy)]
enum Base {
    /// So many blocks of zeros.
    Zeros(u64),
    /// The ReiserFS sample on so many blocks, at least 2,048.
    Reiser(u32),
    /// This Btrfs volume.
    Btrfs(Sample),
}

/// The ReiserFS sample.
const SMALL: Base = Base::Reiser(2048);

/// The Btrfs sample.
const PLAIN: Base = Base::Btrfs(Sample::PLAIN);

impl Base {
    fn disk(self, alloc: Global) -> Result<MemDisk, Broken> {
        match self {
            Base::Zeros(blocks) => Ok(MemDisk::new(alloc, blocks)?),
            Base::Reiser(blocks) => sample(alloc, blocks),
            Base::Btrfs(sample) => sample.disk(alloc).map_err(|_| Broken::Sample),
        }
    }
}

/// Other bytes at a place of a block.
#[derive(Clone, Copy)]
struct Change(BlockNo, usize, &'static [u8]);

/// Changes a disk.
fn put_changes(disk: &mut MemDisk, changes: &[Change]) -> Result<(), Broken> {
    for Change(n, at, bytes) in changes {
        let mut to = block(disk, *n)?;
        put_bytes(&mut to.bytes, *at, bytes);
        put_block(disk, *n, &to)?;
    }
    Ok(())
}

/// A disk, what is changed of it, and the lines that are run over it one behind the other.
#[derive(Clone, Copy)]
struct Case(Base, &'static [Change], &'static [Step]);

impl Case {
    /// Sees that the lines end as they have to.
    fn check(&self, alloc: Global) -> Result<(), Broken> {
        let mut disk = self.0.disk(alloc)?;
        put_changes(&mut disk, self.1)?;
        follow(alloc, &mut disk, self.2)
    }
}

/// Sees that these cases end as they have to.
fn check(alloc: Global, cases: &[Case]) -> Result<(), Broken> {
    for case in cases {
        case.check(alloc)?;
    }
    Ok(())
}

const USAGE: &str = "usage: reiserconv COMMAND [OPTIONS] PATH\n";

/// What `inspect` prints of the ReiserFS sample.
const INSPECTED: &str =
    "format reiserfs\nblocks 2048\nfree 1996\nroot 51\nheight 2\njournal 18 32\nuuid 00000000-0000-0000-0000-000000000000\nlabel -\nused 52\nunits 7\nneeded 4\nrun 1\n";

/// What `list` prints of it.
const ROOT: &str = "d 0755 0 0 1000000000 1000000000 1000000000 - - - - - /\n";

/// What `inspect` prints of the Btrfs sample.
const BTRFS: &str =
    "format btrfs\nfsid 22222222-2222-2222-2222-222222222222\nblocks 12288\ngeneration 1\nnodesize 16384\nlabel -\nimage -\n";
