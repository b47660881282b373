// Runs of `convert` and `rollback` over the ReiserFS sample.
use super::{Base, Case, Change, ROOT, SMALL, check};
use outside_mem::MemDisk;
use std::alloc::Global;
use std::test::*;
use vol_block::Block;
use volume_app_test_kit::End::{Done, Refused, Unprinted};
use volume_app_test_kit::{Broken, Step, block, follow, put_block};

/// What `convert` prints of the sample: its 52 used blocks are reserved, so each of them is copied.
const DONE: &str = "converted to btrfs\npieces 52\nblocks 52\ncopied 52\ntails 0\nunits 4\n";

/// What `rollback` prints behind it.
const BACK: &str = "rolled back to reiserfs\nblocks 52\nrestored 52\n";

/// What `inspect` prints of the sample behind it.
const CONVERTED: Step = Step(
    "inspect x",
    Done(
        "format btrfs\nfsid 11111111-1111-1111-1111-111111111111\nblocks 2048\ngeneration 1\nnodesize 16384\nlabel -\nimage 2048\n",
    ),
);

const FORMAT: Step = Step("convert x", Refused(1, "refused 16 format\n"));

const CASES: [Case; 6] = [
    // A converted volume has the same rows.
    Case(
        SMALL,
        &[],
        &[
            Step("convert x", Done(DONE)),
            CONVERTED,
            Step("list x", Done(ROOT)),
            FORMAT,
        ],
    ),
    // An output that fails leaves the volume converted.
    Case(SMALL, &[], &[Step("convert x", Unprinted(DONE)), CONVERTED]),
    // What is refused is not written.
    Case(
        SMALL,
        &[Change(16, 50, b"\x02")],
        &[Step("convert x", Refused(1, "refused 2 unclean 2\n"))],
    ),
    Case(SMALL, &[Change(16, 64, b"_BHRfS_M")], &[FORMAT]),
    Case(
        Base::Zeros(2048),
        &[],
        &[Step("convert x", Refused(1, "refused 1 novolume\n"))],
    ),
    // A used block in each of four units, so that three are free.
    Case(
        SMALL,
        &[
            Change(17, 32, &[1]),
            Change(17, 64, &[1]),
            Change(17, 96, &[1]),
            Change(17, 128, &[1]),
        ],
        &[Step("convert x", Refused(6, "refused 15 space 4 3 1 3\n"))],
    ),
];

#[test]
fn samples_are_converted_or_refused(rt: HostRuntime) -> Result<(), Broken> {
    check(rt.alloc(), &CASES)
}

/// A block that no volume here uses.
const HELD: Block = Block { bytes: [7; 4096] };

/// The sample with its last block where the copy at 64 MiB would be.
fn with_last_block(alloc: Global) -> Result<MemDisk, Broken> {
    let mut disk = Base::Reiser(16385).disk(alloc)?;
    put_block(&mut disk, 16384, &HELD)?;
    Ok(disk)
}

/// Follows these lines, and says behind how many of them the last block was as it is.
fn follow_and_look(alloc: Global, steps: &[Step]) -> Result<usize, Broken> {
    let mut disk = with_last_block(alloc)?;
    let mut held = 0usize;
    for step in steps {
        follow(alloc, &mut disk, &[*step])?;
        if block(&mut disk, 16384)? == HELD {
            held = held.saturating_add(1);
        }
    }
    Ok(held)
}

const THERE_AND_BACK: [Step; 3] = [
    Step("convert x", Done(DONE)),
    Step("list x", Done(ROOT)),
    Step("rollback x", Done(BACK)),
];

/// Where the copy at 64 MiB would end with the volume there is none: the last block stays as it is, on the way there and back.
#[test]
fn a_last_block_is_kept(rt: HostRuntime) -> Result<(), Broken> {
    if follow_and_look(rt.alloc(), &THERE_AND_BACK)? == 3 {
        Ok(())
    } else {
        Err(Broken::Changed(16384))
    }
}
