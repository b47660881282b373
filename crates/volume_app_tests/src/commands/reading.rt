// Runs of `inspect`, `list` and `recover` over ReiserFS volumes.
use super::{Base, Case, Change, INSPECTED, ROOT, SMALL, check, put_changes};
use std::alloc::Global;
use std::test::*;
use vol_block::BlockNo;
use volume_app_test_kit::End::{Closes, Done, Faulty, Kept, Refused, Unprinted};
use volume_app_test_kit::{Broken, Step, follow};

const TOLD: &[Step] = &[Step("inspect x", Done(INSPECTED))];

/// A further item in the leaf of the sample: a pointer of the object (2, 4), which stands at byte 4000.
const ITEMS: Change = Change(51, 2, &[3]);

const ITEM: Change = Change(
    51,
    72,
    &[
        2, 0, 0, 0, 4, 0, 0, 0, 1, 0, 0, 0, 0, 0, 0, 0x10, 0, 0, 4, 0, 0xa0, 0x0f, 1, 0,
    ],
);

/// A header of the journal that names the last flushed transaction 7 and place 0; the front of a descriptor block there, whose length
/// is 3; and its end.
const FLUSHED: Change = Change(50, 0, &[7]);

const DESCRIBED: Change = Change(18, 0, &[8, 0, 0, 0, 3]);

const DESCRIPTOR: Change = Change(18, 4084, b"ReIsErLB");

/// What is told of a whole volume.
const WHOLE: [Case; 10] = [
    Case(SMALL, &[], TOLD),
    Case(SMALL, &[], &[Step("list x", Done(ROOT))]),
    Case(
        SMALL,
        &[],
        &[
            Step("recover x", Kept("volume is reiserfs\nmirrors 0\n")),
            Step("list x", Done(ROOT)),
        ],
    ),
    // A label is escaped and cut.
    Case(
        SMALL,
        &[Change(16, 100, b"my disk\0\0x")],
        &[Step(
            "inspect x",
            Closes("label my\\x20disk\nused 52\nunits 7\nneeded 4\nrun 1\n"),
        )],
    ),
    Case(
        SMALL,
        &[Change(16, 100, b"\x7f\\\xff~!456789abcde")],
        &[Step(
            "inspect x",
            Closes("label \\x7f\\x5c\\xff~!456789abcde\nused 52\nunits 7\nneeded 4\nrun 1\n"),
        )],
    ),
    // A pointer of a file to no block.
    Case(SMALL, &[ITEMS, ITEM, Change(51, 4000, &[0, 0])], TOLD),
    // A journal without a whole newer transaction is empty: no commit block, one of another transaction, one of another length, and a
    // transaction that was flushed.
    Case(
        SMALL,
        &[FLUSHED, DESCRIBED, DESCRIPTOR, Change(22, 0, &[0; 5])],
        TOLD,
    ),
    Case(
        SMALL,
        &[
            FLUSHED,
            DESCRIBED,
            DESCRIPTOR,
            Change(22, 0, &[9, 0, 0, 0, 3]),
        ],
        TOLD,
    ),
    Case(
        SMALL,
        &[
            FLUSHED,
            DESCRIBED,
            DESCRIPTOR,
            Change(22, 0, &[8, 0, 0, 0, 4]),
        ],
        TOLD,
    ),
    Case(
        SMALL,
        &[
            FLUSHED,
            Change(18, 0, &[7, 0, 0, 0, 3]),
            DESCRIPTOR,
            Change(22, 0, &[7, 0, 0, 0, 3]),
        ],
        TOLD,
    ),
];

#[test]
fn whole_volumes_are_told(rt: HostRuntime) -> Result<(), Broken> {
    check(rt.alloc(), &WHOLE)
}

/// Calls of the disk that fail, and then the output.
const FAULTS: [Case; 2] = [
    Case(
        SMALL,
        &[],
        &[
            Step("inspect x", Faulty(0)),
            Step("inspect x", Faulty(1)),
            Step("inspect x", Faulty(2)),
            Step("inspect x", Faulty(3)),
            Step("inspect x", Faulty(4)),
            Step("inspect x", Faulty(5)),
            Step("inspect x", Faulty(6)),
            Step("inspect x", Unprinted(INSPECTED)),
        ],
    ),
    Case(
        SMALL,
        &[],
        &[
            Step("list x", Faulty(0)),
            Step("list x", Faulty(1)),
            Step("list x", Faulty(2)),
            Step("list x", Faulty(3)),
            Step("list x", Faulty(4)),
            Step("list x", Faulty(5)),
            Step("list x", Faulty(6)),
            Step("list x", Unprinted(ROOT)),
        ],
    ),
];

#[test]
fn failed_calls_end_the_run(rt: HostRuntime) -> Result<(), Broken> {
    check(rt.alloc(), &FAULTS)
}

const NO_VOLUME: &[Step] = &[Step("inspect x", Refused(1, "refused 1 novolume\n"))];

/// What is refused, and can't be said by one change of the sample.
const REFUSED: [Case; 8] = [
    Case(Base::Zeros(0), &[], NO_VOLUME),
    Case(Base::Zeros(16), &[], NO_VOLUME),
    Case(Base::Zeros(17), &[], NO_VOLUME),
    Case(Base::Zeros(2048), &[], NO_VOLUME),
    // A whole transaction waits. Without a last flushed transaction each descriptor counts.
    Case(
        SMALL,
        &[
            FLUSHED,
            DESCRIBED,
            DESCRIPTOR,
            Change(22, 0, &[8, 0, 0, 0, 3]),
        ],
        &[Step("inspect x", Refused(1, "refused 5 journal 8\n"))],
    ),
    Case(
        SMALL,
        &[
            Change(50, 0, &[0]),
            Change(18, 0, &[7, 0, 0, 0, 3]),
            DESCRIPTOR,
        ],
        &[Step("inspect x", Refused(1, "refused 5 journal 7\n"))],
    ),
    // Pointers of a file to a block that is not used, and to a node.
    Case(
        SMALL,
        &[ITEMS, ITEM, Change(51, 4000, &[0x84, 3])],
        &[Step("inspect x", Refused(1, "refused 6 damaged 900 6\n"))],
    ),
    Case(
        SMALL,
        &[ITEMS, ITEM, Change(51, 4000, &[51, 0])],
        &[Step("inspect x", Refused(1, "refused 6 damaged 51 8\n"))],
    ),
];

#[test]
fn other_volumes_are_refused(rt: HostRuntime) -> Result<(), Broken> {
    check(rt.alloc(), &REFUSED)
}

/// The sample with other bytes at a place of one of its blocks, a command, and the line by which it is refused.
type Changed = (BlockNo, usize, &'static [u8], &'static str, &'static str);

const CHANGED: [Changed; 24] = [
    // The magic of Btrfs alone, without a right checksum.
    (
        16,
        64,
        b"_BHRfS_M",
        "inspect x",
        "refused 13 badbtrfs 65536 1\n",
    ),
    // Superblocks are refused by the first rule.
    (
        16,
        52,
        b"ReIsErFs\0",
        "inspect x",
        "refused 3 unsupported 1 35\n",
    ),
    (
        16,
        44,
        b"\0\x20",
        "inspect x",
        "refused 3 unsupported 2 8192\n",
    ),
    (16, 16, b"\x07", "inspect x", "refused 3 unsupported 3 7\n"),
    (16, 62, b"\x02", "inspect x", "refused 3 unsupported 4 2\n"),
    (
        16,
        0,
        b"\x01\0\0\x20",
        "inspect x",
        "refused 3 unsupported 5 536870913\n",
    ),
    (16, 50, b"\x02", "inspect x", "refused 2 unclean 2\n"),
    (16, 68, b"\x08", "inspect x", "refused 6 damaged 16 1\n"),
    (
        16,
        0,
        b"\x01\x08",
        "inspect x",
        "refused 4 short 2049 2048\n",
    ),
    // Two rules are broken: the one that is tried first answers.
    (
        16,
        44,
        b"\0\x20\0\0\0\0\x02",
        "inspect x",
        "refused 3 unsupported 2 8192\n",
    ),
    // The bitmap marks the volume's own blocks. The header of the journal is block 50.
    (17, 2, &[0xfe], "inspect x", "refused 6 damaged 16 2\n"),
    (17, 2, &[0xfd], "inspect x", "refused 6 damaged 17 2\n"),
    (17, 2, &[0xfb], "inspect x", "refused 6 damaged 18 2\n"),
    (17, 6, &[0x0b], "inspect x", "refused 6 damaged 50 2\n"),
    // The tree is walked.
    (17, 6, b"\x07", "inspect x", "refused 6 damaged 51 6\n"),
    (16, 68, b"\x03", "inspect x", "refused 6 damaged 51 3\n"),
    (51, 2, b"\0", "inspect x", "refused 6 damaged 51 3\n"),
    (51, 44, b"\xd5", "inspect x", "refused 6 damaged 51 4\n"),
    // The root is a file; an entry that counts names no object; the root is named, by a dot.
    (51, 4053, &[0x81], "inspect x", "refused 6 damaged 51 11\n"),
    (51, 4020, &[3], "inspect x", "refused 6 damaged 51 11\n"),
    (51, 4004, &[3], "inspect x", "refused 6 damaged 51 10\n"),
    // `list` looks at the same.
    (
        16,
        64,
        b"_BHRfS_M",
        "list x",
        "refused 13 badbtrfs 65536 1\n",
    ),
    (16, 50, b"\x02", "list x", "refused 2 unclean 2\n"),
    (51, 4053, b"\x81", "list x", "refused 6 damaged 51 11\n"),
];

/// Sees that the command is refused so.
fn is_refused(alloc: Global, (n, at, bytes, command, line): &Changed) -> Result<(), Broken> {
    let mut disk = SMALL.disk(alloc)?;
    put_changes(&mut disk, &[Change(*n, *at, bytes)])?;
    follow(alloc, &mut disk, &[Step(command, Refused(1, line))])
}

#[test]
fn changed_volumes_are_refused(rt: HostRuntime) -> Result<(), Broken> {
    for changed in &CHANGED {
        is_refused(rt.alloc(), changed)?;
    }
    Ok(())
}
