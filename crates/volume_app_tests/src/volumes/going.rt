// Volumes that become Btrfs and ReiserFS again: what is printed, and what comes back.
use std::test::*;
use volume_app_test_kit::End::{Begins, Done, Unprinted};
use volume_app_test_kit::{Broken, Step, Volume};

/// A volume with an empty root directory, in its 8,212 used blocks.
const EMPTY: Volume = Volume::Made(0, 12288);

/// What `list` prints of it, in both formats.
const ROOT: Step = Step(
    "list x",
    Done("d 0755 0 0 1000000000 1000000000 1000000000 - - - - - /\n"),
);

const BEFORE: Step = Step(
    "inspect x",
    Done(
        "format reiserfs\nblocks 12288\nfree 4076\nroot 8211\nheight 2\njournal 18 8192\nuuid 00000000-0000-0000-0000-000000000000\nlabel -\nused 8212\nunits 15\nneeded 4\nrun 1\n",
    ),
);

const BETWEEN: Step = Step(
    "inspect x",
    Done(
        "format btrfs\nfsid 11111111-1111-1111-1111-111111111111\nblocks 12288\ngeneration 1\nnodesize 16384\nlabel -\nimage 12288\n",
    ),
);

const BACK: Step = Step(
    "rollback x",
    Done("rolled back to reiserfs\nblocks 8212\nrestored 256\n"),
);

/// A volume that goes and comes, and the lines that do it.
#[derive(Clone, Copy)]
struct Case(Volume, &'static [Step]);

const CASES: [Case; 7] = [
    Case(
        EMPTY,
        &[
            BEFORE,
            ROOT,
            Step(
                "convert x",
                Done("converted to btrfs\npieces 257\nblocks 8212\ncopied 256\ntails 0\nunits 4\n"),
            ),
            ROOT,
            BETWEEN,
            BACK,
        ],
    ),
    // Checksums by SHA-256 take a unit more.
    Case(
        EMPTY,
        &[
            Step(
                "convert --csum sha256 x",
                Done("converted to btrfs\npieces 257\nblocks 8212\ncopied 256\ntails 0\nunits 5\n"),
            ),
            ROOT,
            BETWEEN,
            BACK,
        ],
    ),
    // An output that fails undoes nothing.
    Case(
        EMPTY,
        &[
            Step("convert x", Unprinted("")),
            BETWEEN,
            Step("rollback x", Unprinted("")),
            BEFORE,
        ],
    ),
    // The smallest volume.
    Case(
        Volume::EmptyRoot,
        &[
            Step(
                "convert x",
                Done("converted to btrfs\npieces 52\nblocks 52\ncopied 52\ntails 0\nunits 4\n"),
            ),
            Step(
                "rollback x",
                Done("rolled back to reiserfs\nblocks 52\nrestored 52\n"),
            ),
        ],
    ),
    // The file makes room for the copy.
    Case(
        Volume::OneFile(16384),
        &[
            Step(
                "convert x",
                Done("converted to btrfs\npieces 53\nblocks 53\ncopied 53\ntails 0\nunits 4\n"),
            ),
            Step(
                "rollback x",
                Done("rolled back to reiserfs\nblocks 53\nrestored 53\n"),
            ),
        ],
    ),
    // Ten files go and come and go.
    Case(
        Volume::Made(10, 12288),
        &[
            Step("convert x", Begins("converted to btrfs\n")),
            Step("rollback x", Begins("rolled back to reiserfs\n")),
            Step("convert x", Begins("converted to btrfs\n")),
            Step("rollback x", Begins("rolled back to reiserfs\n")),
        ],
    ),
    // A home volume: 300 files of two blocks and a tail. Seven units are needed: one for the chunk tree, three for the other trees, and three
    // for 256 copies and 300 tails.
    Case(
        Volume::Home,
        &[
            Step(
                "inspect x",
                Done(
                    "format reiserfs\nblocks 65536\nfree 55980\nroot 8211\nheight 3\njournal 18 8192\nuuid 00000000-0000-0000-0000-000000000000\nlabel -\nused 9556\nunits 216\nneeded 7\nrun 1\n",
                ),
            ),
            Step(
                "convert x",
                Done(
                    "converted to btrfs\npieces 1016\nblocks 9856\ncopied 256\ntails 300\nunits 7\n",
                ),
            ),
            Step(
                "rollback x",
                Done("rolled back to reiserfs\nblocks 9556\nrestored 256\n"),
            ),
        ],
    ),
];

#[test]
fn volumes_go_and_come(rt: HostRuntime) -> Result<(), Broken> {
    for Case(volume, steps) in &CASES {
        volume.old(rt.alloc())?.goes_and_comes(steps)?;
    }
    Ok(())
}
