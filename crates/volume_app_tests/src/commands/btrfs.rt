// Runs of `inspect`, `list` and `recover` over Btrfs volumes.
use super::{BTRFS, Base, Case, Change, PLAIN, check};
use btr_keys::Stamp;
use csum_kinds::SumKind;
use std::test::*;
use volume_app_test_kit::End::{Done, Kept, Refused};
use volume_app_test_kit::{Broken, Step};
use volume_samples::{FILE_LEAF, Sample};

const ROWS: &str =
    "d 0755 0 0 1000000000 1000000000 1000000000 - - - - - /\nf 0644 1000 100 1000000001 1000000001 1000000001 - - 1 0 e3b0c44298fc1c149afbf4c8996fb92427ae41e4649b934ca495991b7852b855 /a\n";

const ROWS_READ_LATER: &str =
    "d 0755 0 0 1000000000 1000000000 1000000000 - - - - - /\nf 0644 1000 100 1000000001.000000500 1000000001 1000000001 - - 1 0 e3b0c44298fc1c149afbf4c8996fb92427ae41e4649b934ca495991b7852b855 /a\n";

/// A volume whose superblock names a log tree, and one whose file tree says that it is another.
const LOGGED: Base = Base::Btrfs(Sample {
    log_root: 35651584,
    ..Sample::PLAIN
});

const FOREIGN: Base = Base::Btrfs(Sample {
    owner: 7,
    ..Sample::PLAIN
});

/// A volume whose metadata stands twice, one whose second copy leaves the device, and one that got another identifier.
const TWICE: Base = Base::Btrfs(Sample {
    mirror: Some(40_894_464),
    ..Sample::PLAIN
});

const TOO_FAR: Base = Base::Btrfs(Sample {
    mirror: Some(50_327_552),
    ..Sample::PLAIN
});

const RENAMED: Base = Base::Btrfs(Sample {
    known_as: Some([0x55; 16]),
    ..Sample::PLAIN
});

/// A volume whose file was read later.
const LATER: Base = Base::Btrfs(Sample {
    atime: Stamp {
        sec: 1_000_000_001,
        nsec: 500,
    },
    ..Sample::PLAIN
});

/// A volume whose checksums are SHA-256.
const HASHED: Base = Base::Btrfs(Sample {
    sums: SumKind::Sha256,
    ..Sample::PLAIN
});

const TOLD: Step = Step("inspect x", Done(BTRFS));

const LISTED: Step = Step("list x", Done(ROWS));

const RECOVERED: Step = Step("recover x", Kept("volume is btrfs\nmirrors 0\n"));

const CASES: [Case; 10] = [
    Case(PLAIN, &[], &[TOLD, LISTED, RECOVERED]),
    // `inspect` looks at no log tree.
    Case(
        LOGGED,
        &[],
        &[
            TOLD,
            Step("list x", Refused(1, "refused 14 log 35651584\n")),
        ],
    ),
    Case(
        FOREIGN,
        &[],
        &[
            Step("inspect x", Refused(1, "refused 13 badbtrfs 35667968 6\n")),
            Step("list x", Refused(1, "refused 13 badbtrfs 35667968 6\n")),
        ],
    ),
    // Second copies and other identifiers change no row.
    Case(TWICE, &[], &[LISTED]),
    Case(RENAMED, &[], &[LISTED]),
    Case(
        TOO_FAR,
        &[],
        &[Step("list x", Refused(1, "refused 13 badbtrfs 35651584 3\n"))],
    ),
    Case(LATER, &[], &[Step("list x", Done(ROWS_READ_LATER))]),
    // Checksums by SHA-256 are read, and a wrong one is refused.
    Case(HASHED, &[], &[TOLD, LISTED, RECOVERED]),
    Case(
        HASHED,
        &[Change(16, 300, &[65])],
        &[Step("inspect x", Refused(1, "refused 13 badbtrfs 65536 1\n"))],
    ),
    Case(
        HASHED,
        &[Change(FILE_LEAF / 4096, 1000, &[1])],
        &[Step("list x", Refused(1, "refused 13 badbtrfs 35667968 5\n"))],
    ),
];

#[test]
fn volumes_are_told_or_refused(rt: HostRuntime) -> Result<(), Broken> {
    check(rt.alloc(), &CASES)
}
