// What a watch tells of a command, by the calls of its disk.
use crate::changes::{Change, change};
use host_edge_progress::{Moment, StatusLine, Task, Watch, stage_text};
use outside::{Block, BlockNo, Format};
use std::process::Abort;
use std::test::Fail;

/// A call of a disk, or what is said of it.
#[derive(Clone, Copy)]
enum Call {
    Expect(Task),
    /// So many blocks without meaning are read, from block 100 on.
    Reads(u64),
    /// The superblock of a volume of this format is read in this block.
    Finds(BlockNo, Format),
    /// It is written there.
    Puts(BlockNo, Format),
    /// The write of a block fails, behind a part of it or before.
    Fails { is_begun: bool },
    Syncs,
}

/// What a superblock of ReiserFS has, with 102,400 blocks of which 256 are free, and a journal of 256.
const REISER: &[Change] = &[
    (52, b"ReIsEr2Fs"),
    (1, b"\x90\x01"),
    (5, b"\x01"),
    (20, b"\xff"),
];

/// What a superblock of Btrfs has, with 512 blocks in use.
const BTRFS: &[Change] = &[(64, b"_BHRfS_M"), (122, b"\x20")];

fn superblock(format: Format) -> Block {
    let mut block = Block::zero();
    match format {
        Format::Reiser => change(&mut block, REISER),
        Format::Btrfs => change(&mut block, BTRFS),
        Format::Neither => {}
    }
    block
}

/// Tells a watch of a call.
fn take(watch: &mut Watch<'_>, call: Call) {
    match call {
        Call::Expect(task) => watch.expect(task),
        Call::Reads(count) => {
            for n in 0..count {
                watch.reads(n.saturating_add(100), &Block::zero());
            }
        }
        Call::Finds(n, format) => watch.reads(n, &superblock(format)),
        Call::Puts(n, format) => watch.writes(n, &superblock(format)),
        Call::Fails { is_begun } => watch.fails(is_begun),
        Call::Syncs => watch.syncs(),
    }
}

/// The line of a watch, at 512 blocks in a second.
fn line_of(rt: &impl AllocGlobal, watch: &Watch<'_>) -> Result<String, Fail> {
    let late = Moment {
        at: 10_000,
        blocks: 5120,
    };
    Ok(stage_text(rt.alloc(), &watch.stage(), late)?)
}

/// Behind each of these calls a new watch has this line, where one stands beside it.
fn follows(rt: &(impl Abort + AllocGlobal), calls: &[(Call, &str)]) -> Result<(), Fail> {
    let line = StatusLine::none();
    let mut watch = Watch::new(&line);
    for (call, text) in calls {
        take(&mut watch, *call);
        if !text.is_empty() {
            let found = line_of(rt, &watch)?;
            assert_eq!(rt; found.as_str(), *text);
        }
    }
    Ok(())
}

/// 101,123 of 102,144 blocks are left before the first write. Behind it 102,144 are in use, and 766 were read beside the journal.
const CONVERT: &[(Call, &str)] = &[
    (Call::Expect(Task::Convert), "checking: 0 MiB, 2 MiB/s"),
    (Call::Finds(16, Format::Reiser), ""),
    (
        Call::Reads(1021),
        "checking (1 of 3): 0%, 3 of 399 MiB, 2 MiB/s, 3 min left",
    ),
    (Call::Fails { is_begun: false }, ""),
    (Call::Fails { is_begun: true }, ""),
    (
        Call::Reads(25_728),
        "converting (3 of 3): 25%, 100 of 401 MiB, 2 MiB/s, 2 min left",
    ),
];

#[test]
fn a_write_counts_from_its_first_part_on(rt: HostRuntime) {
    let line = StatusLine::none();
    let mut watch = Watch::new(&line);
    watch.fails(false);
    let before = watch.written();
    watch.fails(true);
    assert!(rt; [before, watch.written()] == [0, 1]);
}

const INSPECT: &[(Call, &str)] = &[
    (Call::Expect(Task::Inspect), ""),
    (Call::Finds(16, Format::Btrfs), ""),
    (Call::Reads(255), "checking: 1 MiB, 2 MiB/s"),
    (
        Call::Expect(Task::List),
        "reading: 50%, 1 of 2 MiB, 2 MiB/s, under 1 min left",
    ),
];

const LOOK_AGAIN: &[(Call, &str)] = &[
    (Call::Expect(Task::InspectAgain { time: 1, of: 3 }), ""),
    (Call::Finds(16, Format::Reiser), ""),
    (
        Call::Reads(102_144),
        "counting again (3 of 6): 99%, 399 of 399 MiB, 2 MiB/s",
    ),
];

/// 256 blocks of journal and 4 of bitmap stand before the tree.
const RECOVER: &[(Call, &str)] = &[
    (Call::Expect(Task::Recover), ""),
    (Call::Finds(16, Format::Reiser), ""),
    (
        Call::Reads(128),
        "checking: 49%, 0 of 1 MiB, 2 MiB/s, under 1 min left",
    ),
    (Call::Reads(512), "checking: 99%, 1 of 1 MiB, 2 MiB/s"),
    (Call::Puts(16384, Format::Btrfs), "writing: 0 MiB, 2 MiB/s"),
];

const ROLLBACK: &[(Call, &str)] = &[
    (Call::Expect(Task::Rollback), ""),
    (Call::Finds(16, Format::Btrfs), ""),
    (Call::Reads(511), "reading (1 of 3): 2 MiB, 2 MiB/s"),
    (Call::Finds(4711, Format::Reiser), ""),
    (
        Call::Reads(51_073),
        "checking (2 of 3): 50%, 199 of 399 MiB, 2 MiB/s, 1 min left",
    ),
    (
        Call::Puts(16, Format::Reiser),
        "writing (3 of 3): 0 MiB, 2 MiB/s",
    ),
];

const TRIAL: &[(Call, &str)] = &[
    (Call::Expect(Task::Trial), ""),
    (Call::Syncs, "making (1 of 4): 0 MiB, 2 MiB/s"),
    (
        Call::Puts(16, Format::Reiser),
        "making (1 of 4): 0%, 0 of 399 MiB, 2 MiB/s, 3 min left",
    ),
    (Call::Syncs, ""),
    (Call::Reads(255), "converting (2 of 4): 1 MiB, 2 MiB/s"),
    (Call::Puts(16, Format::Reiser), ""),
    (Call::Puts(17, Format::Btrfs), ""),
    (Call::Syncs, "converting (2 of 4): 1 MiB, 2 MiB/s"),
    (
        Call::Puts(16, Format::Btrfs),
        "rolling back (3 of 4): 1 MiB, 2 MiB/s",
    ),
    (
        Call::Puts(16, Format::Reiser),
        "comparing (4 of 4): 1 MiB, 2 MiB/s",
    ),
];

#[test]
fn a_watch_tells_how_far_a_command_is(rt: HostRuntime) -> Result<(), Fail> {
    for calls in &[CONVERT, INSPECT, LOOK_AGAIN, RECOVER, ROLLBACK, TRIAL] {
        follows(&rt, *calls)?;
    }
    Ok(())
}
