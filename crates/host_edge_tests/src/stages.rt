// The text of a stage, the pace of a command, what a superblock tells of its volume, and the bytes that show a line on a terminal.
use crate::changes::{Change, change};
use host_edge_progress::{Moment, Pace, Stage, Step, VolumeUse, columns_of, shown, stage_text};
use outside::Block;
use std::test::Fail;

/// The text of a step "at", where so many blocks are done of so many, ten of them of late in so many milliseconds.
fn told(rt: &HostRuntime, done: u64, known: u64, at: u64) -> Result<String, Fail> {
    let stage = Stage {
        step: Step::new("at", 1, 1),
        done,
        known: Some(known),
    };
    Ok(stage_text(rt.alloc(), &stage, Moment { at, blocks: 10 })?)
}

/// Stages, and their texts. A share never tells that all is done, and how long is left is told in minutes.
const STAGES: &[(u64, u64, u64, &str)] = &[
    (0, 0, 0, "at: 0%, 0 of 0 MiB, 0 MiB/s"),
    (199, 400, 0, "at: 49%, 0 of 1 MiB, 0 MiB/s"),
    (500, 400, 0, "at: 99%, 1 of 1 MiB, 0 MiB/s"),
    (
        0,
        59,
        10_000,
        "at: 0%, 0 of 0 MiB, 0 MiB/s, under 1 min left",
    ),
    (
        0,
        7_260,
        10_000,
        "at: 0%, 0 of 28 MiB, 0 MiB/s, 2 h 1 min left",
    ),
    (0, 59, 4_000, "at: 0%, 0 of 0 MiB, 0 MiB/s"),
    (0, 0, 10_000, "at: 0%, 0 of 0 MiB, 0 MiB/s"),
];

#[test]
fn a_stage_has_a_text(rt: HostRuntime) -> Result<(), Fail> {
    for (done, known, at, text) in STAGES {
        let found = told(&rt, *done, *known, *at)?;
        assert_eq!(rt; found.as_str(), *text);
    }
    Ok(())
}

#[test]
fn the_pace_is_that_of_the_last_half_minute(rt: HostRuntime) {
    let mut pace = Pace::new();
    for second in 0..100 {
        pace.note(Moment {
            at: second * 1000,
            blocks: second * second,
        });
    }
    // the second 70 is the first that is kept
    let late = pace.since(Moment {
        at: 100_000,
        blocks: 10_000,
    });
    assert!(rt; [late.at, late.blocks] == [30_000, 5_100]);
}

/// How a block is changed, and what is in use then of the volume whose superblock it is.
const SUPERBLOCKS: &[(&[Change], Option<VolumeUse>)] = &[
    (&[], None),
    (
        &[
            (52, b"ReIsEr2Fs"),
            (0, b"\xc8"),
            (4, b"\x32"),
            (20, b"\x09"),
        ],
        Some(VolumeUse {
            used: 150,
            journal: 10,
            front: 11,
        }),
    ),
    (&[(4, b"\xc9")], None),
    (
        &[(64, b"_BHRfS_M"), (121, b"\x30")],
        Some(VolumeUse {
            used: 3,
            journal: 0,
            front: 0,
        }),
    ),
];

#[test]
fn the_superblock_tells_what_is_in_use(rt: HostRuntime) {
    let mut block = Block::zero();
    for (changes, found) in SUPERBLOCKS {
        change(&mut block, *changes);
        assert!(rt; VolumeUse::of(&block) == *found);
    }
}

/// The columns of a terminal, whether it is dumb, and the bytes that show the line there.
const SHOWN: &[(usize, bool, &[u8])] = &[
    (10, false, b"\r\x1b[?7lchecking:\x1b[K\x1b[?7h"),
    (80, true, b"checking: 7 MiB\n"),
];

#[test]
fn a_text_is_cut_to_the_width_of_the_terminal(rt: HostRuntime) -> Result<(), Fail> {
    for (columns, is_dumb, bytes) in SHOWN {
        let found = shown(rt.alloc(), b"checking: 7 MiB", *columns, *is_dumb)?;
        assert!(rt; found.as_slice() == *bytes);
    }
    Ok(())
}

#[test]
fn a_width_is_a_number_above_zero(rt: HostRuntime) {
    let found = [columns_of("132"), columns_of("0"), columns_of("wide")];
    assert!(rt; found == [132, 80, 80]);
}
