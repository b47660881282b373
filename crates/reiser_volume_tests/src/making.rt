// Runs over a disk in memory.
ghost use Rattle.std.specs.Prelude.{◌≡◌, None};

use outside::{BlockSource, Memory};
use outside_mem::{MemDisk, MemSink};
use reiser_make_app::run;
use std::alloc::Global;
use std::test::Fail;
use vol_block::Block;

/// What a run answered, and the line that the sink took.
#[derive(Drop)]
struct Run {
    status: u8,
    err: MemSink,
}

fn run_on(alloc: Global, words: &[&str], disk: &mut MemDisk) -> Result<Run, Memory>
    requires { disk.old.opened ≡ None }
{
    let mut owned = Vec::new(alloc);
    for word in words {
        owned.push(String::from_str(alloc, word)?)?;
    }
    let mut err = MemSink::new(alloc);
    let status = run(alloc, &owned, disk, &mut err);
    Ok(Run { status, err })
}

/// A run on a disk of zeros, and how many writes it took.
fn ended(alloc: Global, words: &[&str], blocks: u64) -> Result<(Run, u64), Memory> {
    let mut disk = MemDisk::new(alloc, blocks)?;
    let ended = run_on(alloc, words, &mut disk)?;
    Ok((ended, disk.writes()))
}

const USAGE: &str = "usage: sample_volume [--old] NUMBER BLOCKS PATH\n";

/// Words, the blocks of the disk, the status, the line and the writes.
type Case = (&'static [&'static str], u64, u8, &'static str, u64);

const RUNS: &[Case] = &[
    // words that order nothing
    (&[], 8212, 2, USAGE, 0),
    (&["100"], 8212, 2, USAGE, 0),
    (&["100", "12288"], 8212, 2, USAGE, 0),
    (&["100", "12288", ""], 8212, 2, USAGE, 0),
    (&["100", "12288", "-x"], 8212, 2, USAGE, 0),
    (&["100", "12288", "x", "y"], 8212, 2, USAGE, 0),
    (&["--old", "100", "12288", "x", "y"], 8212, 2, USAGE, 0),
    (&["--new", "100", "12288", "x"], 8212, 2, USAGE, 0),
    (&["--old", "100", "12288"], 8212, 2, USAGE, 0),
    (&["--help"], 8212, 2, USAGE, 0),
    (&["+1", "12288", "x"], 8212, 2, USAGE, 0),
    (&["-1", "12288", "x"], 8212, 2, USAGE, 0),
    (&["", "12288", "x"], 8212, 2, USAGE, 0),
    (&["1a", "12288", "x"], 8212, 2, USAGE, 0),
    (&["4001", "12288", "x"], 8212, 2, USAGE, 0),
    (&["100", "536870913", "x"], 8212, 2, USAGE, 0),
    (&["100", "18446744073709551616", "x"], 8212, 2, USAGE, 0),
    // sizes that are too small
    (
        &["0", "8213", "x"],
        8212,
        1,
        "refused 4 short 8213 8212\n",
        0,
    ),
    (&["0", "8212", "x"], 0, 1, "refused 4 short 8212 0\n", 0),
    (
        &["4000", "536870912", "x"],
        8212,
        1,
        "refused 4 short 536870912 8212\n",
        0,
    ),
    (
        &["0", "8211", "x"],
        8212,
        6,
        "refused 15 space 8212 8211\n",
        0,
    ),
    (
        &["--old", "0", "8211", "x"],
        8212,
        6,
        "refused 15 space 8212 8211\n",
        0,
    ),
    (&["0", "0", "x"], 0, 6, "refused 15 space 8212 0\n", 0),
    // samples that are made
    (&["0", "8212", "x"], 8212, 0, "", 8212),
    (&["--old", "0000", "8212", "x"], 8300, 0, "", 8212),
];

#[test]
fn runs_end_so(rt: HostRuntime) -> Result<(), Memory> {
    for (words, blocks, status, line, writes) in RUNS {
        let (ended, written) = ended(rt.alloc(), *words, *blocks)?;
        assert!(rt; ended.err.bytes() == line.as_bytes(), "of {words:?}");
        assert_eq!(rt; (ended.status, written), (*status, *writes), "of {words:?}");
    }
    Ok(())
}

/// The words of a sample on 8212 blocks.
const SAMPLE: [&str; 3] = ["0", "8212", "x"];

#[test]
fn a_sample_is_made(rt: HostRuntime) -> Result<(), Fail> {
    let mut disk = MemDisk::new(rt.alloc(), 8212)?;
    assert_eq!(rt; run_on(rt.alloc(), &SAMPLE, &mut disk)?.status, 0);
    let mut block = Block::zero();
    if disk.len() > 16 {
        disk.read(16, &mut block)?;
    }
    assert!(rt;
        block
            .bytes
            .starts_with(&[0x14, 0x20, 0, 0, 0, 0, 0, 0, 0x13, 0x20, 0, 0])
    );
    Ok(())
}

/// A sample where that call of the disk fails, and how many writes it took.
fn failed(alloc: Global, call: u64) -> Result<(Run, u64), Memory> {
    let mut disk = MemDisk::new(alloc, 8212)?;
    disk.fail_call(call)?;
    let ended = run_on(alloc, &SAMPLE, &mut disk)?;
    Ok((ended, disk.writes()))
}

#[test]
fn each_kind_of_call_may_fail(rt: HostRuntime) -> Result<(), Memory> {
    // The opening, the first write, the last one, and the sync behind it.
    for (call, writes) in &[(0, 0), (1, 0), (8212, 8211), (8213, 8212)] {
        let (ended, written) = failed(rt.alloc(), *call)?;
        assert!(rt; ended.err.bytes() == b"device fault\n".as_slice());
        assert_eq!(rt; (ended.status, written), (3, *writes));
    }
    Ok(())
}
