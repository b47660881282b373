// Words of a command line: those that ask for nothing, the short ones, `--verbose`, and the options of `inspect`.
use super::{BTRFS, Base, Case, INSPECTED, PLAIN, ROOT, SMALL, USAGE, check};
use outside_mem::MemDisk;
use std::alloc::Global;
use std::test::*;
use volume_app::read_words;
use volume_app_test_kit::End::{Begins, Closes, Done, Refused, Unopened};
use volume_app_test_kit::{Broken, Step, Trouble, follow, ran};

/// Lines that are no command, whatever the disk.
const NOTHING: [&str; 65] = [
    "",
    "inspect",
    "inspect -x",
    "inspect ",
    "inspect a b",
    "list",
    "list -",
    "mount a",
    "--help a",
    "-h a",
    "-V a",
    "-h -h",
    "mount --help",
    "list --version",
    "list --help a",
    "convert --no-inline --help",
    "--verbose",
    "--verbose list a",
    "--verbose --help",
    "list --verbose",
    "list --verbose --help",
    "list --verbose --verbose a",
    "list a --verbose",
    "recover a --verbose",
    "trial 1 --verbose a",
    "trial 1 a --verbose",
    "convert a --verbose",
    "convert --no-inline a --verbose",
    "convert --verbose --no-inline --verbose a",
    "convert --nodesize --verbose 4096 a",
    "convert --label --verbose b a",
    // no options of `inspect`
    "inspect --label b a",
    "inspect --copy-label a",
    "inspect --uuid new a",
    "inspect --nodesize 16383 a",
    "inspect --csum xxhash a",
    "inspect --csum sha256",
    "inspect --csum crc32c --csum sha256 a",
    "inspect --nodesize 4096",
    "inspect --no-inline --no-inline a",
    "inspect --nodesize 4096 --nodesize 8192 a",
    "inspect a --no-inline",
    // no options of `convert`
    "convert",
    "convert -x",
    "convert x y",
    "convert --nodesize 16383 x",
    "convert --label a --copy-label x",
    "convert --no-inline --no-inline x",
    "convert --uuid 12 x",
    "convert --csum xxhash x",
    "convert --csum x",
    "list --csum sha256 x",
    "convert --label x",
    "list --no-inline x",
    // no trial
    "trial",
    "trial 7",
    "trial s",
    "trial 007 s",
    "trial 00 s",
    "trial 4001 s",
    "trial +1 s",
    "trial  s",
    "trial 1 ",
    "trial 1 -s",
    "trial 1 s t",
];

#[test]
fn words_that_ask_for_nothing(rt: HostRuntime) -> Result<(), Broken> {
    let mut disk = MemDisk::new(rt.alloc(), 0)?;
    for line in &NOTHING {
        follow(rt.alloc(), &mut disk, &[Step(line, Refused(2, USAGE))])?;
    }
    Ok(())
}

/// What a line prints that is done over a disk whose first call would fail.
fn printed(alloc: Global, line: &'static str) -> Result<Vec<u8>, Broken> {
    let mut disk = MemDisk::new(alloc, 0)?;
    let ended = ran(alloc, line, &mut disk, Trouble::Call(0))?;
    if ended.status != 0 {
        return Err(Broken::Line(line));
    }
    Ok(ended.out)
}

/// Sees that these lines print the same as that one, and open nothing.
fn print_as(alloc: Global, lines: &[&'static str], one: &'static str) -> Result<(), Broken> {
    let wanted = printed(alloc, one)?;
    for line in lines {
        if printed(alloc, line)? != wanted {
            return Err(Broken::Line(line));
        }
    }
    Ok(())
}

const HELP: [&str; 7] = [
    "-h",
    "inspect --help",
    "list -h",
    "convert --help",
    "recover -h",
    "rollback --help",
    "trial -h",
];

#[test]
fn words_that_ask_for_a_text(rt: HostRuntime) -> Result<(), Broken> {
    print_as(rt.alloc(), &HELP, "--help")?;
    print_as(rt.alloc(), &["-V"], "--version")
}

/// Whether `--verbose` is among the options of these words; false where they are no command.
fn is_verbose(alloc: Global, line: &str) -> Result<bool, Broken> {
    let mut words = Vec::new(alloc);
    for word in line.split(' ') {
        words.push(String::from_str(alloc, word)?)?;
    }
    Ok(match read_words(&words) {
        Some(line) => line.verbose,
        None => false,
    })
}

const VERBOSE: [(&str, bool); 15] = [
    ("list --verbose a", true),
    ("list a", false),
    ("recover --verbose a", true),
    ("rollback --verbose a", true),
    ("trial --verbose 1 a", true),
    ("trial 1 a", false),
    ("inspect --verbose a", true),
    ("inspect --nodesize 4096 a", false),
    ("inspect --nodesize 4096 --verbose --no-inline a", true),
    ("convert --verbose --label b a", true),
    ("convert --label b --verbose a", true),
    // here it is the label
    ("convert --label --verbose a", false),
    ("convert --label --verbose --verbose a", true),
    ("--help", false),
    ("list a --verbose", false),
];

#[test]
fn more_is_asked_for_among_the_options(rt: HostRuntime) -> Result<(), Broken> {
    for (line, is_asked) in &VERBOSE {
        if is_verbose(rt.alloc(), line)? != *is_asked {
            return Err(Broken::Line(line));
        }
    }
    Ok(())
}

const CASES: [Case; 8] = [
    Case(
        Base::Zeros(0),
        &[],
        &[
            Step("--version", Unopened("reiserconv ")),
            Step("--help", Unopened(USAGE)),
        ],
    ),
    // To tell more changes nothing.
    Case(
        SMALL,
        &[],
        &[
            Step("inspect --verbose x", Done(INSPECTED)),
            Step("list --verbose x", Done(ROOT)),
        ],
    ),
    Case(
        Base::Zeros(17),
        &[],
        &[Step(
            "trial --verbose 0 x",
            Refused(1, "refused 4 short 65536 17\n"),
        )],
    ),
    // `inspect` tells what a conversion by these options needs, in its last four lines.
    Case(
        SMALL,
        &[],
        &[
            Step("inspect x", Closes("used 52\nunits 7\nneeded 4\nrun 1\n")),
            Step(
                "inspect --no-inline --no-datasum --csum sha256 x",
                Closes("used 52\nunits 7\nneeded 4\nrun 1\n"),
            ),
            Step(
                "inspect --nodesize 4096 x",
                Closes("used 52\nunits 7\nneeded 3\nrun 1\n"),
            ),
            Step(
                "inspect --no-inline --nodesize 65536 x",
                Closes("used 52\nunits 7\nneeded 8\nrun 1\n"),
            ),
        ],
    ),
    // A conversion takes what `inspect` tells.
    Case(
        SMALL,
        &[],
        &[Step("convert --nodesize 4096 x", Closes("\nunits 3\n"))],
    ),
    Case(
        SMALL,
        &[],
        &[Step(
            "convert --no-inline --nodesize 65536 x",
            Refused(6, "refused 15 space 8 7 1 7\n"),
        )],
    ),
    // Options change nothing of a Btrfs volume.
    Case(
        PLAIN,
        &[],
        &[Step(
            "inspect --verbose --nodesize 4096 --csum sha256 --no-inline --no-datasum x",
            Done(BTRFS),
        )],
    ),
    // What is read as the value of an option is its value.
    Case(
        SMALL,
        &[],
        &[
            Step(
                "convert --label --verbose x",
                Begins("converted to btrfs\n"),
            ),
            Step("inspect x", Closes("\nlabel --verbose\nimage 2048\n")),
        ],
    ),
];

#[test]
fn options_are_read(rt: HostRuntime) -> Result<(), Broken> {
    check(rt.alloc(), &CASES)
}
