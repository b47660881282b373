// Small volumes in memory, opened.
ghost use Rattle.std.specs.Prelude.{◌≡◌, None, IfOk, length};

mod items;
mod rows;

use items::{add_entries, add_stat, stat};
use outside::{Access, Disk, Memory};
use outside_mem::MemDisk;
use refusals::{Rule, VolAnswer, VolumeRefusal};
use reiser_volume::Volume;
use std::alloc::Global;
use volume_samples::{Entry, Leaf, Object, with_leaf};

const FILE: u16 = 0o100644;

const DIRECTORY: u16 = 0o40755;

const SYMLINK: u16 = 0o120777;

/// Adds a directory with these entries.
fn add_directory(
    alloc: Global,
    leaf: &mut Leaf,
    object: Object,
    entries: &[Entry],
) -> Result<(), Memory> {
    add_stat(leaf, object, &stat(DIRECTORY, 48));
    add_entries(alloc, leaf, object, entries)
}

/// The root with these entries, for the files (2, 4), the directories (2, 5), (2, 6), (2, 7) and a symlink (2, 8).
fn with_root(
    alloc: Global,
    root: &'static [Entry],
    fifth: &'static [Entry],
    sixth: &'static [Entry],
    target: u64,
) -> Result<MemDisk, Memory>
    ensures size { IfOk result (λ d. length d.history.start ≡ 2048) }
    ensures closed { IfOk result (λ d. d.opened ≡ None) }
{
    let mut leaf = Leaf::new();
    add_directory(alloc, &mut leaf, Object(1, 2), root)?;
    add_stat(&mut leaf, Object(2, 4), &stat(FILE, 1));
    add_directory(alloc, &mut leaf, Object(2, 5), fifth)?;
    add_directory(alloc, &mut leaf, Object(2, 6), sixth)?;
    add_directory(alloc, &mut leaf, Object(2, 7), &[])?;
    add_stat(&mut leaf, Object(2, 8), &stat(SYMLINK, target));
    with_leaf(alloc, 2048, &[(0, 52)], &leaf.finish())
}

/// How many objects are named in the volume on a disk.
fn open(alloc: Global, disk: &mut MemDisk) -> Result<usize, VolAnswer>
    requires { disk.old.opened ≡ None }
{
    disk.open("x", Access::Read)?;
    let volume = Volume::open(alloc, disk)?;
    Ok(volume.count())
}

/// The same where the root has these entries, and the directories (2, 5) and (2, 6) those.
fn named(
    alloc: Global,
    root: &'static [Entry],
    fifth: &'static [Entry],
    sixth: &'static [Entry],
) -> Result<usize, VolAnswer> {
    let mut disk = with_root(alloc, root, fifth, sixth, 1)?;
    open(alloc, &mut disk)
}

/// How many objects are named, or why the volume is refused.
type Answer = Result<usize, VolAnswer>;

const FORM: Answer = Err(VolAnswer::Refused(VolumeRefusal::Damaged {
    block: 51,
    rule: Rule::EntryForm,
}));

const NAME_TWICE: Answer = Err(VolAnswer::Refused(VolumeRefusal::Damaged {
    block: 51,
    rule: Rule::NameTwice,
}));

const DIR_TWICE: Answer = Err(VolAnswer::Refused(VolumeRefusal::Damaged {
    block: 51,
    rule: Rule::DirTwice,
}));

const TAKEN: Answer = Err(VolAnswer::Refused(VolumeRefusal::NameTaken { dir: 2, object: 4 }));

const NONE: &[Entry] = &[];

const FOUR: &[Entry] = &[(2, 4, "a"), (2, 5, "d"), (2, 4, "b")];

const ONE: &[Entry] = &[(2, 4, "a")];

const EMPTY: &[Entry] = &[(2, 4, "")];

const DOT: &[Entry] = &[(2, 4, ".")];

const DOTS: &[Entry] = &[(2, 4, "..")];

const SLASH: &[Entry] = &[(2, 4, "a/b")];

const GOOD: &[Entry] = &[(2, 4, "..."), (2, 5, "a\\b")];

const TWICE: &[Entry] = &[(2, 4, "a"), (2, 5, "a")];

const AGAIN: &[Entry] = &[(2, 5, "a"), (2, 5, "b")];

const UP: &[Entry] = &[(1, 2, "up")];

const KEPT: &[Entry] = &[(2, 4, "reiserfs_saved")];

/// The entries of the root, those of the directory (2, 5), and the answer.
const NAMES: &[(&[Entry], &[Entry], Answer)] = &[
    // names of one object in two directories, and one name in two directories
    (FOUR, ONE, Ok(3)),
    // no name, two that stand for directories, one with a slash, and two that look like these
    (EMPTY, NONE, FORM),
    (DOT, NONE, FORM),
    (DOTS, NONE, FORM),
    (SLASH, NONE, FORM),
    (GOOD, NONE, Ok(3)),
    // a name twice, a directory twice, the root
    (TWICE, NONE, NAME_TWICE),
    (AGAIN, NONE, DIR_TWICE),
    (FOUR, UP, DIR_TWICE),
    // the name that is kept is taken only in the root
    (KEPT, NONE, TAKEN),
    (FOUR, KEPT, Ok(3)),
];

#[test]
fn names_are_checked(rt: HostRuntime) {
    for (root, fifth, answer) in NAMES {
        assert!(rt; named(rt.alloc(), *root, *fifth, NONE) == *answer);
    }
}

const PRIVATE: &[Entry] = &[(2, 4, "a"), (2, 5, ".reiserfs_priv")];

const XATTRS: &[Entry] = &[(2, 6, "xattrs")];

const REMOVED: &[Entry] = &[(2, 7, "4.0")];

const SET: &[Entry] = &[(2, 4, "4.0")];

const OTHER: &[Entry] = &[(2, 6, "other")];

const MORE: &[Entry] = &[(2, 6, "xattrs"), (2, 7, "more")];

/// Object 4, 6 or 7 has attributes.
const FOURTH: Answer = Err(VolAnswer::Refused(VolumeRefusal::HasAttributes { dir: 2, object: 4 }));

const SIXTH: Answer = Err(VolAnswer::Refused(VolumeRefusal::HasAttributes { dir: 2, object: 6 }));

const SEVENTH: Answer = Err(VolAnswer::Refused(VolumeRefusal::HasAttributes { dir: 2, object: 7 }));

/// The entries of the private directory, those of the directory (2, 6), and the answer.
const ATTRIBUTES: &[(&[Entry], &[Entry], Answer)] = &[
    (NONE, NONE, Ok(2)),
    (XATTRS, NONE, Ok(2)),
    // setting and removing an attribute leaves an empty directory
    (XATTRS, REMOVED, Ok(2)),
    (XATTRS, SET, FOURTH),
    (OTHER, NONE, SIXTH),
    (MORE, NONE, SEVENTH),
];

#[test]
fn attributes_are_refused(rt: HostRuntime) {
    for (fifth, sixth, answer) in ATTRIBUTES {
        assert!(rt; named(rt.alloc(), PRIVATE, *fifth, *sixth) == *answer);
    }
}
