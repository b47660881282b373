// Bodies of volumes that mkfs.reiserfs and Linux 6.1 made, beside the values that `debugreiserfs` prints of them.
use crate::bytes::behind;
use reiser_items::{Entries, Pointers, StatData};

/// The stat data of a file of version 1.
const NEW_FILE: [u8; 44] = [
    0xa4, 0x81, 0x00, 0x00, 0x01, 0x00, 0x00, 0x00, 0x64, 0x00, 0x00, 0x00, 0x00, 0x00, 0x00, 0x00,
    0xa0, 0x86, 0x01, 0x00, 0x40, 0x0d, 0x03, 0x00, 0x75, 0xba, 0x08, 0x6b, 0x75, 0xba, 0x08, 0x6b,
    0x76, 0xba, 0x08, 0x6b, 0x08, 0x00, 0x00, 0x00, 0x01, 0x00, 0x00, 0x00,
];

/// The stat data of a character device of version 1.
const NEW_DEVICE: [u8; 44] = [
    0x80, 0x21, 0x00, 0x00, 0x01, 0x00, 0x00, 0x00, 0x00, 0x00, 0x00, 0x00, 0x00, 0x00, 0x00, 0x00,
    0x00, 0x00, 0x00, 0x00, 0x00, 0x00, 0x00, 0x00, 0x07, 0xb9, 0x08, 0x6b, 0x07, 0xb9, 0x08, 0x6b,
    0x07, 0xb9, 0x08, 0x6b, 0x00, 0x00, 0x00, 0x00, 0x2c, 0x08, 0x10, 0x00,
];

/// The stat data of a file of version 0.
const OLD_FILE: [u8; 32] = [
    0xa4, 0x81, 0x01, 0x00, 0x64, 0x00, 0xc8, 0x00, 0xff, 0x07, 0x00, 0x00, 0x73, 0xba, 0x08, 0x6b,
    0x73, 0xba, 0x08, 0x6b, 0x76, 0xba, 0x08, 0x6b, 0x08, 0x00, 0x00, 0x00, 0x01, 0x00, 0x00, 0x00,
];

/// The entries of the root directory of a volume that Linux 6.1 wrote, four of them.
const DIRECTORY: [u8; 104] = [
    0x01, 0x00, 0x00, 0x00, 0x01, 0x00, 0x00, 0x00, 0x02, 0x00, 0x00, 0x00, 0x60, 0x00, 0x04, 0x00,
    0x02, 0x00, 0x00, 0x00, 0x00, 0x00, 0x00, 0x00, 0x01, 0x00, 0x00, 0x00, 0x58, 0x00, 0x04, 0x00,
    0x80, 0x52, 0x00, 0x00, 0x02, 0x00, 0x00, 0x00, 0x04, 0x00, 0x00, 0x00, 0x50, 0x00, 0x04, 0x00,
    0x80, 0x53, 0xe8, 0x41, 0x02, 0x00, 0x00, 0x00, 0x03, 0x00, 0x00, 0x00, 0x40, 0x00, 0x04, 0x00,
    0x2e, 0x72, 0x65, 0x69, 0x73, 0x65, 0x72, 0x66, 0x73, 0x5f, 0x70, 0x72, 0x69, 0x76, 0x00, 0x00,
    0x78, 0x00, 0x00, 0x00, 0x00, 0x00, 0x00, 0x00, 0x2e, 0x2e, 0x00, 0x00, 0x00, 0x00, 0x00, 0x00,
    0x2e, 0x00, 0x00, 0x00, 0x00, 0x00, 0x00, 0x00,
];

const FILE: StatData = StatData {
    mode: 0o100644,
    attrs: 0,
    nlink: 1,
    size: 100,
    uid: 100000,
    gid: 200000,
    atime: 1795734133,
    mtime: 1795734133,
    ctime: 1795734134,
    blocks: 8,
    rdev: 1,
    first_direct_byte: 0,
};

const DEVICE: StatData = StatData {
    mode: 0o20600,
    attrs: 0,
    nlink: 1,
    size: 0,
    uid: 0,
    gid: 0,
    atime: 1795733767,
    mtime: 1795733767,
    ctime: 1795733767,
    blocks: 0,
    rdev: 0x10082c,
    first_direct_byte: 0,
};

const OLD: StatData = StatData {
    mode: 0o100644,
    attrs: 0,
    nlink: 1,
    size: 2047,
    uid: 100,
    gid: 200,
    atime: 1795734131,
    mtime: 1795734131,
    ctime: 1795734134,
    blocks: 8,
    rdev: 8,
    first_direct_byte: 1,
};

/// Bodies, by the version, and what they tell.
const STATS: &[(bool, &[u8], Option<StatData>)] = &[
    (false, &NEW_FILE, Some(FILE)),
    (false, &NEW_DEVICE, Some(DEVICE)),
    (true, &OLD_FILE, Some(OLD)),
    (false, &OLD_FILE, None),
    (true, &NEW_FILE, None),
];

/// The same, of which proofs are told nothing.
fn stats() -> &'static [(bool, &'static [u8], Option<StatData>)] {
    STATS
}

#[test]
fn stat_data(rt: HostRuntime) {
    for (old, body, wanted) in stats() {
        assert!(rt; StatData::read(*old, *body) == *wanted);
    }
}

/// Pointer `i` in a body, if it has so many.
fn pointer(body: &[u8], i: usize) -> Option<u32> {
    match Pointers::read(body) {
        Some(pointers) if i < pointers.len() => Some(pointers.get(i)),
        _ => None,
    }
}

/// Three pointers.
const POINTERS: &[u8] = &[0xd4, 0x20, 0, 0, 0, 0, 0, 0, 0xd6, 0x20, 0, 0];

#[test]
fn pointers(rt: HostRuntime) {
    let found = [
        pointer(POINTERS, 0),
        pointer(POINTERS, 1),
        pointer(POINTERS, 2),
        pointer(POINTERS, 3),
        pointer(behind(POINTERS, 1), 0),
    ];
    assert!(rt; found == [Some(8404), Some(0), Some(8406), None, None]);
}

/// Entry `i` of a body of so many: the place of its name, the directory and the object that it names, whether it is visible,
/// and its name. None where the body has another count of entries, or not so many.
fn entry(body: &[u8], count: u16, i: usize) -> Option<([u32; 3], bool, &[u8])> {
    match Entries::read(body, count) {
        Some(entries) if i < entries.len() => {
            let found = entries.get(i);
            let numbers = [found.offset, found.dir, found.object];
            Some((numbers, found.visible, found.name))
        }
        _ => None,
    }
}

/// A count of entries, the number of one, and the entry.
const ENTRIES: &[(u16, usize, Option<([u32; 3], bool, &[u8])>)] = &[
    (4, 0, Some(([1, 1, 2], true, b"."))),
    (4, 1, Some(([2, 0, 1], true, b".."))),
    (4, 2, Some(([0x5280, 2, 4], true, b"x"))),
    (4, 3, Some(([0x41e85380, 2, 3], true, b".reiserfs_priv"))),
    (4, 4, None),
    (0, 0, None),
    (5, 0, None),
];

fn directory() -> &'static [u8] {
    &DIRECTORY
}

#[test]
fn entries(rt: HostRuntime) {
    for (count, i, wanted) in ENTRIES {
        assert!(rt; entry(directory(), *count, *i) == *wanted);
    }
}
