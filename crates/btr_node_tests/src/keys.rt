// Bytes of volumes that stock tools made, beside the values that `btrfs inspect-internal dump-tree` prints of them.
use crate::bytes::{behind, front};
use btr_keys::{
    DirEntry, DirItems, DiskRange, ExtentContent, Extref, Extrefs, FileExtent, Inode, InodeRef,
    InodeRefs, Key, Stamp,
};
use std::test::Fail;

/// Inode 260 of a volume that Linux 6.1 wrote.
const INODE: [u8; 160] = [
    0x07, 0x00, 0x00, 0x00, 0x00, 0x00, 0x00, 0x00, 0x07, 0x00, 0x00, 0x00, 0x00, 0x00, 0x00, 0x00,
    0x64, 0x00, 0x00, 0x00, 0x00, 0x00, 0x00, 0x00, 0x64, 0x00, 0x00, 0x00, 0x00, 0x00, 0x00, 0x00,
    0x00, 0x00, 0x00, 0x00, 0x00, 0x00, 0x00, 0x00, 0x02, 0x00, 0x00, 0x00, 0x00, 0x00, 0x00, 0x00,
    0x00, 0x00, 0x00, 0x00, 0xa4, 0x81, 0x00, 0x00, 0x00, 0x00, 0x00, 0x00, 0x00, 0x00, 0x00, 0x00,
    0x00, 0x00, 0x00, 0x00, 0x00, 0x00, 0x00, 0x00, 0x02, 0x00, 0x00, 0x00, 0x00, 0x00, 0x00, 0x00,
    0x00, 0x00, 0x00, 0x00, 0x00, 0x00, 0x00, 0x00, 0x00, 0x00, 0x00, 0x00, 0x00, 0x00, 0x00, 0x00,
    0x00, 0x00, 0x00, 0x00, 0x00, 0x00, 0x00, 0x00, 0x00, 0x00, 0x00, 0x00, 0x00, 0x00, 0x00, 0x00,
    0x2d, 0xd0, 0x08, 0x6b, 0x00, 0x00, 0x00, 0x00, 0xe3, 0xea, 0xb6, 0x32, 0x2d, 0xd0, 0x08, 0x6b,
    0x00, 0x00, 0x00, 0x00, 0xe2, 0x0e, 0xab, 0x33, 0x2d, 0xd0, 0x08, 0x6b, 0x00, 0x00, 0x00, 0x00,
    0xe3, 0xea, 0xb6, 0x32, 0x2d, 0xd0, 0x08, 0x6b, 0x00, 0x00, 0x00, 0x00, 0xe3, 0xea, 0xb6, 0x32,
];

/// Its bytes, of which proofs are told nothing.
fn inode_item() -> &'static [u8] {
    &INODE
}

/// The inode ref of an inode with two names, written by `mkfs.btrfs --rootdir`.
const INODE_REFS: [u8; 36] = [
    0x02, 0x00, 0x00, 0x00, 0x00, 0x00, 0x00, 0x00, 0x05, 0x00, 0x73, 0x6d, 0x61, 0x6c, 0x6c, 0x04,
    0x00, 0x00, 0x00, 0x00, 0x00, 0x00, 0x00, 0x0b, 0x00, 0x73, 0x65, 0x63, 0x6f, 0x6e, 0x64, 0x5f,
    0x6e, 0x61, 0x6d, 0x65,
];

/// Its bytes, likewise.
fn inode_refs_item() -> &'static [u8] {
    &INODE_REFS
}

/// An extref that Linux 6.1 wrote, key (583, 13, 135676301).
const EXTREF: [u8; 63] = [
    0x46, 0x02, 0x00, 0x00, 0x00, 0x00, 0x00, 0x00, 0x85, 0x01, 0x00, 0x00, 0x00, 0x00, 0x00, 0x00,
    0x2d, 0x00, 0x6e, 0x33, 0x38, 0x36, 0x2d, 0x78, 0x78, 0x78, 0x78, 0x78, 0x78, 0x78, 0x78, 0x78,
    0x78, 0x78, 0x78, 0x78, 0x78, 0x78, 0x78, 0x78, 0x78, 0x78, 0x78, 0x78, 0x78, 0x78, 0x78, 0x78,
    0x78, 0x78, 0x78, 0x78, 0x78, 0x78, 0x78, 0x78, 0x78, 0x78, 0x78, 0x78, 0x78, 0x78, 0x78,
];

/// Its bytes, likewise.
fn extref_item() -> &'static [u8] {
    &EXTREF
}

/// The dir item of two names of hash 121453397, written by `mkfs.btrfs --rootdir`.
const DIR_ITEM: [u8; 78] = [
    0x1b, 0x4c, 0xa7, 0x00, 0x00, 0x00, 0x00, 0x00, 0x01, 0x00, 0x00, 0x00, 0x00, 0x00, 0x00, 0x00,
    0x00, 0x00, 0x00, 0x00, 0x00, 0x00, 0x00, 0x00, 0x00, 0x00, 0x00, 0x09, 0x00, 0x01, 0x66, 0x31,
    0x34, 0x34, 0x32, 0x66, 0x64, 0x39, 0x64, 0x1c, 0x4c, 0xa7, 0x00, 0x00, 0x00, 0x00, 0x00, 0x01,
    0x00, 0x00, 0x00, 0x00, 0x00, 0x00, 0x00, 0x00, 0x00, 0x00, 0x00, 0x00, 0x00, 0x00, 0x00, 0x00,
    0x00, 0x00, 0x09, 0x00, 0x01, 0x66, 0x66, 0x63, 0x61, 0x32, 0x62, 0x65, 0x36, 0x61,
];

/// Its bytes, likewise.
fn dir_item_body() -> &'static [u8] {
    &DIR_ITEM
}

/// The target of a symlink that Linux 6.1 wrote.
const INLINE: [u8; 27] = [
    0x07, 0x00, 0x00, 0x00, 0x00, 0x00, 0x00, 0x00, 0x06, 0x00, 0x00, 0x00, 0x00, 0x00, 0x00, 0x00,
    0x00, 0x00, 0x00, 0x00, 0x00, 0x74, 0x61, 0x72, 0x67, 0x65, 0x74,
];

/// What is left of a preallocated extent that Linux 6.1 wrote a part of.
const PREALLOC: [u8; 53] = [
    0x09, 0x00, 0x00, 0x00, 0x00, 0x00, 0x00, 0x00, 0x00, 0x00, 0x10, 0x00, 0x00, 0x00, 0x00, 0x00,
    0x00, 0x00, 0x00, 0x00, 0x02, 0x00, 0xc0, 0xf3, 0x00, 0x00, 0x00, 0x00, 0x00, 0x00, 0x00, 0x10,
    0x00, 0x00, 0x00, 0x00, 0x00, 0x00, 0x20, 0x00, 0x00, 0x00, 0x00, 0x00, 0x00, 0x00, 0xe0, 0x0f,
    0x00, 0x00, 0x00, 0x00, 0x00,
];

/// The key of the first entry of that dir item.
const KEY: Key = Key {
    objectid: 10963995,
    kind: 1,
    offset: 0,
};

fn first_key() -> Key {
    Key::at(&DIR_ITEM, 0)
}

#[test]
fn key(rt: HostRuntime) {
    let bytes = front(dir_item_body(), 17);
    let found = [Key::read(bytes), Key::read(front(dir_item_body(), 18))];
    assert!(rt; found == [Some(KEY), None]);
    assert!(rt; first_key() == KEY);
    assert!(rt; KEY.to_bytes().as_slice() == bytes);
}

#[test]
fn order_of_keys(rt: HostRuntime) {
    let behind = Key {
        objectid: 10963995,
        kind: 0,
        offset: 1,
    };
    assert!(rt; [behind.is_before(&KEY), KEY.is_before(&behind)] == [true, false]);
}

const ATIME: Stamp = Stamp {
    sec: 1795739693,
    nsec: 850848483,
};

/// What the inode tells.
const TOLD: Inode = Inode {
    generation: 7,
    transid: 7,
    size: 100,
    nbytes: 100,
    block_group: 0,
    nlink: 2,
    uid: 0,
    gid: 0,
    mode: 0o100644,
    rdev: 0,
    flags: 0,
    sequence: 2,
    atime: ATIME,
    ctime: Stamp {
        sec: 1795739693,
        nsec: 866848482,
    },
    mtime: ATIME,
    otime: ATIME,
};

#[test]
fn inode(rt: HostRuntime) {
    let found = [
        Inode::read(front(inode_item(), 160)),
        Inode::read(front(inode_item(), 159)),
    ];
    assert!(rt; found == [Some(TOLD), None]);
    assert!(rt; TOLD.to_bytes().as_slice() == inode_item());
}

/// A time before 1970.
const EARLY: Stamp = Stamp { sec: -2, nsec: 5 };

const EARLY_BYTES: [u8; 12] = [0xfe, 0xff, 0xff, 0xff, 0xff, 0xff, 0xff, 0xff, 5, 0, 0, 0];

#[test]
fn times(rt: HostRuntime) {
    let atime = front(behind(inode_item(), 112), 12);
    let found = [Stamp::read(atime), Stamp::read(front(&EARLY_BYTES, 12))];
    assert!(rt; found == [Some(ATIME), Some(EARLY)]);
    assert!(rt; EARLY.to_bytes() == EARLY_BYTES);
}

/// The index and the name of reference `i` of the body of an inode ref, if it is one and has so many.
fn inode_ref(body: &[u8], i: usize) -> Option<(u64, &[u8])> {
    match InodeRefs::read(body) {
        Some(refs) if i < refs.len() => {
            let found = refs.get(i);
            Some((found.index, found.name))
        }
        _ => None,
    }
}

/// Whether a reference is written so.
fn is_ref_written(found: &InodeRef<'_>, wanted: &[u8]) -> bool {
    let mut written = [0; 64];
    if found.name.len() > 54 {
        return false;
    }
    let length = 10 + found.name.len();
    found.write(&mut written[..length]);
    &written[..length] == wanted
}

/// References of the first bytes of that inode ref: the count of the bytes, the number of the reference, its index and its name.
const REFS: &[(usize, usize, Option<(u64, &[u8])>)] = &[
    (36, 0, Some((2, b"small"))),
    (36, 1, Some((4, b"second_name"))),
    (36, 2, None),
    (35, 0, None),
    (0, 0, None),
];

#[test]
fn inode_refs(rt: HostRuntime) {
    for (count, i, wanted) in REFS {
        assert!(rt; inode_ref(front(inode_refs_item(), *count), *i) == *wanted);
    }
    let second = InodeRef {
        index: 4,
        name: b"second_name",
    };
    assert!(rt; is_ref_written(&second, behind(inode_refs_item(), 15)));
}

/// The parent, the index and the name of reference `i` of the body of an extref, if it is one and has so many.
fn extref_in(body: &[u8], i: usize) -> Option<(u64, u64, &[u8])> {
    match Extrefs::read(body) {
        Some(refs) if i < refs.len() => {
            let found = refs.get(i);
            Some((found.parent, found.index, found.name))
        }
        _ => None,
    }
}

/// Whether a reference is written so.
fn is_extref_written(found: &Extref<'_>, wanted: &[u8]) -> bool {
    let mut written = [0; 64];
    if found.name.len() > 46 {
        return false;
    }
    let length = 18 + found.name.len();
    found.write(&mut written[..length]);
    &written[..length] == wanted
}

/// The name in that extref.
const NAME: &[u8] = b"n386-xxxxxxxxxxxxxxxxxxxxxxxxxxxxxxxxxxxxxxxx";

#[test]
fn extref(rt: HostRuntime) {
    let body = front(extref_item(), 63);
    assert!(rt; [extref_in(body, 0), extref_in(body, 1)] == [Some((582, 389, NAME)), None]);
    let first = Extref {
        parent: 582,
        index: 389,
        name: NAME,
    };
    assert!(rt; is_extref_written(&first, body));
}

/// Whether an entry is written so.
fn is_entry_written(found: &DirEntry<'_>, wanted: &[u8]) -> bool {
    let mut written = [0; 64];
    if found.name.len() > 34 {
        return false;
    }
    let length = 30 + found.name.len();
    found.write(&mut written[..length]);
    &written[..length] == wanted
}

/// The second entry of that dir item.
const SECOND: DirEntry<'static> = DirEntry {
    location: Key {
        objectid: 10963996,
        kind: 1,
        offset: 0,
    },
    transid: 0,
    data_length: 0,
    kind: 1,
    name: b"ffca2be6a",
};

/// Whether an entry has the fields of that one.
fn is_second(found: &DirEntry<'_>) -> bool {
    found.location == SECOND.location
        && (found.transid, found.data_length, found.kind)
            == (SECOND.transid, SECOND.data_length, SECOND.kind)
        && found.name == SECOND.name
}

/// Whether entry `i` of the body of a dir item has them, if the body is one and has so many.
fn is_second_at(body: &[u8], i: usize) -> Option<bool> {
    match DirItems::read(body) {
        Some(entries) if i < entries.len() => Some(is_second(&entries.get(i))),
        _ => None,
    }
}

#[test]
fn dir_item(rt: HostRuntime) {
    let found = [
        is_second_at(front(dir_item_body(), 78), 1),
        is_second_at(front(dir_item_body(), 78), 2),
        is_second_at(front(dir_item_body(), 40), 0),
    ];
    assert!(rt; found == [Some(true), None, None]);
    assert!(rt; is_entry_written(&SECOND, behind(dir_item_body(), 39)));
}

#[test]
fn inline_extent(rt: HostRuntime) -> Result<(), Fail> {
    let extent = FileExtent::read(&INLINE).ok_or("an extent")?;
    assert_eq!(rt; (extent.generation, extent.ram_bytes), (7, 6));
    match extent.content {
        ExtentContent::Inline(bytes) => assert_eq!(rt; bytes, b"target".as_slice()),
        _ => return Err("inline".into()),
    }
    let mut written = [0; 27];
    extent.write(&mut written);
    assert_eq!(rt; written, INLINE);
    assert!(rt; FileExtent::read(&INLINE[..20]).is_none());
    Ok(())
}

#[test]
fn preallocated_extent(rt: HostRuntime) -> Result<(), Fail> {
    let extent = FileExtent::read(&PREALLOC).ok_or("an extent")?;
    assert_eq!(rt; (extent.generation, extent.ram_bytes), (9, 1048576));
    assert_eq!(rt;
        (extent.compression, extent.encryption, extent.other),
        (0, 0, 0)
    );
    let wanted = DiskRange {
        disk_bytenr: 15974400,
        disk_num_bytes: 1048576,
        offset: 8192,
        num_bytes: 1040384,
    };
    match extent.content {
        ExtentContent::Prealloc(range) => assert_eq!(rt; range, wanted),
        _ => return Err("preallocated".into()),
    }
    let mut written = [0; 53];
    extent.write(&mut written);
    assert_eq!(rt; written, PREALLOC);
    assert!(rt; FileExtent::read(&PREALLOC[..52]).is_none());
    Ok(())
}
