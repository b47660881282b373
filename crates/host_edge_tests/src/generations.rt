use crate::folder::{Bytes, Entry, Folder};
use host_edge::{csum_type_at, drop_caches, generation_at};
use std::{fs, io};

/// Generation 7 in a superblock, and the kind 2 of checksum.
const GENERATION: Bytes = (65608, b"\x07\0\0\0\0\0\0\0");

const KIND: Bytes = (65732, b"\x02\0");

/// Files of 20 blocks that have both, with the magics of either format, and a short file.
const FILES: &[(&str, Entry)] = &[
    (
        "btrfs",
        Entry::Disk(81920, &[(65600, b"_BHRfS_M"), GENERATION, KIND]),
    ),
    (
        "reiserfs",
        Entry::Disk(81920, &[(65588, b"ReIsEr2Fs"), GENERATION, KIND]),
    ),
    ("short", Entry::File(b"nothing")),
];

/// What is told of these files, and of the folder.
const TOLD: &[(&str, Option<u64>, Option<u16>)] = &[
    ("btrfs", Some(7), Some(2)),
    ("reiserfs", None, None),
    ("short", None, None),
    ("", None, None),
];

/// What is told of a file of a folder.
fn told(rt: &HostRuntime, folder: &Folder, name: &str) -> io::Result<(Option<u64>, Option<u16>)> {
    let path = folder.path(rt, name)?;
    let generation = generation_at(rt, path.as_str())?;
    Ok((generation, csum_type_at(rt, path.as_str())?))
}

#[test]
fn a_btrfs_volume_has_a_generation_and_a_kind_of_checksum(rt: HostRuntime) -> io::Result<()> {
    let folder = Folder::filled(&rt, "generations", FILES)?;
    for (name, generation, kind) in TOLD {
        assert!(rt; told(&rt, &folder, *name)? == (*generation, *kind));
    }
    assert!(rt; generation_at(&rt, "/no such folder/gone").is_err());
    folder.remove(&rt)
}

/// Whether a one stands in a file of a folder once Linux is told by it to drop its caches.
fn is_told(rt: &HostRuntime, folder: &Folder) -> io::Result<bool> {
    let path = folder.path(rt, "drop_caches")?;
    drop_caches(rt, path.as_str())?;
    let text = fs::read_to_string(rt, path.as_str())?;
    Ok(text.as_str() == "1")
}

/// Whether it can't be told by a file that is not there.
fn is_refused(rt: &HostRuntime, folder: &Folder) -> io::Result<bool> {
    let path = folder.path(rt, "gone")?;
    Ok(drop_caches(rt, path.as_str()).is_err())
}

#[test]
fn a_one_is_written_where_linux_is_told_to_drop_its_caches(rt: HostRuntime) -> io::Result<()> {
    let folder = Folder::filled(&rt, "caches", &[("drop_caches", Entry::File(b""))])?;
    assert!(rt; is_told(&rt, &folder)?);
    assert!(rt; is_refused(&rt, &folder)?);
    folder.remove(&rt)
}
