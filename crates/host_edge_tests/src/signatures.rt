use crate::folder::{Bytes, Entry, Folder};
use host_edge::Signature;
use std::fs::File;
use std::io;

/// The length of the files: no multiple of 64 KiB, but of 4 KiB.
const LENGTH: u64 = 1_200_128;

/// What ends a first sector with a table of partitions.
const SECTOR_END: Bytes = (510, b"\x55\xaa");

/// A superblock of ZFS.
const ZFS: &[u8] = b"\x0c\xb1\xba\0\0\0\0\0";

/// What lies on files of zeros with these bytes; "nothing" where nothing is known.
const DISKS: &[(&[Bytes], &str)] = &[
    (&[(0, b"\0")], "nothing"),
    (&[(1080, b"\x53\xef")], "an ext2, ext3 or ext4 file system"),
    (&[(0, b"XFSB")], "an XFS file system"),
    (&[(65526, b"SWAPSPACE2")], "swap space"),
    (&[(1560, b"LVM2 001")], "a physical volume of LVM"),
    (&[(512, b"EFI PART")], "a partition table (GPT)"),
    (&[(446, b"\x80")], "nothing"),
    // the area of 64 KiB before the last one, 18 of which end at 1179648, and 8 KiB before the end
    (&[(1_114_112, b"\xfc\x4e\x2b\xa9")], "a member of a RAID"),
    (&[(1_191_936, b"\xfc\x4e\x2b\xa9")], "a member of a RAID"),
    (&[(1_199_616, b"EFI PART")], "a partition table (GPT)"),
    (&[(1_200_124, b"XFSB")], "nothing"),
    // a byte at the front of the table of partitions: boot code has others there
    (&[(446, b"\0"), SECTOR_END], "a partition table (MBR)"),
    (&[(446, b"\x80"), SECTOR_END], "a partition table (MBR)"),
    (&[(446, b"\xeb"), SECTOR_END], "nothing"),
    // one superblock of ZFS for each KiB; four are a pool
    (&[(135_168, ZFS), (136_192, ZFS), (137_216, ZFS)], "nothing"),
    (
        &[
            (135_168, ZFS),
            (136_192, ZFS),
            (137_216, ZFS),
            (138_240, ZFS),
        ],
        "a member of a ZFS pool",
    ),
];

/// Whether this lies on a file of a folder with these bytes.
fn is_found(
    rt: &HostRuntime,
    folder: &Folder,
    bytes: &'static [Bytes],
    name: &str,
) -> io::Result<bool> {
    folder.fill(rt, &[("disk", Entry::Disk(LENGTH, bytes))])?;
    let path = folder.path(rt, "disk")?;
    let found = text_at(rt, path.as_str())?;
    Ok(found.as_str() == name)
}

/// What lies on a file.
fn text_at(rt: &HostRuntime, path: &str) -> io::Result<String> {
    let file = File::open(rt, path)?;
    match Signature::of(&file, LENGTH)? {
        Some(found) => Ok(format!(in rt.alloc(); "{}", found)?),
        None => Ok(String::from_str(rt.alloc(), "nothing")?),
    }
}

#[test]
fn what_lies_on_a_disk_is_known_by_its_bytes(rt: HostRuntime) -> io::Result<()> {
    let folder = Folder::new(&rt, "magics")?;
    for (bytes, name) in DISKS {
        assert!(rt; is_found(&rt, &folder, *bytes, *name)?, "{name}");
    }
    folder.remove(&rt)
}
