// What Linux tells of a file or a device that is in use.
use crate::folder::Entry;
use crate::uses::{Asked, Step, right_steps};
use std::io;

/// The device 8:16 is a whole disk, and this one its first partition.
const PARTITION: &[u64] = &[17];

const NO_DEVICE: &[u64] = &[];

const DISK: &[u64] = &[16];

const BOTH: &[u64] = &[16, 17];

/// A file that is mounted, by the symlink to it. The table has mounts of a system, and one of a partition.
const MOUNTS: &[Step] = &[
    Step::Makes(&[
        ("my disk", Entry::File(b"")),
        ("other", Entry::File(b"")),
        ("a link", Entry::Symlink("my disk")),
        (
            "mounts",
            Entry::Tells(
                "23 29 0:22 / /proc rw - proc proc rw\n40 1 0:35 /@ /data rw shared:3 - btrfs ",
                "/a\\040link rw\n41 1 8:17 / /srv rw - ext4 /no/such/node rw\n",
            ),
        ),
    ]),
    Step::Asks(Asked::Mounted, "mounts", "my disk", NO_DEVICE, true),
    Step::Asks(Asked::Mounted, "mounts", "other", NO_DEVICE, false),
    Step::Asks(Asked::Mounted, "mounts", "other", DISK, false),
    Step::Asks(Asked::Mounted, "mounts", "other", BOTH, true),
    Step::Asks(Asked::Mounted, "no such table", "other", BOTH, false),
];

const SWAPS: &[Step] = &[
    Step::Makes(&[
        ("disk", Entry::File(b"")),
        ("other", Entry::File(b"")),
        (
            "swaps",
            Entry::Tells("Filename\tType\tSize\n", "/disk  file\t1000\n"),
        ),
    ]),
    Step::Asks(Asked::Swap, "swaps", "disk", NO_DEVICE, true),
    Step::Asks(Asked::Swap, "swaps", "other", NO_DEVICE, false),
];

/// A file, another one, and folders like those of a disk and of a loop device.
const DEVICES: Step = Step::Makes(&[
    ("disk", Entry::File(b"")),
    ("other", Entry::File(b"")),
    ("devices", Entry::Folder),
    ("devices/vda", Entry::Folder),
    ("devices/loop0", Entry::Folder),
    ("devices/loop0/loop", Entry::Folder),
]);

/// The file that tells which file the loop device has.
const BACKING: &str = "devices/loop0/loop/backing_file";

/// A path may lack its line feed.
const NO_LINE_FEED: &[Step] = &[
    DEVICES,
    Step::Makes(&[(BACKING, Entry::Tells("", "/disk"))]),
    Step::Asks(Asked::Loop, "devices", "disk", NO_DEVICE, true),
];

/// A path that is no text is passed over.
const NO_TEXT: &[Step] = &[
    DEVICES,
    Step::Makes(&[(BACKING, Entry::File(b"/srv/d\xffsk\n"))]),
    Step::Asks(Asked::Loop, "devices", "disk", NO_DEVICE, false),
];

/// A file is found by each of its names.
const SECOND_NAME: &[Step] = &[
    DEVICES,
    Step::Makes(&[
        ("name", Entry::HardLink("disk")),
        (BACKING, Entry::Tells("", "/name\n")),
    ]),
    Step::Asks(Asked::Loop, "devices", "disk", NO_DEVICE, true),
    Step::Asks(Asked::Loop, "devices", "other", NO_DEVICE, false),
    Step::Asks(Asked::Loop, "no such folder", "disk", NO_DEVICE, false),
];

const SYSTEM: Entry = Entry::File(b"23 29 0:22 / /proc rw - proc proc rw\n");

const MOUNTED: Entry = Entry::File(b"41 1 8:17 / /srv rw - ext4 /no/such/node rw\n");

/// A file, and a folder like `/proc`, with a process that sees no device mounted. The folder `sys` is no process.
const PROCESSES: Step = Step::Makes(&[
    ("disk", Entry::File(b"")),
    ("proc", Entry::Folder),
    ("proc/7", Entry::Folder),
    ("proc/7/mountinfo", SYSTEM),
    ("proc/self", Entry::Folder),
    ("proc/sys", Entry::Folder),
    ("proc/sys/mountinfo", MOUNTED),
]);

/// The table of the process that asks.
const OWN_TABLE: Step = Step::Makes(&[("proc/self/mountinfo", SYSTEM)]);

/// A mount of another process is found. Of process 12, which has ended or whose table may not be read, there is none.
const MOUNTED_FOR_ANY: &[Step] = &[
    PROCESSES,
    OWN_TABLE,
    Step::Asks(Asked::MountedForAny, "proc", "disk", PARTITION, false),
    Step::Asks(
        Asked::MountedForAny,
        "no such folder",
        "disk",
        PARTITION,
        false,
    ),
    Step::Makes(&[("proc/12", Entry::Folder)]),
    Step::Asks(Asked::MountedForAny, "proc", "disk", PARTITION, false),
    Step::Makes(&[("proc/120", Entry::Folder), ("proc/120/mountinfo", MOUNTED)]),
    Step::Asks(Asked::MountedForAny, "proc", "disk", PARTITION, true),
];

/// A folder of the partition.
const BLOCK: Step = Step::Makes(&[("block", Entry::Folder), ("block/8:17", Entry::Folder)]);

/// Of a device both folders have to tell, and of a plain file none. A process that asks has to see its own table.
const TOLD: &[Step] = &[
    PROCESSES,
    OWN_TABLE,
    BLOCK,
    Step::Makes(&[("empty", Entry::Folder)]),
    Step::Asks(Asked::Told("none"), "none", "disk", NO_DEVICE, true),
    Step::Asks(Asked::Told("none"), "none", "disk", PARTITION, false),
    Step::Asks(Asked::Told("empty"), "proc", "disk", PARTITION, false),
    Step::Asks(Asked::Told("block"), "proc", "disk", PARTITION, true),
    Step::Asks(Asked::Told("block"), "none", "disk", PARTITION, false),
];

const NO_OWN_TABLE: &[Step] = &[
    PROCESSES,
    BLOCK,
    Step::Asks(Asked::Told("block"), "proc", "disk", PARTITION, false),
];

/// A device of which nothing is told is not read-only, nor is a plain file.
const READ_ONLY: &[Step] = &[
    Step::Makes(&[("disk", Entry::File(b"")), ("block", Entry::Folder)]),
    Step::Asks(Asked::ReadOnly, "block", "disk", NO_DEVICE, false),
    Step::Asks(Asked::ReadOnly, "block", "disk", PARTITION, false),
    Step::Makes(&[("block/8:17", Entry::Folder)]),
    Step::Asks(Asked::ReadOnly, "block", "disk", PARTITION, false),
    Step::Asks(Asked::ReadOnly, "block", "disk", NO_DEVICE, false),
    Step::Makes(&[("block/8:17/ro", Entry::File(b"0\n"))]),
    Step::Asks(Asked::ReadOnly, "block", "disk", PARTITION, false),
    Step::Asks(Asked::ReadOnly, "block", "disk", NO_DEVICE, false),
    Step::Makes(&[("block/8:17/ro", Entry::File(b"1\n"))]),
    Step::Asks(Asked::ReadOnly, "block", "disk", PARTITION, true),
    Step::Asks(Asked::ReadOnly, "block", "disk", NO_DEVICE, false),
];

/// The partition is that of a mounted volume, and the disk is not.
const VOLUMES: &[Step] = &[
    Step::Makes(&[
        ("features", Entry::Folder),
        ("7a148d8a", Entry::Folder),
        ("7a148d8a/devices", Entry::Folder),
        ("7a148d8a/devices/sdb1", Entry::Folder),
        ("7a148d8a/devices/sdb1/dev", Entry::File(b"8:17\n")),
    ]),
    Step::Asks(Asked::OfAVolume, "", "", NO_DEVICE, false),
    Step::Asks(Asked::OfAVolume, "", "", DISK, false),
    Step::Asks(Asked::OfAVolume, "", "", BOTH, true),
    Step::Asks(Asked::OfAVolume, "no such folder", "", BOTH, false),
];

/// The steps in each of the folders.
const FOLDERS: &[(&str, &[Step])] = &[
    ("mounts", MOUNTS),
    ("swaps", SWAPS),
    ("no_line_feed", NO_LINE_FEED),
    ("no_text", NO_TEXT),
    ("second_name", SECOND_NAME),
    ("mounted_for_any", MOUNTED_FOR_ANY),
    ("told", TOLD),
    ("no_own_table", NO_OWN_TABLE),
    ("read_only", READ_ONLY),
    ("volumes", VOLUMES),
];

#[test]
fn what_is_in_use_is_found(rt: HostRuntime) -> io::Result<()> {
    for (word, steps) in FOLDERS {
        assert_eq!(rt; right_steps(&rt, *word, *steps)?, steps.len(), "of {word}");
    }
    Ok(())
}
