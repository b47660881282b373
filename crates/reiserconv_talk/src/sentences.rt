// Made by docs/refusals.py of docs/refusals.table: change that one, and not this file.

/// What a line means, and what to do next, each empty where there is nothing to say. In the text of a refusal `{1}` stands for the first
/// number of its line, and so on, and `{path}` for the path of the run.
#[derive(Clone, Copy)]
pub struct Sentence {
    pub means: &'static str,
    pub next: &'static str,
}

const NOTHING: Sentence = Sentence {
    means: "",
    next: "",
};

/// Of the refusal with this number.
pub fn of_refusal(number: u64) -> Sentence {
    match number {
        1 => Sentence {
            means: "There is no superblock of either format at its place (byte 65536), or the device ends before it.",
            next: "See whether this is the right device: it has to be the partition and not the whole disk. 'lsblk --fs' shows which partition has which format.",
        },
        2 => Sentence {
            means: "The volume was not unmounted, or is mounted right now: its superblock has the state {1}.",
            next: "Mount it in Linux 6.12 or earlier, which has ReiserFS, and unmount it, or run 'reiserfsck --check --yes {path}', which replays the journal.",
        },
        3 => Sentence {
            means: "The volume has something that is not supported: feature {1}, with the value {2}.",
            next: "",
        },
        4 => Sentence {
            means: "The volume has {1} blocks of 4 KiB, and the device only {2} of them. The end of the volume is missing.",
            next: "Look for the right partition, or restore the size of the partition or file. Don't write to it before: 'reiserfsck' would see damage in what is only missing here.",
        },
        5 => Sentence {
            means: "The journal holds at least one transaction that is not in its place yet, number {1}.",
            next: "Mount the volume in Linux 6.12 or earlier, which has ReiserFS, and unmount it, or run 'reiserfsck --check --yes {path}', which replays the journal.",
        },
        6 => Sentence {
            means: "At block {1} a rule of the format is broken, rule {2}.",
            next: "Run 'reiserfsck --check --yes {path}', and do what it says. With '--rebuild-tree' it writes a lot: have a copy before. Where it says 'No corruptions found' and the line stays, mount the volume read-only in Linux 6.12 or earlier, which has ReiserFS, and copy its files to a new one.",
        },
        7 => Sentence {
            means: "There are extended attributes or access control lists, which the program does not carry over: those of {1} {2}.",
            next: "They lie in a folder that Linux does not show. To find the files that have them, mount the volume in Linux 6.12 or earlier, which has ReiserFS, with the options 'user_xattr,acl': 'getfattr -R -h -P -m - /mnt/disk' names those with attributes, and 'getfacl -R -P -s /mnt/disk' those with lists. Keep both in two files, remove them, and put them back on the new volume: the commands are in HOWTO.md, section 9. Where none is worth it, only remove the attributes ('setfattr -x NAME FILE') and lists ('setfacl -R -b /mnt/disk'). Empty folders that stay behind in '.reiserfs_priv' do no harm.",
        },
        8 => Sentence {
            means: "A file was removed, or cut short, while a program had it open, and is still to be cleaned up: object {1}.",
            next: "Mount the volume in Linux 6.12 or earlier, which has ReiserFS, for writing, and unmount it.",
        },
        9 => Sentence {
            means: "The root directory has an entry 'reiserfs_saved', a name that a conversion needs for itself.",
            next: "Mount the volume in Linux 6.12 or earlier, which has ReiserFS, and rename it.",
        },
        10 => Sentence {
            means: "A name of the object {1} {2} has more than 255 bytes, or the object is a symbolic link whose target has more than 3900: {3} bytes.",
            next: "Mount the volume in Linux 6.12 or earlier, which has ReiserFS, and shorten it. 'find /mnt/disk -xdev -inum {2}' prints where it is.",
        },
        11 => Sentence {
            means: "In the directory {1} {2} more names share the hash {3} than Btrfs can hold.",
            next: "Mount the volume in Linux 6.12 or earlier, which has ReiserFS, and rename some of the names there, until it is no longer refused. 'find /mnt/disk -xdev -inum {2}' prints where it is.",
        },
        13 => Sentence {
            means: "At the address {1}, in bytes, a rule of the format is broken, rule {2}.",
            next: "Run 'btrfs check --readonly {path}'. Where it says 'no error found', the volume may have something that this program does not know, and is sound all the same.",
        },
        14 => Sentence {
            means: "The volume was not unmounted, and a log waits to be replayed, at the address {1}.",
            next: "Mount it in Linux once, and unmount it. The way back stays open.",
        },
        15 => Sentence {
            means: "A conversion needs {1} free units of 1 MiB, with {3} in one row. The number of those that are free as a whole is {2}, and that in the longest row {4}.",
            next: "Remove or move away large files, or make the volume larger. Nodes of another size may need less: 'reiserconv inspect --nodesize 4096 {path}' tells how much. See HOWTO.md.",
        },
        16 => Sentence {
            means: "The volume already has the format that the command would turn it into.",
            next: "Nothing.",
        },
        17 => Sentence {
            means: "There is no file 'image' in a subvolume 'reiserfs_saved' of the root, so that there is nothing to go back to: they were renamed, moved or removed, or this volume was never converted.",
            next: "If you have renamed or moved them, give them their names and places back: the way back is open again then. Else nothing leads back: stay with Btrfs, or copy your files to a new volume.",
        },
        18 => Sentence {
            means: "Block {1} of the old volume no longer lies where it lay. A balance of data moves blocks, as do a smaller size, and a defragmentation or a deduplication of the file 'image' itself.",
            next: "'rollback' can't turn it back any more: stay with Btrfs, or copy your files to a new volume. What the old volume held is not lost. The file 'image' still has it, as a volume of ReiserFS that can be read: 'reiserconv list /mnt/disk/reiserfs_saved/image' lists it.",
        },
        19 => Sentence {
            means: "The old volume in the file 'image' is refused. Somebody has written to the file, or a block of it is damaged.",
            next: "Stay with Btrfs. A copy of the file can be checked and mended by 'reiserfsck', and read like any volume.",
        },
        20 => Sentence {
            means: "Block {1}, which the old volume needs back, is used by Btrfs.",
            next: "Stay with Btrfs, or copy your files to a new volume.",
        },
        21 => Sentence {
            means: "The volume is not sound: part {1} of what a sound volume is does not hold at {2}.",
            next: "Run 'btrfs check --readonly {path}'.",
        },
        22 => Sentence {
            means: "The subvolume with the saved image is shared with tree {1}, and is not removed.",
            next: "Remove the snapshots and entries that name it, and make another subvolume the default one.",
        },
        _ => NOTHING,
    }
}

/// Of the refusal with this number of one command, where it is another matter than of all.
pub fn of_command(command: &str, number: u64) -> Sentence {
    match (command, number) {
        ("convert", 16) => Sentence {
            means: "It is a Btrfs volume already. 'convert' turns a ReiserFS volume into Btrfs. If you have converted it before, that is done.",
            next: "Nothing. 'reiserconv inspect {path}' shows in the line 'image' whether it holds an old volume.",
        },
        ("rollback", 16) => Sentence {
            means: "It is a ReiserFS volume already. 'rollback' turns a volume that was converted to Btrfs back into ReiserFS. If you have rolled it back before, that is done.",
            next: "Nothing. 'reiserfsck --check --yes {path}' has to say 'No corruptions found'.",
        },
        ("trial", 4) => Sentence {
            means: "A trial takes {1} blocks of 4 KiB, which is 256 MiB, and the device has only {2} of them.",
            next: "Take a longer file ('truncate -s 256M {path}' makes one so long) or device.",
        },
        ("trial", 15) => Sentence {
            means: "The sample is too large for its volume of 256 MiB, or leaves too little space for a conversion.",
            next: "Take a smaller number.",
        },
        ("trial", 16) => Sentence {
            means: "There is a volume of ReiserFS or Btrfs, which the trial would overwrite.",
            next: "See by 'reiserconv inspect {path}' which it is, and take another file or device. Where it holds nothing but the sample of another trial, 'wipefs --all {path}' takes away what tells of a volume.",
        },
        _ => NOTHING,
    }
}

/// Of a rule of ReiserFS that is broken.
pub fn of_rule(number: u64) -> Sentence {
    match number {
        1 => Sentence {
            means: "A field of the superblock is out of its bounds.",
            next: "",
        },
        2 => Sentence {
            means: "A block of the superblock, of the bitmaps or of the journal is marked free.",
            next: "",
        },
        3 => Sentence {
            means: "A node has a wrong level or a wrong number of items.",
            next: "",
        },
        4 => Sentence {
            means: "The parts of a node do not fit together.",
            next: "",
        },
        5 => Sentence {
            means: "An item's key is not above that of the item before.",
            next: "",
        },
        6 => Sentence {
            means: "A block that is pointed to is marked free.",
            next: "",
        },
        7 => Sentence {
            means: "A pointer leaves the volume.",
            next: "",
        },
        8 => Sentence {
            means: "A block is reached twice, or belongs to the superblock, the bitmaps or the journal.",
            next: "",
        },
        9 => Sentence {
            means: "An item's body is not as it has to be.",
            next: "",
        },
        10 => Sentence {
            means: "An entry of a directory is not as it has to be.",
            next: "",
        },
        11 => Sentence {
            means: "An object has no stat data, an unknown kind, or items that its kind does not have.",
            next: "",
        },
        12 => Sentence {
            means: "Two items of an object hold the same byte.",
            next: "",
        },
        13 => Sentence {
            means: "A directory has one name twice.",
            next: "",
        },
        14 => Sentence {
            means: "A directory has two names, or the root has one.",
            next: "",
        },
        15 => Sentence {
            means: "A size, or the number of names of an object, is out of its range.",
            next: "",
        },
        16 => Sentence {
            means: "A block reads otherwise than before.",
            next: "Somebody else wrote to the device while the command ran, or the device fails. Look at 'dmesg' and at the state of the disk ('smartctl -a'), and begin again.",
        },
        _ => NOTHING,
    }
}

/// Of a rule of Btrfs that is broken.
pub fn of_btrfs_rule(number: u64) -> Sentence {
    match number {
        1 => Sentence {
            means: "The checksum of the superblock is wrong.",
            next: "",
        },
        2 => Sentence {
            means: "A field of the superblock is out of its bounds, or the volume has more than one device, so that it is larger than this one.",
            next: "See by 'btrfs filesystem show {path}' how many devices it has. Where they are several, mount the volume, and take the others out with 'btrfs device remove'. The way back is open again then, if no block of the old volume was moved. Where it is one, run 'btrfs check --readonly {path}'.",
        },
        3 => Sentence {
            means: "A chunk is not as it has to be, overlaps another, or leaves the device.",
            next: "",
        },
        4 => Sentence {
            means: "An address lies in no chunk.",
            next: "",
        },
        5 => Sentence {
            means: "The checksum of a node is wrong.",
            next: "",
        },
        6 => Sentence {
            means: "A node's address, file system, owner, level, generation or number of items is not what its parent says.",
            next: "",
        },
        7 => Sentence {
            means: "The parts of a node do not fit together.",
            next: "",
        },
        8 => Sentence {
            means: "Keys do not ascend.",
            next: "",
        },
        9 => Sentence {
            means: "An item's body is not as it has to be.",
            next: "",
        },
        10 => Sentence {
            means: "An entry names an inode or a tree that is not there.",
            next: "",
        },
        11 => Sentence {
            means: "There is a name that no directory may have, or one name twice.",
            next: "",
        },
        12 => Sentence {
            means: "Extents of a file overlap, are not aligned, or leave the space that they name.",
            next: "",
        },
        13 => Sentence {
            means: "A directory has two names.",
            next: "",
        },
        _ => NOTHING,
    }
}

/// Of what is not supported.
pub fn of_feature(number: u64) -> Sentence {
    match number {
        1 => Sentence {
            means: "It is ReiserFS of format 3.5.",
            next: "Mount it once in Linux 6.12 or earlier, which has ReiserFS, with the option 'conv', which makes it one of format 3.6.",
        },
        2 => Sentence {
            means: "Blocks of ReiserFS have another size than 4096 bytes.",
            next: "Such a volume can't be converted. Mount it in Linux 6.12 or earlier, which has ReiserFS, and copy its files to a new volume.",
        },
        3 => Sentence {
            means: "The journal of the ReiserFS volume lies on another device.",
            next: "Let 'reiserfstune' bring it back.",
        },
        4 => Sentence {
            means: "'reiserfsck' has marked the ReiserFS volume as damaged.",
            next: "Let 'reiserfsck' finish.",
        },
        5 => Sentence {
            means: "The ReiserFS volume has more than 2^29 blocks, which is 2 TiB.",
            next: "Where less than 2 TiB is in use, 'resize_reiserfs -s 2048G {path}' makes the volume so small that it can be converted; have a copy before. Where more is in use, copy the files to a new volume.",
        },
        11 => Sentence {
            means: "The Btrfs volume has incompatible features that are not read.",
            next: "",
        },
        12 => Sentence {
            means: "A kind of checksum of Btrfs is not known.",
            next: "",
        },
        13 => Sentence {
            means: "Sectors of Btrfs have another size than 4096 bytes.",
            next: "",
        },
        14 => Sentence {
            means: "Nodes of Btrfs have another size than 4, 8, 16, 32 or 64 KiB.",
            next: "",
        },
        15 => Sentence {
            means: "The Btrfs volume has more devices than one.",
            next: "Take the others out with 'btrfs device remove'. The way back is open again then, if no block of the old volume was moved.",
        },
        16 => Sentence {
            means: "Chunks are mixed, or spread over devices.",
            next: "Where only metadata is kept so, 'btrfs balance start -f -mconvert=single -sconvert=single /mnt/disk', without '-dconvert', makes it single and keeps the way back open. Data takes '-dconvert=single' too, which moves it and closes the way back.",
        },
        17 => Sentence {
            means: "A file is compressed, and its bytes can't be listed.",
            next: "To list the volume, mount it without a compression, and write each such file anew, as by 'cp -a --reflink=never FILE NEW' and 'mv NEW FILE'; 'compsize FILE' of the package 'btrfs-compsize' tells whether a file is compressed. 'rollback' needs none of this, unless the file 'image' itself is compressed: then nothing leads back.",
        },
        18 => Sentence {
            means: "A file is encrypted.",
            next: "",
        },
        19 => Sentence {
            means: "The Btrfs volume can't be changed once more: its generation is the highest that there is.",
            next: "",
        },
        _ => NOTHING,
    }
}

/// Of a line that is no refusal.
pub fn of_line(line: &str) -> Sentence {
    match line {
        "usage: .." => Sentence {
            means: "The arguments are invalid, and nothing was opened.",
            next: "'reiserconv --help' has the commands and their options.",
        },
        "not confirmed" => Sentence {
            means: "The answer was not 'yes'. Nothing was written, and the volume stays as it is.",
            next: "",
        },
        "device fault" => Sentence {
            means: "A call of the system failed, or the device is in use, is read-only, or holds what a trial would overwrite.",
            next: "",
        },
        "out of memory" => Sentence {
            means: "The system gave no memory.",
            next: "Close other programs or add swap space, and begin again.",
        },
        "output fault" => Sentence {
            means: "The text could not be printed, for example since the disk that it goes to is full.",
            next: "",
        },
        "start fault" => Sentence {
            means: "The arguments, the clock or the random numbers of the system could not be had, and nothing was opened.",
            next: "See whether each argument is text in UTF-8.",
        },
        _ => NOTHING,
    }
}

/// Of a device that fails, by the cause.
pub fn of_fault(cause: &str) -> Sentence {
    match cause {
        "denied" => Sentence {
            means: "It could not be opened: you may not open it.",
            next: "A device is opened by root alone: begin again as root. See whether the path is right ('lsblk').",
        },
        "forbidden" => Sentence {
            means: "It could not be opened: the system forbids it to root too.",
            next: "In a container begin again outside of it. A file may be immutable ('lsattr {path}' shows an i), which 'chattr -i {path}' ends, or lie on another machine that trusts no root.",
        },
        "open" => Sentence {
            means: "It could not be opened.",
            next: "See whether the path is right ('lsblk'), and what 'dmesg' says of the device.",
        },
        "absent" => Sentence {
            means: "Nothing is there.",
            next: "See whether the path is right: 'lsblk' lists the devices.",
        },
        "untried" => Sentence {
            means: "Nothing is there, and a trial makes no file.",
            next: "Make one with 'truncate -s 256M {path}', or give a file or a device of that size which holds nothing.",
        },
        "kind" => Sentence {
            means: "It is neither a plain file nor a block device.",
            next: "Give a partition or a file that holds a volume.",
        },
        "unfit" => Sentence {
            means: "It is neither a plain file nor a block device, and a trial takes one of these.",
            next: "Give a file or a device of at least 256 MiB which holds nothing. 'truncate -s 256M scratch.img' makes such a file.",
        },
        "mounted" => Sentence {
            means: "It is mounted, or one of its partitions or the disk that it lies on is.",
            next: "Unmount it with 'umount'; 'findmnt' shows what is mounted where. Where it shows nothing, another name space has it mounted, as that of a container: 'grep -l {path} /proc/*/mountinfo' names the processes that see the mount. The volume that the system runs from is converted from a rescue system.",
        },
        "swap" => Sentence {
            means: "It is swap space, or one of its partitions or the disk that it lies on is.",
            next: "See whether this is the right device. 'swapoff' ends its use.",
        },
        "held" => Sentence {
            means: "Another device lies on it, or on one of its partitions or the disk that it lies on: a RAID, a logical volume, or an encrypted one.",
            next: "Give the device that lies on it, if that is the one with the volume. 'lsblk' shows both.",
        },
        "loop" => Sentence {
            means: "A loop device is attached to the file.",
            next: "Unmount it if it is mounted, and detach it with 'losetup -d'; 'losetup -j {path}' tells which it is. Or give the loop device in place of the file.",
        },
        "locked" => Sentence {
            means: "Another program has locked it, such as another run of this one.",
            next: "Wait until that program has ended; 'fuser -v {path}' shows it.",
        },
        "unknown" => Sentence {
            means: "Nobody can tell whether it is in use, since '/proc' or '/sys' can't be read.",
            next: "Mount both: 'mount -t proc proc /proc' and 'mount -t sysfs sysfs /sys'. For a root folder that you enter with 'chroot' do that before, as in HOWTO.md for a root file system.",
        },
        "readonly" => Sentence {
            means: "It is read-only.",
            next: "See whether this is the right device: 'lsblk' shows in the column RO which are read-only. 'blockdev --setrw {path}' makes one writable, and a loop device is attached again without '--read-only'. A file has to lie on a file system that is mounted for writing.",
        },
        "holds" => Sentence {
            means: "Something lies there that would be overwritten, such as partitions, another file system, swap space or a part of a RAID.",
            next: "Take another file or device. Where nothing there is of any worth, 'wipefs -a {path}' takes away what tells of it, and a partition table with 'wipefs -a -f {path}'.",
        },
        "device" => Sentence {
            means: "Reading, writing or flushing failed.",
            next: "Look at 'dmesg' and at the state of the disk ('smartctl -a'). Where the disk fails, make a copy of it first ('ddrescue'), and go on with that.",
        },
        _ => NOTHING,
    }
}

/// Of a program that does not start, by the cause.
pub fn of_start(cause: &str) -> Sentence {
    match cause {
        "text" => Sentence {
            means: "An argument is no text in UTF-8, and a path has to be. Nothing was opened.",
            next: "Reach the file by a symbolic link with another name ('ln -s'), or give it another name.",
        },
        "memory" => Sentence {
            means: "The system gave no memory for the arguments. Nothing was opened.",
            next: "Close other programs, or add swap space.",
        },
        "time" => Sentence {
            means: "The system does not tell the time, or tells one before 1970. Nothing was opened.",
            next: "Set the clock ('date -s').",
        },
        "random" => Sentence {
            means: "The system gives no random numbers, which a new volume needs for its identifiers. Nothing was opened.",
            next: "See whether '/dev/urandom' is there.",
        },
        "streams" => Sentence {
            means: "A standard stream is closed, and no file could be opened in its place. Nothing was opened but '/dev/null'.",
            next: "Redirect the stream to a file, or to '/dev/null'.",
        },
        _ => NOTHING,
    }
}

/// What is safe.
pub fn of_safety(case: &str) -> Sentence {
    match case {
        "nothing" => Sentence {
            means: "Nothing was written.",
            next: "",
        },
        "free" => Sentence {
            means: "Free blocks may have been written, or a superblock that a power cut left half turned was put back. All else in use is as it was, and so is the volume.",
            next: "",
        },
        "cut" => Sentence {
            means: "Blocks were written. The volume is the old one or the new one, as after a power cut: 'reiserconv recover {path}' says which, and can be called again.",
            next: "",
        },
        "trial" => Sentence {
            means: "Blocks of the device were written. It held no volume before, and what it holds now is of no use.",
            next: "",
        },
        "done" => Sentence {
            means: "What was to be done is done.",
            next: "",
        },
        _ => NOTHING,
    }
}
