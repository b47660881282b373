ghost use Rattle.std.specs.Prelude.{◌≡◌, ◌<◌, ◌^◌};
ghost use Rattle.btr_item_list.specs.Inodes.{stamp_of, new_inode, inode_made};

use btr_node::{Inode, Stamp};

/// What each inode of a new tree has: transaction 1 made it, and it has one name.
pub fn new_inode() -> Inode
    ensures { result ≡ new_inode }
{
    Inode {
        generation: 1,
        transid: 1,
        size: 0,
        nbytes: 0,
        block_group: 0,
        nlink: 1,
        uid: 0,
        gid: 0,
        mode: 0,
        rdev: 0,
        flags: 0,
        sequence: 0,
        atime: stamp_of(0),
        ctime: stamp_of(0),
        mtime: stamp_of(0),
        otime: stamp_of(0),
    }
}

/// This time, in seconds since the start of 1970.
pub fn stamp_of(sec: u64) -> Stamp
    requires { sec < 2 ^ 63 }
    ensures { result ≡ stamp_of sec }
{
    Stamp {
        sec: sec as i64,
        nsec: 0,
    }
}

/// An inode that is made at a time, in seconds since the start of 1970. It belongs to user and group 0.
pub fn inode_made(now: u64, mode: u32, size: u64, nbytes: u64, flags: u64) -> Inode
    requires { now < 2 ^ 63 }
    ensures { result ≡ inode_made now mode size nbytes flags }
{
    let time = stamp_of(now);
    Inode {
        size,
        nbytes,
        mode,
        flags,
        atime: time,
        ctime: time,
        mtime: time,
        ..new_inode()
    }
}
