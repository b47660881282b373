ghost use Rattle.std.specs.Prelude.{◌≡◌, ◌≤◌, ◌<◌};
ghost use Rattle.reiser_volume.specs.Rows.{flag};
ghost use Rattle.file_items.specs.Inodes.{if_set, inode_flags, device_number, inode_from};

use btr_item_list::btrfs_format::flag::{
    INODE_APPEND, INODE_IMMUTABLE, INODE_NOATIME, INODE_NODATASUM, INODE_NODUMP, INODE_SYNC,
};
use btr_item_list::{new_inode, stamp_of};
use reiser_volume_objects::ObjectStat;
use reiser_volume_objects::fs_rows::Kind;
use unit_plan::Inode;

/// What an inode has that is not in the stat data of its object.
#[derive(Clone, Copy)]
pub struct Sizes {
    /// Bytes of a file or target; of a directory twice those of its names.
    pub size: u64,
    /// Bytes of its extents.
    pub nbytes: u64,
    /// How many names it has.
    pub nlink: u32,
}

/// The inode of an object of this kind, on a volume with these flags in the superblock. Where data has no checksums, an inode
/// of a file says so.
pub fn inode_from(datasum: bool, flags: u32, stat: &ObjectStat, kind: Kind, sizes: Sizes) -> Inode
    ensures { result ≡ inode_from datasum flags stat.now kind sizes.size sizes.nbytes sizes.nlink }
{
    let fields = stat.fields;
    Inode {
        size: sizes.size,
        nbytes: sizes.nbytes,
        nlink: sizes.nlink,
        uid: fields.uid,
        gid: fields.gid,
        mode: fields.mode as u32,
        rdev: device_number(stat, kind),
        flags: inode_flags(datasum, flags, stat, kind),
        atime: stamp_of(fields.atime as u64),
        ctime: stamp_of(fields.ctime as u64),
        mtime: stamp_of(fields.mtime as u64),
        ..new_inode()
    }
}

/// The number of a device, as Btrfs has it: major · 2^20 + minor. Other objects have none.
fn device_number(stat: &ObjectStat, kind: Kind) -> u64
    ensures { result ≡ device_number stat.now kind }
{
    if kind.is_device() {
        let number = stat.fields.rdev;
        let major = (number / 256 % 4096) as u64;
        let minor = (number % 256 + 256 * (number >> 20)) as u64;
        major * (1 << 20) + minor
    } else {
        0
    }
}

/// The flags of an inode: what the attributes say, and whether data has no checksums.
fn inode_flags(datasum: bool, flags: u32, stat: &ObjectStat, kind: Kind) -> u64
    ensures { result ≡ inode_flags datasum flags stat.now kind }
{
    if_set(kind.is_file() && !datasum, INODE_NODATASUM)
        + (if_set(flag(flags, stat, 3), INODE_SYNC)
            + (if_set(!kind.is_symlink() && flag(flags, stat, 4), INODE_IMMUTABLE)
                + (if_set(!kind.is_symlink() && flag(flags, stat, 5), INODE_APPEND)
                    + (if_set(flag(flags, stat, 6), INODE_NODUMP)
                        + if_set(flag(flags, stat, 7), INODE_NOATIME)))))
}

/// A bit of an inode's flags, if it is set.
fn if_set(test: bool, bit: u64) -> u64
    ensures value { result ≡ if_set test bit }
    ensures small { result ≤ bit }
{
    if test { bit } else { 0 }
}

/// Bit `b` of the attributes, which only count where the superblock's flag 1 is set and the stat data has version 1.
fn flag(flags: u32, stat: &ObjectStat, b: u32) -> bool
    requires { b < 16 }
    ensures { result ≡ flag flags stat.now b }
{
    flags & 1 == 1 && !stat.old_form && (stat.fields.attrs >> b) & 1 == 1
}
