ghost use Rattle.std.specs.Prelude.{◌≡◌, ◌<◌, ◌/◌, ◌%◌, ◌^◌, List, ℕ, IfOk, if◌then◌else◌};
ghost use Rattle.fs_paths.specs.fs_rows.Rows.{row_of};
ghost use Rattle.fs_paths.specs.fs_rows.Kinds.{is_device};
ghost use Rattle.btr_reader.specs.Made.{row_by};
ghost use Rattle.fs_paths.specs.fs_rows.Content.{IsContent};
ghost use Rattle.btr_reader.specs.Rows.{has_flag, time_of, subvolume_row};

use btr_reader_walk::{Inode, Memory, Stamp};
use fs_paths::fs_rows::{Content, Kind, Name, Path, Row, RowPlace, Time};
use std::alloc::Global;

/// The row of an inode.
pub fn inode_row(spot: RowPlace, own: &Inode, kind: Kind, content: Content) -> Row
    ensures { (bytes : List ℕ) → IsContent kind bytes content.length content.mark content.target → result ≡ row_of (row_by own.now kind spot.path spot.least spot.names bytes) }
{
    Row {
        path: spot.path,
        kind,
        mode: (own.mode % 4096) as u16,
        uid: own.uid,
        gid: own.gid,
        atime: time_of(&own.atime),
        mtime: time_of(&own.mtime),
        ctime: time_of(&own.ctime),
        sync: has_flag(own, 5),
        immutable: !kind.is_symlink() && has_flag(own, 6),
        append: !kind.is_symlink() && has_flag(own, 7),
        nodump: has_flag(own, 8),
        noatime: has_flag(own, 9),
        major: major_of(kind, own.rdev),
        minor: minor_of(kind, own.rdev),
        least: spot.least,
        names: kind.told_names(spot.names),
        length: content.length,
        mark: content.mark,
        target: content.target,
    }
}

/// The row of another tree: its kind and its path alone.
pub fn tree_row(alloc: Global, path: &Path) -> Result<Row, Memory>
    ensures { IfOk result (λ row. row ≡ row_of (subvolume_row path.now)) }
{
    let start = Time { sec: 0, nsec: 0 };
    Ok(Row {
        path: path.clone()?,
        kind: Kind::Subvolume,
        mode: 0,
        uid: 0,
        gid: 0,
        atime: start,
        mtime: start,
        ctime: start,
        sync: false,
        immutable: false,
        append: false,
        nodump: false,
        noatime: false,
        major: 0,
        minor: 0,
        least: path.clone()?,
        names: 0,
        length: 0,
        mark: [0; 32],
        target: Name::new(alloc, b"")?,
    })
}

fn time_of(stamp: &Stamp) -> Time
    ensures { result ≡ time_of stamp.now }
{
    Time {
        sec: stamp.sec,
        nsec: stamp.nsec,
    }
}

/// Bit `b` of the flags of an inode.
fn has_flag(own: &Inode, b: u32) -> bool
    requires { b < 64 }
    ensures { result ≡ has_flag own.now b }
{
    (own.flags >> b) & 1 == 1
}

/// The major number of a device.
fn major_of(kind: Kind, rdev: u64) -> u64
    ensures { result ≡ (if is_device kind then rdev / 2 ^ 20 else 0) }
{
    if kind.is_device() { rdev >> 20 } else { 0 }
}

/// The minor number of a device.
fn minor_of(kind: Kind, rdev: u64) -> u64
    ensures { result ≡ (if is_device kind then rdev % 2 ^ 20 else 0) }
{
    if kind.is_device() {
        rdev % (1 << 20)
    } else {
        0
    }
}
