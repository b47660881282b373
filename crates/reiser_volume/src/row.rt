ghost use Rattle.std.specs.Prelude.{◌≡◌, ◌<◌, List, ℕ, IfOk, if◌then◌else◌};
ghost use Rattle.fs_rows.specs.Rows.{row_of};
ghost use Rattle.fs_rows.specs.Content.{IsContent};
ghost use Rattle.fs_rows.specs.Kinds.{is_device};
ghost use Rattle.reiser_volume.specs.Made.{row_by};
ghost use Rattle.reiser_volume.specs.Rows.{flag, major_of, minor_of, time_of};

use fs_rows::{Content, Kind, Row, RowPlace, Time};
use reiser_bitmap::Memory;
use reiser_super::reiserfs_format::block::ATTRS_CLEARED;
use reiser_volume_objects::ObjectStat;

/// Bits of the attributes of stat data. The names are those of the kernel: `REISERFS_SYNC_FL` is 8.
const SYNC_BIT: u32 = 3;
/// `REISERFS_IMMUTABLE_FL`, 0x10.
const IMMUTABLE_BIT: u32 = 4;
/// `REISERFS_APPEND_FL`, 0x20.
const APPEND_BIT: u32 = 5;
/// `REISERFS_NODUMP_FL`, 0x40.
const NODUMP_BIT: u32 = 6;
/// `REISERFS_NOATIME_FL`, 0x80.
const NOATIME_BIT: u32 = 7;

/// The stat data of an object, and its kind.
#[derive(Clone, Copy)]
pub struct KnownObject {
    pub stat: ObjectStat,
    pub kind: Kind,
}

/// The row of an object of a volume with these flags in the superblock.
pub fn make_row(spot: RowPlace, flags: u32, known: &KnownObject, content: Content) -> Row
    ensures { (bytes : List ℕ) → IsContent known.now.kind bytes content.length content.mark content.target → result ≡ row_of (row_by flags known.now.stat known.now.kind spot.path spot.least spot.names bytes) }
{
    let fields = known.stat.fields;
    Row {
        path: spot.path,
        kind: known.kind,
        mode: fields.mode % 4096,
        uid: fields.uid,
        gid: fields.gid,
        atime: time_of(fields.atime),
        mtime: time_of(fields.mtime),
        ctime: time_of(fields.ctime),
        sync: flag(flags, &known.stat, SYNC_BIT),
        immutable: !known.kind.is_symlink() && flag(flags, &known.stat, IMMUTABLE_BIT),
        append: !known.kind.is_symlink() && flag(flags, &known.stat, APPEND_BIT),
        nodump: flag(flags, &known.stat, NODUMP_BIT),
        noatime: flag(flags, &known.stat, NOATIME_BIT),
        major: major_of(known.kind, fields.rdev),
        minor: minor_of(known.kind, fields.rdev),
        least: spot.least,
        names: known.kind.told_names(spot.names),
        length: content.length,
        mark: content.mark,
        target: content.target,
    }
}

/// The point in time of these seconds since the start of 1970.
fn time_of(sec: u32) -> Time
    ensures { result ≡ time_of sec }
{
    Time {
        sec: sec as i64,
        nsec: 0,
    }
}

/// Bit `b` of the attributes, which only count where the superblock says that they were cleared at first and the stat data has version 1.
fn flag(flags: u32, stat: &ObjectStat, b: u32) -> bool
    requires { b < 16 }
    ensures { result ≡ flag flags stat.now b }
{
    flags & ATTRS_CLEARED == ATTRS_CLEARED && !stat.old_form && (stat.fields.attrs >> b) & 1 == 1
}

/// The major number of a device.
fn major_of(kind: Kind, rdev: u32) -> u64
    ensures { result ≡ (if is_device kind then major_of rdev else 0) }
{
    if kind.is_device() {
        (rdev / 256 % 4096) as u64
    } else {
        0
    }
}

/// The minor number of a device.
fn minor_of(kind: Kind, rdev: u32) -> u64
    ensures { result ≡ (if is_device kind then minor_of rdev else 0) }
{
    if kind.is_device() {
        (rdev % 256 + 256 * (rdev >> 20)) as u64
    } else {
        0
    }
}

/// What a row of the same object has.
pub fn same_content(row: &Row) -> Result<Content, Memory>
    ensures length { IfOk result (λ content. content.length ≡ row.now.length) }
    ensures mark { IfOk result (λ content. content.mark ≡ row.now.mark) }
    ensures target { IfOk result (λ content. content.target ≡ row.now.target) }
{
    Ok(Content {
        length: row.length,
        mark: row.mark,
        target: row.target.clone()?,
    })
}
