ghost use Rattle.std.specs.Prelude.{◌≡◌, ◌≤◌, length};
ghost use Rattle.reiser_items.specs.Stat.{new_stat, old_stat, stat_of};

use reiser_node::{u16_at, u32_at, u64_at};

/// The stat data of an object: the body of a stat item, in either version.
///
/// In version 1, the form of ReiserFS 3.6, it is 44 bytes; in version 0, that of ReiserFS 3.5, it is 32. What a version
/// does not have is 0 here.
#[derive(Clone, Copy, Debug, PartialEq, Eq)]
pub struct StatData {
    /// The kind and the permissions, as `stat` has them.
    pub mode: u16,
    /// Bits of the attributes that `lsattr` shows. 0 in version 0.
    pub attrs: u16,
    /// How many names the object has.
    pub nlink: u32,
    /// The size in bytes.
    pub size: u64,
    /// The owner.
    pub uid: u32,
    /// The owner's group.
    pub gid: u32,
    /// When the contents were last read, in seconds since 1970.
    pub atime: u32,
    /// When the contents were last changed, in seconds since 1970.
    pub mtime: u32,
    /// When the object was last changed, in seconds since 1970.
    pub ctime: u32,
    /// How many units of 512 bytes the object takes. In version 0 the same field as `rdev`.
    pub blocks: u32,
    /// The number of a device; of other objects a generation. In version 0 the same field as `blocks`.
    pub rdev: u32,
    /// Version 0: the first byte of a file that lies in a direct item. 0 in version 1.
    pub first_direct_byte: u32,
}

impl StatData {
    /// The stat data that is the whole body; None exactly where the body's length is not 44 bytes, or 32 where the item
    /// is `old`.
    pub fn read(old: bool, body: &[u8]) -> Option<StatData>
        ensures { result ≡ stat_of old body.now }
    {
        if old {
            if body.len() == 32 {
                Some(old_stat(body))
            } else {
                None
            }
        } else if body.len() == 44 {
            Some(new_stat(body))
        } else {
            None
        }
    }
}

/// The fields of version 1.
fn new_stat(body: &[u8]) -> StatData
    requires { 44 ≤ length body.now }
    ensures { result ≡ new_stat body.now }
{
    StatData {
        mode: u16_at(body, 0),
        attrs: u16_at(body, 2),
        nlink: u32_at(body, 4),
        size: u64_at(body, 8),
        uid: u32_at(body, 16),
        gid: u32_at(body, 20),
        atime: u32_at(body, 24),
        mtime: u32_at(body, 28),
        ctime: u32_at(body, 32),
        blocks: u32_at(body, 36),
        rdev: u32_at(body, 40),
        first_direct_byte: 0,
    }
}

/// The fields of version 0.
fn old_stat(body: &[u8]) -> StatData
    requires { 32 ≤ length body.now }
    ensures { result ≡ old_stat body.now }
{
    StatData {
        mode: u16_at(body, 0),
        attrs: 0,
        nlink: u16_at(body, 2) as u32,
        size: u32_at(body, 8) as u64,
        uid: u16_at(body, 4) as u32,
        gid: u16_at(body, 6) as u32,
        atime: u32_at(body, 12),
        mtime: u32_at(body, 16),
        ctime: u32_at(body, 20),
        blocks: u32_at(body, 24),
        rdev: u32_at(body, 24),
        first_direct_byte: u32_at(body, 28),
    }
}
