use crate::{Name, Path};

/// A point in time.
#[derive(Clone, Copy, Debug, PartialEq, Eq)]
pub struct Time {
    /// Seconds since the start of 1970, UTC.
    pub sec: i64,
    /// Nanoseconds after that second.
    pub nsec: u32,
}

/// What an object is.
#[derive(Clone, Copy, Debug, PartialEq, Eq)]
pub enum Kind {
    /// A directory.
    Directory,
    /// A regular file.
    File,
    /// A symbolic link.
    Symlink,
    /// A character device.
    Character,
    /// A block device.
    Block,
    /// A named pipe.
    Fifo,
    /// A socket.
    Socket,
    /// The root of another tree, on Btrfs alone.
    Subvolume,
}

/// What a tree has at a path. A field that has no meaning for the kind is 0, false or empty.
#[derive(Drop, Debug)]
pub struct Row {
    /// The names from the root on.
    pub path: Path,
    /// What the object is.
    pub kind: Kind,
    /// The permissions, with set-user-id, set-group-id and sticky: the low twelve bits of the mode.
    pub mode: u16,
    /// The user that owns it.
    pub uid: u32,
    /// The group that owns it.
    pub gid: u32,
    /// When it was last read.
    pub atime: Time,
    /// When its bytes last changed.
    pub mtime: Time,
    /// When its fields last changed.
    pub ctime: Time,
    /// Writes are synchronous.
    pub sync: bool,
    /// It can't be changed.
    pub immutable: bool,
    /// It can only be appended to.
    pub append: bool,
    /// Left out of dumps.
    pub nodump: bool,
    /// Its atime is not kept.
    pub noatime: bool,
    /// The major number of a device.
    pub major: u64,
    /// The minor number of a device.
    pub minor: u64,
    /// The least path of the same object; of a directory or subvolume its own path.
    pub least: Path,
    /// How many paths the object has; 0 for a directory.
    pub names: u64,
    /// The number of bytes of a file, or of a symlink's target.
    pub length: u64,
    /// The mark of a file's bytes, as [`crate::Marker`] makes it.
    pub mark: [u8; 32],
    /// The target of a symlink.
    pub target: Name,
}
