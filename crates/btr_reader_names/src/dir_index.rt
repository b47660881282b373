use btr_reader_walk::Key;
use fs_paths::fs_rows::Name;

/// An entry of a directory.
#[derive(Debug, Drop)]
pub struct DirIndex {
    /// The address of the leaf that it stands in.
    pub leaf: u64,
    /// The inode of the directory.
    pub dir: u64,
    /// The place of the entry in its directory.
    pub index: u64,
    /// The key of what it names: of an inode (kind 1), or of the root of another tree (kind 132).
    pub location: Key,
    /// The name.
    pub name: Name,
}

/// A directory index whose body is off the grammar.
#[derive(Clone, Copy, Debug)]
pub struct OffForm {
    /// The address of the leaf that it stands in.
    pub leaf: u64,
    /// The inode of the directory.
    pub dir: u64,
}
