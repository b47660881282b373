// The file extents of a tree of files, as its items are met.
use crate::use_of_data::Uses;

/// The inode whose item was met last.
#[derive(Clone, Copy, Debug)]
pub struct Owner {
    pub number: u64,
    /// Whether its data has checksums.
    pub sums: bool,
}

/// What the file extents of a tree of files use.
#[derive(Drop)]
pub struct TreeUses {
    /// Whether what the tree has is read: not so in the tree that a balance of data uses.
    pub is_read: bool,
    pub owner: Option<Owner>,
    pub uses: Uses,
}
