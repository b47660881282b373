/// A block of a file that is made of bytes in the tree.
#[derive(Clone, Copy, Debug, PartialEq, Eq)]
pub struct Tail {
    /// The inode number of the file.
    pub inode: u64,
    /// The number of the block in the file.
    pub at: u64,
}
