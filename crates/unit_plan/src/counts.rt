/// What a conversion counts of a volume.
#[derive(Clone, Copy, Debug, PartialEq, Eq)]
pub struct Counts {
    /// The blocks of the volume.
    pub blocks: u64,
    /// The maximal runs of free units.
    pub runs: u64,
    /// The pieces that the used blocks are divided into, copies and tails among them.
    pub pieces: u64,
    /// The blocks of all pieces.
    pub piece_blocks: u64,
    /// The used blocks that are reserved on Btrfs, and so are copied.
    pub copies: u64,
    /// The blocks that are made of bytes in the tree.
    pub tails: u64,
    /// The files, directories and other objects that have a name, and the root.
    pub objects: u64,
    /// The paths, without the root.
    pub names: u64,
    /// The bytes of the last names of all paths.
    pub letters: u64,
    /// The files and symlinks whose bytes stay in the tree.
    pub inlines: u64,
    /// The bytes of these.
    pub inline_bytes: u64,
}
