/// What is known of the node that begins at a block.
#[derive(Clone, Copy, Debug, PartialEq, Eq)]
pub enum NodeState {
    /// None was met that begins there.
    Unmet,
    /// One was met.
    Met {
        /// Its level.
        level: u8,
        /// Whether it was met in the tree of its owner, or need not be.
        owned: bool,
    },
}

/// A range of blocks that may hold nodes, and where their states stand.
#[derive(Clone, Copy, Debug)]
pub struct NodeRange {
    /// The first block: an address by 4096.
    pub first: u64,
    /// How many blocks it has.
    pub count: u64,
    /// Where the state of the first block stands among all.
    pub slot: usize,
}
