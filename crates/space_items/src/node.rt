use btr_tree::{CopyList, Root};

/// A node of a tree.
#[derive(Clone, Copy, Debug, PartialEq, Eq)]
pub struct TreeNode {
    /// Its address, in bytes.
    pub address: u64,
    /// 0 for a leaf.
    pub level: u8,
    /// The number of its tree.
    pub owner: u64,
}

/// Nodes, as a list. Every call that takes one wants them ascending by address.
pub type NodeList = CopyList<TreeNode>;

/// A tree that was written.
#[derive(Clone, Copy, Debug, PartialEq, Eq)]
pub struct TreeRoot {
    /// Its number.
    pub tree: u64,
    /// Where it begins.
    pub root: Root,
}

/// Trees that were written, as a list. Every call that takes one wants them ascending by number.
pub type RootList = CopyList<TreeRoot>;
