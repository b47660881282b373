use btr_tree::{CopyList, Root};
use unit_plan::NewTree;

/// A tree that was written.
#[derive(Clone, Copy, Debug, PartialEq, Eq)]
pub struct PlacedTree {
    pub tree: NewTree,
    /// Where it begins.
    pub root: Root,
}

/// Trees that were written, as a list, in the order of their slots.
pub type PlacedTrees = CopyList<PlacedTree>;
