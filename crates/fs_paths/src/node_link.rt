use crate::NodeId;
use fs_rows::{Name, Path};

/// An entry of a directory, which gives an object a name there.
#[derive(Debug, Drop)]
pub struct NodeLink {
    /// The directory.
    pub dir: NodeId,
    /// The object that is named.
    pub target: NodeId,
    /// The name.
    pub name: Name,
}

/// A path from the root, with what a list of paths knows of it.
#[derive(Debug, Drop)]
pub struct PathTo {
    /// The names from the root on.
    pub path: Path,
    /// The object that it leads to.
    pub target: NodeId,
    /// The place in the list, counted from 0, of the first path to the same object, which is the least.
    pub least: usize,
    /// How many paths of the list lead to the object, this one among them.
    pub names: u64,
}
