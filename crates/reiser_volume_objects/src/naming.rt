use crate::ObjectKey;
use fs_paths::fs_rows::Name;
use reiser_items::BlockNo;

/// A directory's entry that gives an object a name.
#[derive(Debug, Drop)]
pub struct Naming {
    /// The block of the leaf that holds the entry.
    pub leaf: BlockNo,
    /// The directory.
    pub dir: ObjectKey,
    /// The object that is named.
    pub target: ObjectKey,
    /// The name.
    pub name: Name,
}
