ghost use Rattle.std.specs.Prelude.{◌≡◌};
ghost use Rattle.unit_plan.specs.Trees.{new_trees, tree_number};

use btr_tree::btrfs_format::object::{
    CONV_IMAGE_SUBVOL, CSUM_TREE, DATA_RELOC_TREE, DEV_TREE, FS_TREE,
};

/// A tree of a converted volume whose items are known before any node of it is written. The chunk tree, the root tree and the
/// extent tree are none of these: the first has units of its own, and the other two tell of all the others.
#[derive(Clone, Copy, Debug, PartialEq, Eq)]
pub enum NewTree {
    /// The files of the old volume.
    Files,
    /// The image of the old volume.
    SavedImage,
    /// The tree that the kernel moves data by. It has one empty directory.
    Relocation,
    /// The checksums of all data.
    Checksums,
    /// Which ranges of the device the chunks take.
    Devices,
}

impl NewTree {
    /// The number by which the root tree names it.
    pub fn number(self) -> u64
        ensures { result ≡ tree_number self }
    {
        match self {
            NewTree::Files => FS_TREE,
            NewTree::SavedImage => CONV_IMAGE_SUBVOL,
            NewTree::Relocation => DATA_RELOC_TREE,
            NewTree::Checksums => CSUM_TREE,
            NewTree::Devices => DEV_TREE,
        }
    }
}

/// All of these trees, in the order in which they are written and lie.
pub fn new_trees() -> [NewTree; 5]
    ensures { result ≡ new_trees }
{
    [
        NewTree::Files,
        NewTree::SavedImage,
        NewTree::Relocation,
        NewTree::Checksums,
        NewTree::Devices,
    ]
}
