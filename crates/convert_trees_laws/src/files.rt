ghost use Rattle.convert_trees_laws.specs.Entries.{EntriesAreThere};
ghost use Rattle.convert_trees_laws.specs.Keys.{FileKeysAscend, ImageKeysAscend, ItemsAreShort};
ghost use Rattle.convert_trees_laws.specs.Held.{FilesAreHeld};
ghost use Rattle.convert_trees_laws.specs.Inodes.{InodesAreThere};
ghost use Rattle.convert_trees_laws.specs.Used.{ItemsByUsedBlocks};

/// What is still to come of a stream of the file tree depends on the volume's used blocks alone.
pub fn items_by_used_blocks()
    ensures { ItemsByUsedBlocks }
{}

/// The pieces of an accepted volume hold its files: each block of a file in one piece.
pub fn files_are_held()
    ensures { FilesAreHeld }
{}

/// The keys of the file tree's items ascend.
pub fn file_keys_ascend()
    ensures { FileKeysAscend }
{}

/// The keys of the items of the image's tree ascend, and those of the relocation tree.
pub fn image_keys_ascend()
    ensures { ImageKeysAscend }
{}

/// Each item of these trees fits into a leaf of the smallest node size.
pub fn items_are_short()
    ensures { ItemsAreShort }
{}

/// Each named object has its inode in a tree that has the items of the file tree.
pub fn inodes_are_there()
    ensures { InodesAreThere }
{}

/// The entries that are read of a tree with the items of the file tree are those of the volume's directories.
pub fn entries_are_there()
    ensures { EntriesAreThere }
{}
