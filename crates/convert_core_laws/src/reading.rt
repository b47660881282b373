// Laws of the definitions, each the contract of a function that does nothing.
ghost use Rattle.convert_core_laws.specs.reading.Identifiers.{NewIdsFit};
ghost use Rattle.convert_core_laws.specs.reading.Laws.{ChunksMap, ConvertedIsReadable, SuperblockReads, TreesRead};
ghost use Rattle.convert_core_laws.specs.reading.Saved.{SavedImageIsReadable, SavedImageReads};

use convert_trees_laws::{entries_are_there, image_keys_ascend};

/// The identifiers of a converted volume have 16 bytes each.
pub fn new_ids_fit()
    ensures { NewIdsFit }
{}

/// The superblock of a converted volume is read, with the fields that were written, and names no log tree.
pub fn superblock_reads()
    ensures { SuperblockReads }
{}

/// The map of its addresses is that of the plan's chunks, so that each address of a node and of a piece of data means itself.
pub fn chunks_map()
    ensures { ChunksMap }
{}

/// It is opened without a refusal. Each of its trees is found by its root item and is read with its items.
pub fn trees_read()
    ensures { TreesRead }
{}

/// The same of its own superblock and map: its superblock, its chunks and its root tree are readable, and nothing but its names
/// and the extents of its files may be wrong with its file tree.
pub fn converted_is_readable()
    ensures { ConvertedIsReadable }
{}

/// The tree of its saved image has the image of the old volume, and nothing is wrong on the way to it from the tree's root on: each
/// used block has a place that holds its bytes, and any other block is a hole.
pub fn saved_image_reads()
    ensures { SavedImageReads }
{
    image_keys_ascend();
}

/// Where its file tree keeps the rules of names, the saved image is readable, and it is that of the old volume.
pub fn saved_image_is_readable()
    ensures { SavedImageIsReadable }
{
    entries_are_there();
    image_keys_ascend();
}
