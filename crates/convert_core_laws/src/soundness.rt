// Laws of the definitions, each the contract of a function that does nothing.
ghost use Rattle.convert_core_laws.specs.soundness.Laws.{
  ConvertedBlockGroupsAreSound,
  ConvertedChecksumsAreSound,
  ConvertedChunksAreSound,
  ConvertedFileExtentsAreSound,
  ConvertedFreeSpaceIsSound,
  ConvertedInodesAreSound,
  ConvertedNamesAreSound,
  ConvertedPlacementIsSound,
  ConvertedReferencesAreSound,
  ConvertedReservedAreSound,
  ConvertedTotalsAreSound,
  ConvertedTreesAreSound,
  ConvertedVolumesAreRecounted,
  ConvertedVolumesAreSound,
};

use crate::new_ids_fit;
use convert_trees_laws::{files_are_held, image_keys_ascend, inodes_are_there};

/// A converted volume can be opened, and its recount has the trees and the chunks that were written.
pub fn converted_volumes_are_recounted()
    ensures { ConvertedVolumesAreRecounted }
{
    new_ids_fit();
}

/// The root items, the nodes, the superblock and the bootstrap array of a converted volume keep the rules of Linux, and its items
/// stand in trees that have such.
pub fn converted_trees_are_sound()
    ensures { ConvertedTreesAreSound }
{
    new_ids_fit();
    files_are_held();
    image_keys_ascend();
    inodes_are_there();
}

/// No two of its nodes and ranges of data overlap, and each lies in one chunk of its kind.
pub fn converted_placement_is_sound()
    ensures { ConvertedPlacementIsSound }
{
    new_ids_fit();
}

/// Its block groups are its chunks, each with the bytes of the nodes and of the data in it.
pub fn converted_block_groups_are_sound()
    ensures { ConvertedBlockGroupsAreSound }
{
    new_ids_fit();
    files_are_held();
}

/// Its chunks overlap neither by their addresses nor on the device, and its device extents are their stripes.
pub fn converted_chunks_are_sound()
    ensures { ConvertedChunksAreSound }
{
    new_ids_fit();
}

/// None of its nodes and none of its data touches a reserved block.
pub fn converted_reserved_are_sound()
    ensures { ConvertedReservedAreSound }
{
    new_ids_fit();
}

/// Its superblock tells the bytes of all extents, and its device those of all chunks.
pub fn converted_totals_are_sound()
    ensures { ConvertedTotalsAreSound }
{
    new_ids_fit();
}

/// Its superblock has no free space tree.
pub fn converted_free_space_is_sound()
    ensures { ConvertedFreeSpaceIsSound }
{}

/// The extent tree of a converted volume tells of each node and of each range of data, with all references to it.
pub fn converted_references_are_sound()
    ensures { ConvertedReferencesAreSound }
{
    new_ids_fit();
    files_are_held();
    image_keys_ascend();
}

/// Exactly the blocks of data whose inode has checksums have one, and each is right.
pub fn converted_checksums_are_sound()
    ensures { ConvertedChecksumsAreSound }
{
    new_ids_fit();
    files_are_held();
    image_keys_ascend();
    inodes_are_there();
}

/// In each file tree of a converted volume the directory indexes, the dir items and the references of inodes tell the same
/// names, and each inode tells its count of names, its size and the bytes of its extents.
pub fn converted_names_are_sound()
    ensures { ConvertedNamesAreSound }
{
    new_ids_fit();
    files_are_held();
    image_keys_ascend();
    inodes_are_there();
}

/// In each file tree of a converted volume each entry stands in a directory under a name of its own and tells the
/// kind of what it names, and each inode has a known kind, its names, and items that belong to it.
pub fn converted_inodes_are_sound()
    ensures { ConvertedInodesAreSound }
{
    new_ids_fit();
    files_are_held();
    image_keys_ascend();
    inodes_are_there();
}

/// The file extents of a converted volume lie apart in their files, on whole blocks, within their ranges on the disk.
pub fn converted_file_extents_are_sound()
    ensures { ConvertedFileExtentsAreSound }
{
    new_ids_fit();
    files_are_held();
    image_keys_ascend();
    inodes_are_there();
}

/// A converted volume is sound: what a recount of its bytes finds agrees with all that it tells of itself.
pub fn converted_volumes_are_sound()
    ensures { ConvertedVolumesAreSound }
{
    converted_volumes_are_recounted();
    converted_trees_are_sound();
    converted_names_are_sound();
    converted_inodes_are_sound();
    converted_file_extents_are_sound();
    converted_references_are_sound();
    converted_placement_is_sound();
    converted_checksums_are_sound();
    converted_block_groups_are_sound();
    converted_chunks_are_sound();
    converted_reserved_are_sound();
    converted_totals_are_sound();
    converted_free_space_is_sound();
}
