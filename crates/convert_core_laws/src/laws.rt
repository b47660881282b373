// Laws of the definitions, each the contract of a function that does nothing.
ghost use Rattle.convert_core_laws.specs.Converted.{ConvertedFilesAreRead};
ghost use Rattle.convert_core_laws.specs.Kept.{BytesAreKept, PiecesStand};
ghost use Rattle.convert_core_laws.specs.Mapped.{ChunksMapPieces};
ghost use Rattle.convert_core_laws.specs.Read.{BytesAreRead};
ghost use Rattle.convert_core_laws.specs.Sound.{ExtentsKeepRules};

use convert_trees_laws::{files_are_held, inodes_are_there};

/// Two ways to say that the pieces of a conversion stand on a disk are one.
pub fn pieces_stand()
    ensures { PiecesStand }
{}

/// A tree of the file tree's items, over a disk on which the pieces stand, has for each named file and symlink the bytes
/// that the volume has.
pub fn bytes_are_kept()
    ensures { BytesAreKept }
{
    files_are_held();
}

/// The chunks of a conversion map each address of its pieces, to itself.
pub fn chunks_map_pieces()
    ensures { ChunksMapPieces }
{}

/// In a tree of the file tree's items the extents of each inode keep the rules that a reader of Btrfs asks of extents.
pub fn extents_keep_rules()
    ensures { ExtentsKeepRules }
{
    files_are_held();
}

/// A tree of the file tree's items, over a disk on which the pieces stand, has the inode of each named file and symlink, and
/// up to the size that it says the bytes that the volume has.
pub fn bytes_are_read()
    ensures { BytesAreRead }
{
    bytes_are_kept();
    inodes_are_there();
}

/// Where a conversion stands on a disk, a reader finds each named file and symlink as it was, and no rule of extents broken,
/// by the map of its chunks.
pub fn converted_files_are_read()
    ensures { ConvertedFilesAreRead }
{
    bytes_are_read();
    extents_keep_rules();
    chunks_map_pieces();
}
