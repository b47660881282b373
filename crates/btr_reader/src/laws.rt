// Laws of the definitions, each the contract of a function that does nothing.
ghost use Rattle.btr_reader.specs.Laws.{ArraysReadBack, OpenedMapsAreApart, OpenedMapsAreInBlocks, BtrfsRowsAreOne, ItemsDecideBtrfsRows};

/// The ranges of the map of an opened volume begin and end with blocks, so that the bytes of a block of addresses lie in
/// one block of the device.
pub fn opened_maps_are_in_blocks()
    ensures { OpenedMapsAreInBlocks }
{}

/// Two lists of rows of one volume are equal.
pub fn btrfs_rows_are_one()
    ensures { BtrfsRowsAreOne }
{}

/// Chunks that were written into the bootstrap array of a superblock read as these chunks.
pub fn arrays_read_back()
    ensures { ArraysReadBack }
{}

/// No two ranges of the map of an opened volume have an address in common, so that each address has at most one place.
pub fn opened_maps_are_apart()
    ensures { OpenedMapsAreApart }
{}

/// Keys and bodies of a tree's items decide its rows, with the bytes of the extents.
pub fn items_decide_btrfs_rows()
    ensures { ItemsDecideBtrfsRows }
{}
