// Laws of the definitions, each the contract of a function that does nothing.
ghost use Rattle.reiser_volume.specs.Bounds.{AcceptedIsSmall};
ghost use Rattle.reiser_volume.specs.Laws.{FrontOfSuperDecides, FrontsAreJudged, ItemsDecideRows, PutBackIsSame, RefusalsBreakRules, RowsAreOne, UsedBlocksDecide};
ghost use Rattle.reiser_volume.specs.Owners.{OwnersAreOne, MapsTellOwned};

/// Where something is refused of a volume, it is not accepted: so an accepted volume is not refused.
pub fn refusals_break_rules()
    ensures { RefusalsBreakRules }
{}

/// Where something is refused of superblock, journal and bitmap, they are not accepted; those of an accepted volume are.
pub fn fronts_are_judged()
    ensures { FrontsAreJudged }
{}

/// An image that has the same in each used block of an accepted volume, and that has room for it, is accepted too: it holds
/// the same volume.
pub fn used_blocks_decide()
    ensures { UsedBlocksDecide }
{}

/// Of block 16 the first 128 bytes are enough for that.
pub fn front_of_super_decides()
    ensures { FrontOfSuperDecides }
{}

/// A volume of which block 16 is half turned is the one that it is when it is put back.
pub fn put_back_is_same()
    ensures { PutBackIsSame }
{}

/// The rows of an accepted volume are one list.
pub fn rows_are_one()
    ensures { RowsAreOne }
{}

/// The rows are decided by the superblock's flag for attributes, by the heads and bodies of the items, and by the blocks of named files
/// below their sizes: not by where the leaves lie.
pub fn items_decide_rows()
    ensures { ItemsDecideRows }
{}

/// A block that the items of a named file name below its size is used, is no node of the tree and none of the volume's own
/// blocks, and belongs to one file block of one file.
pub fn owners_are_one()
    ensures { OwnersAreOne }
{}

/// The map of a named object, as [`crate::Volume::file_map`] gives it, tells exactly the blocks that the object owns.
pub fn maps_tell_owned()
    ensures { MapsTellOwned }
{}

/// What an accepted volume holds is bounded: its objects, its links and the bytes of their names, and the bytes of files that lie
/// in the tree.
pub fn accepted_is_small()
    ensures { AcceptedIsSmall }
{}
