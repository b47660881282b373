ghost use Rattle.convert_core_laws.specs.placement.InPlace.{ConvertedDataStays};

use crate::{converted_is_readable, new_ids_fit};
use convert_trees_laws::{files_are_held, names_are_kept};

/// On a converted volume each used block of the volume before holds what it held, but for block 16 and the places of the superblock's
/// copies, and by its extents each file has its blocks where they were, but for reserved ones.
pub fn converted_data_stays()
    ensures { ConvertedDataStays }
{
    new_ids_fit();
    converted_is_readable();
    files_are_held();
    names_are_kept();
}
