ghost use Rattle.convert_core_laws.specs.going_back.Back.{ConvertedVolumesGoBack};
ghost use Rattle.convert_core_laws.specs.going_back.Lying.{ConvertedVolumesLieApart, SavedImagesAreWhole};

use crate::{
    chunks_map, converted_is_readable, converted_reserved_are_sound, converted_volumes_open,
    new_ids_fit,
};
use convert_trees_laws::{entries_are_there, names_keep_rules};
use reiser_volume::used_blocks_decide;

/// A converted volume can be turned back: its saved image is the volume before, with each used block at its place but for those in
/// reserved blocks, and none of the reserved blocks is in use.
pub fn converted_volumes_go_back()
    ensures { ConvertedVolumesGoBack }
{
    new_ids_fit();
    chunks_map();
    converted_is_readable();
    entries_are_there();
    names_keep_rules();
    converted_reserved_are_sound();
    converted_volumes_open();
    used_blocks_decide();
}

/// No part of a converted volume lies in a reserved block but its superblock.
pub fn converted_volumes_lie_apart()
    ensures { ConvertedVolumesLieApart }
{
    new_ids_fit();
    chunks_map();
    converted_is_readable();
    entries_are_there();
    names_keep_rules();
    converted_reserved_are_sound();
    converted_volumes_open();
}

/// The saved image of a converted volume has as many blocks as the volume before.
pub fn saved_images_are_whole()
    ensures { SavedImagesAreWhole }
{
    new_ids_fit();
    converted_volumes_open();
}
