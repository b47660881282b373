ghost use Rattle.convert_core_laws.specs.opening.Opens.{ConvertedVolumesOpen, CrashesLeaveVolumes};

use crate::{
    bytes_are_kept, converted_files_are_read, converted_is_readable, new_ids_fit,
    saved_image_is_readable, superblock_reads,
};
use btr_reader::btrfs_rows_are_one;
use convert_trees_laws::{names_keep_rules, rows_are_kept};
use reiser_volume::used_blocks_decide;

/// A converted volume opens as a Btrfs volume without a log tree. Its rows are those of the volume before, and its saved image is
/// that volume.
pub fn converted_volumes_open()
    ensures { ConvertedVolumesOpen }
{
    new_ids_fit();
    superblock_reads();
    converted_is_readable();
    saved_image_is_readable();
    names_keep_rules();
    rows_are_kept();
    bytes_are_kept();
    converted_files_are_read();
    btrfs_rows_are_one();
}

/// What a crash leaves of a disk while it is converted is the disk as it was, the volume before, or the converted one: each opens
/// with the rows that were there.
pub fn crashes_leave_volumes()
    ensures { CrashesLeaveVolumes }
{
    used_blocks_decide();
    converted_volumes_open();
}
