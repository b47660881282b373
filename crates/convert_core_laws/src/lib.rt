//! Laws on converted volumes: what such a volume holds, by its definition alone, whoever wrote it.
//!
//! - [`reading`]: it opens as a Btrfs volume, and its trees are read with the items that were written;
//! - [`opening`]: its rows are those of the volume before, which is its saved image; so it is after a crash;
//! - [`soundness`]: it is sound, part by part and as a whole;
//! - [`going_back`]: the volume before can be had back from it;
//! - [`placement`]: data lies where it lay;
//! - the bytes of its files and symlinks are those that the ReiserFS volume had.
//!
//! Each law is the contract of a function that does nothing. A proof that cites one calls it.
#![tactic(auto)]

pub mod going_back;
mod laws;
pub mod opening;
pub mod placement;
pub mod reading;
pub mod soundness;

pub use going_back::{
    converted_volumes_go_back, converted_volumes_lie_apart, saved_images_are_whole,
};
pub use laws::{
    bytes_are_kept, bytes_are_read, chunks_map_pieces, converted_files_are_read,
    extents_keep_rules, pieces_stand,
};
pub use opening::{converted_volumes_open, crashes_leave_volumes};
pub use placement::converted_data_stays;
pub use reading::{
    chunks_map, converted_is_readable, new_ids_fit, saved_image_is_readable, saved_image_reads,
    superblock_reads, trees_read,
};
pub use soundness::{
    converted_block_groups_are_sound, converted_checksums_are_sound, converted_chunks_are_sound,
    converted_file_extents_are_sound, converted_free_space_is_sound, converted_inodes_are_sound,
    converted_names_are_sound, converted_placement_is_sound, converted_references_are_sound,
    converted_reserved_are_sound, converted_totals_are_sound, converted_trees_are_sound,
    converted_volumes_are_recounted, converted_volumes_are_sound,
};
