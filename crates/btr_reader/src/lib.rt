//! Btrfs volumes, read: their chunks, their trees, the rows of the file tree, and the image of the volume before.
#![tactic(auto)]

mod bootstrap;
mod chunk;
mod chunk_tree;
mod entries;
mod file_notes;
mod gather;
mod gathered;
mod image;
mod image_map;
mod image_place;
mod inodes;
mod laws;
mod listing;
mod mapped_extent;
mod metadata_laws;
mod note_file;
mod open;
mod placed;
mod refusal;
mod roots;
mod row;
mod rows;
mod trees;
mod volume;

pub use bootstrap::array_chunks;
pub use btr_reader_contents;
pub use btr_reader_names;
pub use btr_reader_walk;
pub use btr_space_items;
pub use btr_space_items::btrfs_format;
pub use btr_super;
pub use chunk::{ChunkAt, is_among, is_chunk_key};
pub use entries::find_entry;
pub use fs_paths::{fs_rows, vol_block};
pub use image_map::ImageMap;
pub use laws::{
    arrays_read_back, btrfs_rows_are_one, items_decide_btrfs_rows, opened_maps_are_apart,
    opened_maps_are_in_blocks,
};
pub use mapped_extent::MappedExtent;
pub use metadata_laws::{metadata_decides, reserved_blocks_are_spare, same_parts_decide};
pub use refusal::refused;
pub use roots::{RootFound, RootItems};
pub use volume::Btrfs;
