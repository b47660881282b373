//! A ReiserFS volume: the definitions of an accepted volume, of its refusals and its rows.
//!
//! [`Volume::open`] opens a volume that keeps all rules, and [`Volume::rows`] makes its rows. What is known of it without
//! further reads is told by the places of its objects; [`Volume::file_map`] and [`Volume::tail`] read one file.
#![tactic(auto)]

mod content;
mod files;
mod front;
mod gather;
mod inode_numbers;
mod laws;
mod links;
mod marks;
mod open;
mod row;
mod rows;
mod telling;
mod volume;
mod ways;

pub use front::Front;
pub use fs_rows;
pub use inode_numbers::InodeNumbers;
pub use laws::{
    accepted_is_small, front_of_super_decides, fronts_are_judged, items_decide_rows,
    maps_tell_owned, owners_are_one, put_back_is_same, refusals_break_rules, rows_are_one,
    used_blocks_decide,
};
pub use links::Link;
pub use reiser_bitmap::{
    Access, Block, BlockNo, BlockSource, BtrAnswer, Cached, Disk, Fault, Format, Ids, Memory, Room,
    Rule, Sink, VolAnswer, VolumeRefusal, format_of,
};
pub use reiser_super;
pub use reiser_super::reiserfs_format;
pub use reiser_volume_names::{extref_hash, name_hash};
pub use super_turn::vol_block;
pub use volume::Volume;
