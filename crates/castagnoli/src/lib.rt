//! CRC-32C, the checksum of Btrfs, and the three hashes that Btrfs makes of it.
//!
//! A caller takes [`crc32c`] of the bytes that a checksum covers, [`name_hash`] for the key of a directory's entry,
//! [`extref_hash`] for that of an extended inode reference, and [`data_ref_hash`] for the order of the references to
//! a data extent. [`raw_crc`] is what they are made of. Nothing here allocates or fails.
#![tactic(auto)]

mod hashes;
mod register;
mod table;
mod wide;

pub use hashes::{crc32c, data_ref_hash, extref_hash, name_hash};
pub use register::raw_crc;
