//! The edge to the machine: a disk over a file or a device, a sink over a standard stream, and who uses a device.
//!
//! `main` makes a [`FileDisk`] and two [`StdSink`]s and passes them to the rest of the program, which is generic over
//! the traits of `outside`. Both are proved safe and to count each failure; what a file or a stream holds they do not
//! tell, so no contract speaks of it.
//!
//! For a person at a terminal the disk shows on a [`StatusLine`] how far its [`Task`] is, and keeps as a [`Trouble`] why
//! its last call failed; a [`LineSink`] keeps the first bytes that it passes on.
//!
//! [`Use::of`] says what stands in the way of writing to a [`FileIdentity`], as Linux tells it. Each question behind it is a
//! call of its own, and takes the path of the table or of the folder in which Linux answers it: [`is_mounted`],
//! [`is_of_a_volume`], [`is_swap`], [`is_held`] and [`is_behind_a_loop`].
#![tactic(auto)]

mod btrfs;
mod caches;
mod devices;
mod file_disk;
mod file_identity;
mod generation;
mod in_use;
mod line_sink;
mod loops;
mod mounts;
mod opened;
mod signatures;
mod std_sink;
mod streams;
mod told;
mod trouble;

pub use btrfs::is_of_a_volume;
pub use caches::drop_caches;
pub use devices::{DeviceNumber, is_held, is_read_only};
pub use file_disk::FileDisk;
pub use file_identity::FileIdentity;
pub use generation::{csum_type_at, generation_at};
pub use host_edge_progress::{StatusLine, Task};
pub use in_use::{Use, is_told};
pub use line_sink::LineSink;
pub use loops::is_behind_a_loop;
pub use mounts::{Mount, is_mounted, is_mounted_for_any, is_swap};
pub use outside::{Ids, Sink};
pub use signatures::Signature;
pub use std_sink::StdSink;
pub use streams::hold_streams;
pub use trouble::{Cause, DiskCall, Trouble};
