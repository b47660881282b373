//! A disk and a sink in memory, whose calls fail where a test says so, and which tell all that was done to them.
//!
//! A test makes a [`MemDisk`], fills it by [`MemDisk::set_block`], and hands it to what it tests as any disk.
//! [`MemDisk::fail_call`] and [`MemDisk::stop_at_write`] say which calls are to fail, and [`MemDisk::after_torn_crash`]
//! gives the disks that a crash may leave, each for a choice of numbers. [`MemDisk::after_crash`] gives those of them
//! with each block whole. [`MemDisk::settle`] stands between two commands on one disk. A [`MemSink`] keeps the text that
//! it took.
//!
//! Every image that a crash may leave comes for some choice; [`every_torn_crash_has_a_choice`] is that law, and
//! [`choice_decides_each_sector`] says which choice gives what.
#![tactic(auto)]

mod crash;
mod disk;
mod laws;
mod schedule;
mod sink;
mod store;

pub use crash::SectorNumbers;
pub use disk::MemDisk;
pub use laws::{
    choice_decides_each_block, choice_decides_each_sector, every_choice_is_a_crash,
    every_crash_has_a_choice, every_torn_choice_is_a_crash, every_torn_crash_has_a_choice,
};
pub use sink::MemSink;
