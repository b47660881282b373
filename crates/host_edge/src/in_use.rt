use crate::btrfs::{MOUNTED_BTRFS, is_of_a_volume};
use crate::devices::{DEVICES, are_told, is_held};
use crate::file_identity::FileIdentity;
use crate::loops::{ALL_DEVICES, is_behind_a_loop};
use crate::mounts::{PROCESSES, SWAPS, are_mounts_told, is_mounted_for_any, is_swap};
use std::fs::Files;
use std::io;
use thiserror::Error;

/// By whom a file or a device is used.
#[derive(Clone, Copy, Debug, PartialEq, Eq, Error)]
pub enum Use {
    /// It is mounted, or one of its partitions, or the device that it is a partition of.
    #[error("it is mounted, or one of its partitions or the disk that it lies on is")]
    Mounted,
    /// It is swapped to, or one of its partitions, or the device that it is a partition of.
    #[error("it is swap space, or one of its partitions or the disk that it lies on is")]
    Swap,
    /// Another device lies on it, or on one of its partitions, or on the device that it is a partition of.
    #[error("another device lies on it, or on one of its partitions or the disk that it lies on")]
    Held,
    /// A loop device has it as its file.
    #[error("a loop device is attached to it")]
    Loop,
    /// Another program holds a lock on it.
    #[error("another program has locked it")]
    Locked,
    /// Nobody can tell, of a block device: the system's tables can't be read.
    #[error("it can't be told whether it is in use, since '/proc' or '/sys' can't be read")]
    Unknown,
}

impl Use {
    /// The use that the system tells of what stands at a place; of several the first of this list. A lock is not looked for. Of a plain file
    /// nothing is told where the system's tables can't be read.
    pub fn of<R: Files + AllocGlobal + Clone + Drop>(
        files: &R,
        place: &FileIdentity,
    ) -> io::Result<Option<Use>> {
        if is_mounted_for_any(files, PROCESSES, place)?
            || is_of_a_volume(files, MOUNTED_BTRFS, place)?
        {
            return Ok(Some(Use::Mounted));
        }
        if is_swap(files, SWAPS, place)? {
            return Ok(Some(Use::Swap));
        }
        if is_held(files, place.devices())? {
            return Ok(Some(Use::Held));
        }
        if is_behind_a_loop(files, ALL_DEVICES, place)? {
            return Ok(Some(Use::Loop));
        }
        if !is_told(files, PROCESSES, DEVICES, place)? {
            return Ok(Some(Use::Unknown));
        }
        Ok(None)
    }
}

/// Whether the system tells who uses what stands at a place: of a block device, where the process that asks can read the table of its mounts in
/// the folder `processes` of all processes, and the folder `devices` of all devices has this one and those that belong to it. Of a plain file it is
/// never asked.
pub fn is_told<R: Files + AllocGlobal>(
    files: &R,
    processes: &str,
    devices: &str,
    place: &FileIdentity,
) -> io::Result<bool> {
    if place.devices().is_empty() {
        return Ok(true);
    }
    Ok(are_mounts_told(files, processes)? && are_told(files, devices, place)?)
}
