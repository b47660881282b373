// Block devices, and what belongs to one, as Linux tells it in `/sys/dev/block`.
use crate::file_identity::FileIdentity;
use std::alloc::{AllocError, Global};
use std::fs::Files;
use std::io::ErrorKind;
use std::os::unix::fs::{FileTypeExt, MetadataExt};
use std::{fs, io, str};

/// Where Linux has a folder for each block device, by its number.
pub const DEVICES: &str = "/sys/dev/block";

/// The number of a device.
#[derive(Clone, Copy, Debug, PartialEq, Eq)]
pub struct DeviceNumber {
    pub major: u64,
    pub minor: u64,
}

impl DeviceNumber {
    /// Reads a major and a minor number with a colon between them.
    pub fn read(text: &[u8]) -> Option<DeviceNumber> {
        let (major, minor) = str::from_utf8(text).ok()?.split_once(':')?;
        Some(DeviceNumber {
            major: major.parse().ok()?,
            minor: minor.parse().ok()?,
        })
    }

    /// The number of a file, if that is a block device.
    pub fn of(status: &fs::Metadata) -> Option<DeviceNumber> {
        if status.file_type().is_block_device() {
            Some(DeviceNumber::decoded(status.rdev()))
        } else {
            None
        }
    }

    /// From what Linux writes into a file's status.
    pub fn decoded(rdev: u64) -> DeviceNumber {
        DeviceNumber {
            major: ((rdev >> 32) & 0xffff_f000) | ((rdev >> 8) & 0xfff),
            minor: ((rdev >> 12) & 0xffff_ff00) | (rdev & 0xff),
        }
    }

    /// The folder of the device in that of all devices.
    fn folder(self, alloc: Global, devices: &str) -> Result<String, AllocError> {
        format!(in alloc; "{}/{}:{}", devices, self.major, self.minor)
    }
}

/// The number in the file `dev` of a folder, if there is one.
pub fn number_in<R: Files + AllocGlobal>(
    files: &R,
    folder: &str,
) -> io::Result<Option<DeviceNumber>> {
    let path = format!(in files.alloc(); "{}/dev", folder)?;
    match fs::read_to_string(files, path.as_str()) {
        Ok(text) => Ok(DeviceNumber::read(text.trim_end().as_bytes())),
        Err(e) if e.kind() == ErrorKind::NotFound => Ok(None),
        Err(e) => Err(e),
    }
}

/// Whether the folder is that of a partition.
fn is_partition<R: Files + AllocGlobal>(files: &R, folder: &str) -> io::Result<bool> {
    let path = format!(in files.alloc(); "{}/partition", folder)?;
    Ok(fs::metadata(files, path.as_str()).is_ok())
}

/// A device, its partitions, and the device that it is a partition of. Where the system tells nothing of devices it is the
/// device alone.
pub fn family<R: Files + AllocGlobal + Clone + Drop>(
    files: &R,
    device: DeviceNumber,
) -> io::Result<Vec<DeviceNumber>> {
    let mut all = Vec::new(files.alloc());
    all.push(device)?;
    let folder = device.folder(files.alloc(), DEVICES)?;
    if fs::metadata(files, folder.as_str()).is_err() {
        return Ok(all);
    }
    if is_partition(files, folder.as_str())? {
        let above = format!(in files.alloc(); "{}/..", folder.as_str())?;
        if let Some(whole) = number_in(files, above.as_str())? {
            all.push(whole)?;
        }
    }
    for entry in fs::read_dir(files, folder.as_str())? {
        let entry = entry?;
        let below = format!(in files.alloc(); "{}/{}", folder.as_str(), entry.file_name())?;
        if is_partition(files, below.as_str())? {
            if let Some(part) = number_in(files, below.as_str())? {
                all.push(part)?;
            }
        }
    }
    Ok(all)
}

/// Whether another device lies on one of these: it has entries in the folder `holders`.
pub fn is_held<R: Files + AllocGlobal + Clone + Drop>(
    files: &R,
    devices: &[DeviceNumber],
) -> io::Result<bool> {
    for device in devices {
        let folder = device.folder(files.alloc(), DEVICES)?;
        let holders = format!(in files.alloc(); "{}/holders", folder.as_str())?;
        if fs::metadata(files, holders.as_str()).is_ok() {
            if fs::read_dir(files, holders.as_str())?.next().is_some() {
                return Ok(true);
            }
        }
    }
    Ok(false)
}

/// Whether the system tells of each device of a place. `devices` is the folder of all devices.
pub fn are_told<R: Files + AllocGlobal>(
    files: &R,
    devices: &str,
    place: &FileIdentity,
) -> io::Result<bool> {
    for device in place.devices() {
        let folder = device.folder(files.alloc(), devices)?;
        if fs::metadata(files, folder.as_str()).is_err() {
            return Ok(false);
        }
    }
    Ok(true)
}

/// Whether a place is a block device that is read-only: the file `ro` of its folder tells a number that is not 0. `devices` is the folder of all
/// devices; where there is none, none is known.
pub fn is_read_only<R: Files + AllocGlobal>(
    files: &R,
    devices: &str,
    place: &FileIdentity,
) -> io::Result<bool> {
    let Some(device) = place.devices().first() else {
        return Ok(false);
    };
    let folder = device.folder(files.alloc(), devices)?;
    let path = format!(in files.alloc(); "{}/ro", folder.as_str())?;
    match fs::read_to_string(files, path.as_str()) {
        Ok(text) => Ok(text.trim_end() != "0"),
        Err(e) if e.kind() == ErrorKind::NotFound => Ok(false),
        Err(e) => Err(e),
    }
}
