// Mounted Btrfs volumes, as Linux lists them in `/sys/fs/btrfs`.
use crate::devices::number_in;
use crate::file_identity::FileIdentity;
use std::fs::Files;
use std::{fs, io};

/// Where Linux has a folder for each Btrfs volume that is mounted, in whatever name space, with its devices.
pub const MOUNTED_BTRFS: &str = "/sys/fs/btrfs";

/// Whether a mounted Btrfs volume has what stands at a place as one of its devices. `volumes` is the folder of these volumes; where
/// there is none, none is known.
pub fn is_of_a_volume<R: Files + AllocGlobal + Clone + Drop>(
    files: &R,
    volumes: &str,
    place: &FileIdentity,
) -> io::Result<bool> {
    if fs::metadata(files, volumes).is_err() {
        return Ok(false);
    }
    for entry in fs::read_dir(files, volumes)? {
        let entry = entry?;
        let devices = format!(in files.alloc(); "{}/{}/devices", volumes, entry.file_name())?;
        if fs::metadata(files, devices.as_str()).is_ok() {
            if is_listed(files, devices.as_str(), place)? {
                return Ok(true);
            }
        }
    }
    Ok(false)
}

/// Whether a folder of devices has one that is of the place.
fn is_listed<R: Files + AllocGlobal + Clone + Drop>(
    files: &R,
    devices: &str,
    place: &FileIdentity,
) -> io::Result<bool> {
    for entry in fs::read_dir(files, devices)? {
        let entry = entry?;
        let folder = format!(in files.alloc(); "{}/{}", devices, entry.file_name())?;
        if let Some(number) = number_in(files, folder.as_str())? {
            if place.has(number) {
                return Ok(true);
            }
        }
    }
    Ok(false)
}
