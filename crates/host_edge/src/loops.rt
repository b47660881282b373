// Loop devices, which make a block device of a file.
use crate::file_identity::FileIdentity;
use std::fs::Files;
use std::io::ErrorKind;
use std::{fs, io, str};

/// Where Linux lists all block devices. A loop device that has a file tells its path in `loop/backing_file` of its folder.
pub const ALL_DEVICES: &str = "/sys/block";

/// Whether a loop device has what stands at a place as its file. `devices` is the folder of all devices; where there is none,
/// no loop device is known.
pub fn is_behind_a_loop<R: Files + AllocGlobal + Clone + Drop>(
    files: &R,
    devices: &str,
    place: &FileIdentity,
) -> io::Result<bool> {
    if fs::metadata(files, devices).is_err() {
        return Ok(false);
    }
    for entry in fs::read_dir(files, devices)? {
        let entry = entry?;
        let path = format!(in files.alloc();
            "{}/{}/loop/backing_file",
            devices,
            entry.file_name()
        )?;
        match fs::read(files, path.as_str()) {
            Ok(line) => {
                if let Some(file) = file_of(line.as_slice()) {
                    if place.is_at(files, file) {
                        return Ok(true);
                    }
                }
            }
            Err(e) if e.kind() == ErrorKind::NotFound => {}
            Err(e) => return Err(e),
        }
    }
    Ok(false)
}

/// The path in `backing_file`, which ends with a line feed. A path that is no text can't be looked at.
fn file_of(line: &[u8]) -> Option<&str> {
    match line {
        [path @ .., b'\n'] => str::from_utf8(path).ok(),
        _ => str::from_utf8(line).ok(),
    }
}
