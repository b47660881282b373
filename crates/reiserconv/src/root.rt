use std::fs;
use std::fs::Files;
use std::os::unix::fs::MetadataExt;

/// Whether the program runs as root: its own folder in `/proc` belongs to the user that it runs as. Where nobody can tell it does not.
pub fn is_root<R: Files>(files: &R) -> bool {
    match fs::metadata(files, "/proc/self") {
        Ok(status) => status.uid() == 0,
        Err(_) => false,
    }
}
