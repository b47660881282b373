// What Linux keeps of devices and files in its memory.
use std::fs::{File, Files, OpenOptions};
use std::io;
use std::io::Write;

/// Where Linux is told to drop what it keeps of devices and files.
pub const CACHES: &str = "/proc/sys/vm/drop_caches";

/// What is written there, so that it drops what it keeps of them, and not what else it keeps.
const OF_FILES: &[u8] = b"1";

/// Has Linux drop what it keeps in its memory of all devices and files, but what still waits to be written, or is in use, so that a read gives what
/// lies on the device. `caches` is the file where Linux is told so. It takes root.
pub fn drop_caches<R: Files<File = File>>(files: &R, caches: &str) -> io::Result<()> {
    let mut file = OpenOptions::new().write(true).open(files, caches)?;
    file.write_all(OF_FILES)
}
