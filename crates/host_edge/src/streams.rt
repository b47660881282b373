// The numbers of the standard streams.
use std::fs::{File, Files};
use std::io;
use std::os::fd::{AsRawFd, IntoRawFd};

/// The number of standard error, the last of the three.
const LAST: i32 = 2;

/// Sees to it that each of the standard streams is open, and takes its number where it is not. Else a file that is opened later would get this
/// number, and what is printed would be written into it.
///
/// What takes the number is opened for reading alone, so that a write to the stream fails as it does where the stream is closed. It stays open until
/// the program ends.
pub fn hold_streams<R: Files<File = File>>(files: &R) -> io::Result<()> {
    for _ in 0..=LAST {
        // the system gives the lowest number that is free
        let file = unwritable(files)?;
        if file.as_raw_fd() > LAST {
            return Ok(());
        }
        let _number = file.into_raw_fd();
    }
    Ok(())
}

/// The null device, opened for reading, or where there is none the root folder.
fn unwritable<R: Files<File = File>>(files: &R) -> io::Result<File> {
    match File::open(files, "/dev/null") {
        Ok(file) => Ok(file),
        Err(_) => File::open(files, "/"),
    }
}
