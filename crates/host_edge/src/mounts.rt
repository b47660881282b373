ghost use Rattle.std.specs.Prelude.{◌≡◌, ◌≤◌, length, OnSome};

use crate::devices::DeviceNumber;
use crate::file_identity::FileIdentity;
use std::alloc::{AllocError, Global};
use std::fs::Files;
use std::io::ErrorKind;
use std::{fs, io};

/// A mount, as a line of a table of mounts tells it (`/proc/PID/mountinfo`). A line is bytes: a path in it may have any.
#[derive(Clone, Copy, Debug)]
pub struct Mount<'a> {
    device: DeviceNumber,
    source: &'a [u8],
}

impl<'a> Mount<'a> {
    /// Reads a line. The third field is the device's number; behind a field that is a dash come the type of the file
    /// system and the source.
    pub fn read(line: &'a [u8]) -> Option<Mount<'a>> {
        let mut fields = line.split(|byte| *byte == b' ');
        let device = DeviceNumber::read(fields.nth(2)?)?;
        let _dash = fields.find(|field| *field == b"-".as_slice())?;
        Some(Mount {
            device,
            source: fields.nth(1)?,
        })
    }

    /// The number of the device that the file system lies on.
    pub fn device(&self) -> DeviceNumber {
        self.device
    }

    /// The source, if it is a path.
    pub fn source(&self, alloc: Global) -> Result<Option<String>, AllocError> {
        path_of(alloc, self.source)
    }
}

/// A path as tables of the system spell it, where it is one and a text: a space, a tab, a line feed and a backslash
/// stand there as `\\` and three octal digits.
fn path_of(alloc: Global, field: &[u8]) -> Result<Option<String>, AllocError> {
    match field {
        [b'/', ..] => Ok(String::from_utf8(unescaped(alloc, field)?).ok()),
        _ => Ok(None),
    }
}

fn unescaped(alloc: Global, text: &[u8]) -> Result<Vec<u8>, AllocError> {
    let mut bytes = Vec::new(alloc);
    let mut rest = text;
    while let [first, after @ ..] = rest {
        match octal(rest) {
            Some(byte) => {
                bytes.push(byte)?;
                rest = &rest[4..];
            }
            None => {
                bytes.push(*first)?;
                rest = after;
            }
        }
    }
    Ok(bytes)
}

/// The byte of an escape at the front of a text.
fn octal(text: &[u8]) -> Option<u8>
    ensures { OnSome result (4 ≤ length text.now) }
{
    match text {
        [b'\\', a @ b'0'..=b'3', b @ b'0'..=b'7', c @ b'0'..=b'7', ..] => {
            Some((a - b'0') * 64 + (b - b'0') * 8 + (c - b'0'))
        }
        _ => None,
    }
}

/// A table of the system; where there is none it is empty.
fn table<R: Files + AllocGlobal>(files: &R, path: &str) -> io::Result<Vec<u8>> {
    match fs::read(files, path) {
        Ok(bytes) => Ok(bytes),
        Err(e) if e.kind() == ErrorKind::NotFound => Ok(Vec::new(files.alloc())),
        Err(e) => Err(e),
    }
}

/// Where Linux has a folder for each process, by its number, with a table of what that process sees mounted. The folder `self` is that of
/// the process that asks.
pub const PROCESSES: &str = "/proc";

/// Where Linux tells what it swaps to.
pub const SWAPS: &str = "/proc/swaps";

/// Whether what stands at a place is mounted, by a table of mounts: by the number of the file system's device, and by the source,
/// since a file system may have a number that is no device's.
pub fn is_mounted<R: Files + AllocGlobal>(
    files: &R,
    mounts: &str,
    place: &FileIdentity,
) -> io::Result<bool> {
    let mounts = table(files, mounts)?;
    names(files, mounts.as_slice(), place)
}

/// Whether what stands at a place is mounted for any process, in whatever name space and behind whatever root: by the tables of mounts of all
/// processes that can be read. `processes` is the folder of all processes; where there is none, none is known.
pub fn is_mounted_for_any<R: Files + AllocGlobal + Clone + Drop>(
    files: &R,
    processes: &str,
    place: &FileIdentity,
) -> io::Result<bool> {
    if fs::metadata(files, processes).is_err() {
        return Ok(false);
    }
    // most processes see the same mounts as the one before
    let mut last = Vec::new(files.alloc());
    for entry in fs::read_dir(files, processes)? {
        let entry = entry?;
        if is_number(entry.file_name()) {
            let mounts = mounts_of(files, processes, entry.file_name())?;
            if mounts.as_slice() != last.as_slice() {
                if names(files, mounts.as_slice(), place)? {
                    return Ok(true);
                }
                last = mounts;
            }
        }
    }
    Ok(false)
}

/// Whether the process that asks can see what is mounted.
pub fn are_mounts_told<R: Files + AllocGlobal>(files: &R, processes: &str) -> io::Result<bool> {
    Ok(!mounts_of(files, processes, "self")?.is_empty())
}

fn is_number(name: &str) -> bool {
    name.bytes().all(|byte| byte.is_ascii_digit())
}

/// The table of mounts of a process. It is empty where it can't be read: where the process is another user's, or has ended meanwhile.
fn mounts_of<R: Files + AllocGlobal>(
    files: &R,
    processes: &str,
    process: &str,
) -> io::Result<Vec<u8>> {
    let path = format!(in files.alloc(); "{}/{}/mountinfo", processes, process)?;
    match fs::read(files, path.as_str()) {
        Ok(bytes) => Ok(bytes),
        Err(e) if is_of_the_process(&e) => Ok(Vec::new(files.alloc())),
        Err(e) => Err(e),
    }
}

/// What Linux calls a process that has ended.
const NO_PROCESS: i32 = 3;

/// Whether an error comes of the process whose file was read, and not of this one, as where memory is short. A process that has ended
/// and waits for its parent has a file that is invalid.
fn is_of_the_process(e: &io::Error) -> bool {
    match e.kind() {
        ErrorKind::NotFound | ErrorKind::PermissionDenied | ErrorKind::InvalidInput => true,
        _ => e.raw_os_error() == Some(NO_PROCESS),
    }
}

/// Whether a table of mounts names what stands at a place.
fn names<R: Files + AllocGlobal>(
    files: &R,
    mounts: &[u8],
    place: &FileIdentity,
) -> io::Result<bool> {
    for line in mounts.split(|byte| *byte == b'\n') {
        if let Some(mount) = Mount::read(line) {
            if place.has(mount.device()) {
                return Ok(true);
            }
            if let Some(source) = mount.source(files.alloc())? {
                if place.is_at(files, source.as_str()) {
                    return Ok(true);
                }
            }
        }
    }
    Ok(false)
}

/// Whether what stands at a place is swapped to, by a table of swap spaces. Its first line has the names of the columns, and each
/// other one begins with a path.
pub fn is_swap<R: Files + AllocGlobal>(
    files: &R,
    swaps: &str,
    place: &FileIdentity,
) -> io::Result<bool> {
    let swaps = table(files, swaps)?;
    for line in swaps.as_slice().split(|byte| *byte == b'\n') {
        let Some(first) = line.split(|byte| *byte == b' ' || *byte == b'\t').next() else {
            continue;
        };
        if let Some(path) = path_of(files.alloc(), first)? {
            if place.is_at(files, path.as_str()) {
                return Ok(true);
            }
        }
    }
    Ok(false)
}
