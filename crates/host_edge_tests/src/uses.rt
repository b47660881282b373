// What is asked about the use of a file, of folders like those in which Linux tells of it.
use crate::folder::{Entry, Folder};
use host_edge::{
    FileIdentity, is_behind_a_loop, is_mounted, is_mounted_for_any, is_of_a_volume, is_read_only,
    is_swap, is_told,
};
use std::io;

/// What is asked about a file.
#[derive(Clone, Copy)]
pub enum Asked {
    /// Whether a table of mounts has it.
    Mounted,
    /// Whether a table of swap space has it.
    Swap,
    /// Whether a loop device of a folder has it.
    Loop,
    /// Whether one of the processes of a folder sees it mounted.
    MountedForAny,
    /// Whether it is one of the mounted volumes of a folder.
    OfAVolume,
    /// Whether it is read-only by a folder of devices.
    ReadOnly,
    /// Whether a folder of processes and this folder of devices tell of it.
    Told(&'static str),
}

/// What is done in a folder, or asked.
#[derive(Clone, Copy)]
pub enum Step {
    Makes(&'static [(&'static str, Entry)]),
    /// What is asked, of which file or folder, about which file on the devices 8:n of these n, and the answer.
    Asks(Asked, &'static str, &'static str, &'static [u64], bool),
}

/// Takes these steps in a new folder, up to the first one with another answer, and gives its number; else how many there are.
pub fn right_steps(rt: &HostRuntime, word: &str, steps: &[Step]) -> io::Result<usize> {
    let folder = Folder::new(rt, word)?;
    for (n, step) in steps.iter().enumerate() {
        if !is_right(rt, &folder, *step)? {
            return Ok(n);
        }
    }
    folder.remove(rt)?;
    Ok(steps.len())
}

/// Takes a step, and says whether what it asks has that answer.
fn is_right(rt: &HostRuntime, folder: &Folder, step: Step) -> io::Result<bool> {
    match step {
        Step::Makes(entries) => {
            folder.fill(rt, entries)?;
            Ok(true)
        }
        Step::Asks(asked, of, about, minors, wanted) => {
            let found = answer(rt, folder, asked, of, about, minors)?;
            Ok(found == wanted)
        }
    }
}

fn answer(
    rt: &HostRuntime,
    folder: &Folder,
    asked: Asked,
    of: &str,
    about: &str,
    minors: &[u64],
) -> io::Result<bool> {
    let place = folder.identity(rt, about, minors)?;
    let path = folder.path(rt, of)?;
    match asked {
        Asked::Told(devices) => {
            let devices = folder.path(rt, devices)?;
            is_told(rt, path.as_str(), devices.as_str(), &place)
        }
        _ => of_path(rt, asked, path.as_str(), &place),
    }
}

fn of_path(rt: &HostRuntime, asked: Asked, path: &str, place: &FileIdentity) -> io::Result<bool> {
    match asked {
        Asked::Mounted => is_mounted(rt, path, place),
        Asked::Swap => is_swap(rt, path, place),
        Asked::Loop => is_behind_a_loop(rt, path, place),
        Asked::MountedForAny => is_mounted_for_any(rt, path, place),
        Asked::OfAVolume => is_of_a_volume(rt, path, place),
        Asked::ReadOnly => is_read_only(rt, path, place),
        Asked::Told(devices) => is_told(rt, path, devices, place),
    }
}
