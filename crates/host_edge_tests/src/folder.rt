use host_edge::{DeviceNumber, FileIdentity};
use std::fs::File;
use std::os::unix::fs::{FileExt, symlink};
use std::path::PathBuf;
use std::{env, fs, io};

/// Bytes, and where they stand in a file.
pub type Bytes = (u64, &'static [u8]);

/// What stands in a folder.
#[derive(Clone, Copy)]
pub enum Entry {
    /// A file of these bytes.
    File(&'static [u8]),
    /// A file that has the path of the folder between these texts.
    Tells(&'static str, &'static str),
    /// A file of so many bytes, zeros but for these.
    Disk(u64, &'static [Bytes]),
    Folder,
    /// A symlink to a file of the folder.
    Symlink(&'static str),
    /// A second name of a file of the folder.
    HardLink(&'static str),
}

/// A folder for the files of a test.
#[derive(Drop)]
pub struct Folder {
    path: String,
}

impl Folder {
    /// A new folder, with this word in its name.
    pub fn new(rt: &HostRuntime, word: &str) -> io::Result<Folder> {
        let path = new_path(rt, word)?;
        fs::create_dir(rt, path.as_str())?;
        let path = whole(rt, path.as_str())?;
        Ok(Folder { path })
    }

    /// A new folder with these files and folders in it.
    pub fn filled(
        rt: &HostRuntime,
        word: &str,
        entries: &[(&'static str, Entry)],
    ) -> io::Result<Folder> {
        let folder = Folder::new(rt, word)?;
        folder.fill(rt, entries)?;
        Ok(folder)
    }

    /// The path of a file in it, or one of its own of no name.
    pub fn path(&self, rt: &HostRuntime, name: &str) -> io::Result<String> {
        Ok(format!(in rt.alloc(); "{}/{}", self.path.as_str(), name)?)
    }

    /// These files and folders in it.
    pub fn fill(&self, rt: &HostRuntime, entries: &[(&'static str, Entry)]) -> io::Result<()> {
        for (name, entry) in entries {
            let path = self.path(rt, *name)?;
            self.make(rt, path.as_str(), *entry)?;
        }
        Ok(())
    }

    /// Makes one of them.
    fn make(&self, rt: &HostRuntime, path: &str, entry: Entry) -> io::Result<()> {
        match entry {
            Entry::File(bytes) => fs::write(rt, path, bytes),
            Entry::Tells(before, behind) => self.tell(rt, path, before, behind),
            Entry::Disk(length, bytes) => make_disk(rt, path, length, bytes),
            Entry::Folder => fs::create_dir(rt, path),
            Entry::Symlink(name) => self.symlink(rt, name, path),
            Entry::HardLink(name) => self.hard_link(rt, name, path),
        }
    }

    fn symlink(&self, rt: &HostRuntime, name: &str, path: &str) -> io::Result<()> {
        let original = self.path(rt, name)?;
        symlink(rt, original.as_str(), path)
    }

    fn hard_link(&self, rt: &HostRuntime, name: &str, path: &str) -> io::Result<()> {
        let original = self.path(rt, name)?;
        fs::hard_link(rt, original.as_str(), path)
    }

    /// Writes its own path between these texts into a file.
    fn tell(&self, rt: &HostRuntime, path: &str, before: &str, behind: &str) -> io::Result<()> {
        let text = format!(in rt.alloc(); "{}{}{}", before, self.path.as_str(), behind)?;
        fs::write(rt, path, text.as_str())
    }

    /// A file in it as one that stands on the devices 8:`minors` too.
    pub fn identity(
        &self,
        rt: &HostRuntime,
        name: &str,
        minors: &[u64],
    ) -> io::Result<FileIdentity> {
        let path = self.path(rt, name)?;
        let mut place = FileIdentity::new(rt, path.as_str())?;
        for minor in minors {
            place.add(DeviceNumber {
                major: 8,
                minor: *minor,
            })?;
        }
        Ok(place)
    }

    /// Removes it with all that is in it.
    pub fn remove(&self, rt: &HostRuntime) -> io::Result<()> {
        fs::remove_dir_all(rt, self.path.as_str())
    }
}

/// The path of a new folder, with this word in its name.
fn new_path(rt: &HostRuntime, word: &str) -> io::Result<PathBuf> {
    let number = std::process::id(rt.process());
    let name = format!(in rt.alloc(); "edge_tests-{}-{}", word, number)?;
    Ok(env::temp_dir(rt)?.join(rt.alloc(), name.as_str())?)
}

/// A path without symlinks.
fn whole(rt: &HostRuntime, path: &str) -> io::Result<String> {
    let path = fs::canonicalize(rt, path)?;
    Ok(String::from_str(rt.alloc(), path.as_str())?)
}

/// A file of so many bytes, zeros but for these.
fn make_disk(rt: &HostRuntime, path: &str, length: u64, bytes: &[Bytes]) -> io::Result<()> {
    let file = File::create(rt, path)?;
    file.set_len(length)?;
    for (at, bytes) in bytes {
        file.write_all_at(*bytes, *at)?;
    }
    Ok(())
}
