use crate::devices::{DEVICES, DeviceNumber, family, is_read_only};
use std::alloc::AllocError;
use std::fs::Files;
use std::os::unix::fs::MetadataExt;
use std::{fs, io};

/// The number of a file, which all its names share: that of its file system, and that of its inode there.
#[derive(Clone, Copy, PartialEq, Eq)]
struct FileNumber {
    system: u64,
    inode: u64,
}

impl FileNumber {
    fn of(status: &fs::Metadata) -> FileNumber {
        FileNumber {
            system: status.dev(),
            inode: status.ino(),
        }
    }
}

/// What stands at a path: a file by its number, and a device with what belongs to it.
#[derive(Drop)]
pub struct FileIdentity {
    file: FileNumber,
    devices: Vec<DeviceNumber>,
}

impl FileIdentity {
    /// Looks at a path. To a block device belong its partitions, and the device that it is a partition of.
    pub fn new<R: Files + AllocGlobal + Clone + Drop>(
        files: &R,
        path: &str,
    ) -> io::Result<FileIdentity> {
        let status = fs::metadata(files, path)?;
        let devices = match DeviceNumber::of(&status) {
            Some(device) => family(files, device)?,
            None => Vec::new(files.alloc()),
        };
        Ok(FileIdentity {
            file: FileNumber::of(&status),
            devices,
        })
    }

    /// Takes a device more as one that belongs to it.
    pub fn add(&mut self, device: DeviceNumber) -> Result<(), AllocError> {
        self.devices.push(device)?;
        Ok(())
    }

    /// The device, and behind it what belongs to it; nothing of a plain file.
    pub fn devices(&self) -> &[DeviceNumber] {
        self.devices.as_slice()
    }

    /// Whether it is a block device that is read-only.
    pub fn is_read_only<R: Files + AllocGlobal>(&self, files: &R) -> io::Result<bool> {
        is_read_only(files, DEVICES, self)
    }

    /// Whether a device is this one, or belongs to it.
    pub fn has(&self, device: DeviceNumber) -> bool {
        self.devices.contains(&device)
    }

    /// Whether a path leads here: to the same file by whatever name, or to one of the devices by whatever node. A path that
    /// cannot be looked at leads to nothing.
    pub fn is_at<R: Files>(&self, files: &R, path: &str) -> bool {
        match fs::metadata(files, path) {
            Ok(status) => match DeviceNumber::of(&status) {
                Some(device) => self.has(device),
                None => self.file == FileNumber::of(&status),
            },
            Err(_) => false,
        }
    }
}
