// The volumes of tests by their names.
use crate::broken::Broken;
use crate::choice::Choice;
use crate::home_volume::home;
use crate::old::Old;
use crate::sample::{empty_root, file_behind_copy, fill_map, made, one_file, used_end};
use crate::stop::Stops;
use outside_mem::MemDisk;
use std::alloc::Global;

/// A disk with a volume.
#[derive(Clone, Copy)]
pub enum Volume {
    /// The sample of this number on so many blocks, at most 20,000.
    Made(u32, u64),
    /// A volume of 2,048 blocks with an empty root directory.
    EmptyRoot,
    /// A volume of 2,059 blocks with an empty root directory, and with used blocks at its end.
    UsedEnd,
    /// A volume of 20,000 blocks with a file in block 16384, whose one pointer is this.
    OneFile(u32),
    /// The same volume with the file in block 16400.
    FileBehindCopy,
    /// A volume with a file in block 16384, and with an object-id map in all sectors of its superblock.
    Full,
    /// A home volume of 65,536 blocks.
    Home,
}

/// A volume with a file in block 16384 and a full superblock.
fn full(alloc: Global) -> Result<MemDisk, Broken> {
    let mut disk = one_file(alloc, 16384)?;
    fill_map(&mut disk)?;
    Ok(disk)
}

/// One way from a format to the other.
#[derive(Clone, Copy)]
pub enum Way {
    Convert,
    Rollback,
}

impl Way {
    /// The line that goes this way.
    fn line(self) -> &'static str {
        match self {
            Way::Convert => "convert x",
            Way::Rollback => "rollback x",
        }
    }

    /// A disk on which a volume is to go this way.
    fn base(self, old: &Old) -> Result<MemDisk, Broken> {
        match self {
            Way::Convert => old.copy(),
            Way::Rollback => old.converted(),
        }
    }
}

impl Volume {
    /// The disk, which is flushed and closed.
    pub fn disk(self, alloc: Global) -> Result<MemDisk, Broken> {
        match self {
            Volume::Made(number, blocks) => made(alloc, number, blocks),
            Volume::EmptyRoot => empty_root(alloc),
            Volume::UsedEnd => used_end(alloc),
            Volume::OneFile(pointer) => one_file(alloc, pointer),
            Volume::FileBehindCopy => file_behind_copy(alloc),
            Volume::Full => full(alloc),
            Volume::Home => home(alloc),
        }
    }

    /// The volume, and what has to come back of it.
    pub fn old(self, alloc: Global) -> Result<Old, Broken> {
        Old::new(alloc, self.disk(alloc)?)
    }

    /// What a conversion makes of the volume.
    pub fn converted(self, alloc: Global) -> Result<MemDisk, Broken> {
        self.old(alloc)?.converted()
    }

    /// Stops the conversion of the volume, or the rollback of the converted one, as [`Old::stops`] does.
    pub fn stops(
        self,
        alloc: Global,
        way: Way,
        stops: Stops,
        choices: &[Choice],
    ) -> Result<u64, Broken> {
        let old = self.old(alloc)?;
        let base = way.base(&old)?;
        old.stops(way.line(), &base, stops, choices)
    }

    /// The same as [`Old::torn_ends`].
    pub fn torn_ends(self, alloc: Global, way: Way, seeds: u32) -> Result<u64, Broken> {
        let old = self.old(alloc)?;
        let base = way.base(&old)?;
        old.torn_ends(way.line(), &base, seeds)
    }
}
