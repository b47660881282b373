// Converted volumes whose files have compressed extents, such as were only laid out, or extents that reach into a reserved block.
use outside_mem::MemDisk;
use std::alloc::Global;
use std::test::*;
use volume_app_test_kit::Encoding::{Compressed, Elsewhere, LaidOut};
use volume_app_test_kit::End::Refused;
use volume_app_test_kit::{Broken, Encoding, Old, Step, Volume, done, encode, follow};

/// A volume, the changes of the extents of the converted one, one behind the other, and lines that are run then.
#[derive(Clone, Copy)]
struct Case(Volume, &'static [(u8, Encoding)], &'static [Step]);

const TEN: Volume = Volume::Made(10, 12288);

const COMPRESSED: &[Step] = &[Step("list x", Refused(1, "refused 3 unsupported 17 3\n"))];

/// Those that a rollback brings back.
const BACK: [Case; 5] = [
    Case(TEN, &[(0, Compressed)], COMPRESSED),
    Case(TEN, &[(1, Compressed)], COMPRESSED),
    Case(TEN, &[(1, LaidOut)], &[]),
    Case(TEN, &[(1, LaidOut), (0, Compressed)], COMPRESSED),
    // A disk extent of two blocks is in use in both, though the file has the second one alone.
    Case(Volume::FileBehindCopy, &[(1, Elsewhere(16400))], &[]),
];

/// Those whose extent reaches into a reserved block.
const RESERVED: [Case; 2] = [
    Case(
        Volume::FileBehindCopy,
        &[(1, Elsewhere(16399))],
        &[Step("rollback x", Refused(1, "refused 20 reserved 16399\n"))],
    ),
    Case(
        Volume::FileBehindCopy,
        &[(1, Elsewhere(16383))],
        &[Step("rollback x", Refused(1, "refused 20 reserved 16384\n"))],
    ),
];

impl Case {
    /// What the lines leave of the converted volume with its extents changed.
    fn followed(&self, alloc: Global, old: &Old) -> Result<MemDisk, Broken> {
        let mut disk = old.converted()?;
        for (kind, encoding) in self.1 {
            encode(alloc, &mut disk, *kind, *encoding)?;
        }
        follow(alloc, &mut disk, self.2)?;
        Ok(disk)
    }

    /// Sees that the volume goes back behind the lines.
    fn goes_back(&self, alloc: Global) -> Result<(), Broken> {
        let old = self.0.old(alloc)?;
        let mut disk = self.followed(alloc, &old)?;
        done(alloc, "rollback x", &mut disk)?;
        old.is_back(&mut disk)?;
        old.has_rows(&mut disk)
    }

    /// Sees that the lines end so.
    fn is_refused(&self, alloc: Global) -> Result<(), Broken> {
        let old = self.0.old(alloc)?;
        let _disk = self.followed(alloc, &old)?;
        Ok(())
    }
}

#[test]
fn extents_of_other_encodings_are_in_no_ones_way(rt: HostRuntime) -> Result<(), Broken> {
    for case in &BACK {
        case.goes_back(rt.alloc())?;
    }
    Ok(())
}

#[test]
fn an_extent_holds_all_of_its_blocks(rt: HostRuntime) -> Result<(), Broken> {
    for case in &RESERVED {
        case.is_refused(rt.alloc())?;
    }
    Ok(())
}
