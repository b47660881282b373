// Volumes that are refused before anything is written, and one whose disk fails.
use outside_mem::MemDisk;
use std::alloc::Global;
use std::test::*;
use volume_app_test_kit::End::{Done, Faulty, Refused};
use volume_app_test_kit::{Broken, Step, Volume, follow, move_image, remove_image};

/// What is done to a volume before.
#[derive(Clone, Copy)]
enum Made {
    Nothing,
    Converted,
    /// It is converted, and the entry of the saved image taken out.
    WithoutImage,
    /// It is converted, and blocks of the saved image moved.
    WithImageMoved,
}

/// A volume, what is done to it before, and the lines that are run then.
#[derive(Clone, Copy)]
struct Case(Volume, Made, &'static [Step]);

impl Made {
    fn disk(self, alloc: Global, volume: Volume) -> Result<MemDisk, Broken> {
        match self {
            Made::Nothing => volume.disk(alloc),
            Made::Converted => volume.converted(alloc),
            Made::WithoutImage => {
                let mut disk = volume.converted(alloc)?;
                remove_image(alloc, &mut disk)?;
                Ok(disk)
            }
            Made::WithImageMoved => {
                let mut disk = volume.converted(alloc)?;
                move_image(alloc, &mut disk)?;
                Ok(disk)
            }
        }
    }
}

const EMPTY: Volume = Volume::Made(0, 12288);

const FULL: &[Step] = &[Step("convert x", Refused(6, "refused 15 space 4 3 1 3\n"))];

const CASES: [Case; 10] = [
    // Four free units are needed: 9,472 blocks have them, and a block less does not, since the last unit is then not whole.
    Case(
        Volume::Made(0, 9472),
        Made::Nothing,
        &[Step(
            "convert x",
            Done("converted to btrfs\npieces 257\nblocks 8212\ncopied 256\ntails 0\nunits 4\n"),
        )],
    ),
    Case(Volume::Made(0, 9471), Made::Nothing, FULL),
    Case(Volume::Made(0, 9216), Made::Nothing, FULL),
    // A file points to a block without use, and to the root of the tree.
    Case(
        Volume::OneFile(9000),
        Made::Nothing,
        &[
            Step("inspect x", Refused(1, "refused 6 damaged 9000 6\n")),
            Step("convert x", Refused(1, "refused 6 damaged 9000 6\n")),
        ],
    ),
    Case(
        Volume::OneFile(51),
        Made::Nothing,
        &[
            Step("inspect x", Refused(1, "refused 6 damaged 51 8\n")),
            Step("convert x", Refused(1, "refused 6 damaged 51 8\n")),
        ],
    ),
    // Each way is for one format.
    Case(
        EMPTY,
        Made::Nothing,
        &[Step("rollback x", Refused(1, "refused 16 format\n"))],
    ),
    Case(
        EMPTY,
        Made::Converted,
        &[Step("convert x", Refused(1, "refused 16 format\n"))],
    ),
    // A volume without its image is not rolled back, nor one whose image has moved.
    Case(
        EMPTY,
        Made::WithoutImage,
        &[Step("rollback x", Refused(1, "refused 17 noimage\n"))],
    ),
    Case(
        EMPTY,
        Made::WithImageMoved,
        &[Step("rollback x", Refused(1, "refused 18 moved 8000\n"))],
    ),
    // A read that fails ends a list.
    Case(EMPTY, Made::Nothing, &[Step("list x", Faulty(5))]),
];

impl Case {
    fn check(&self, alloc: Global) -> Result<(), Broken> {
        let mut disk = self.1.disk(alloc, self.0)?;
        follow(alloc, &mut disk, self.2)
    }
}

#[test]
fn volumes_are_refused(rt: HostRuntime) -> Result<(), Broken> {
    for case in &CASES {
        case.check(rt.alloc())?;
    }
    Ok(())
}
