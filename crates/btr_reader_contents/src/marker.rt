ghost use Rattle.std.specs.Prelude.{◌<◌, ◌^◌};

use crate::extents::Reach;
use fs_rows::FileBytes;

/// Makes the mark of a file, or gathers the target of a symlink, in one pass over the extents of its inode.
///
/// It holds one block of the file; a hole costs nothing, and nothing past the size is read.
#[derive(Drop)]
pub struct ExtentMarker {
    /// The bytes of the file.
    pub(crate) file: FileBytes,
    /// How far the extents go that were given.
    pub(crate) reach: Reach,
    ghost few: { reach.covered < 2 ^ 59 },
}
