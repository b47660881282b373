ghost use Rattle.std.specs.Prelude.{◌≡◌, ◌≤◌, true};

use crate::ExtentMarker;
use crate::wanted::Wanted;

/// A file or symlink whose extents are given.
#[derive(Drop)]
pub struct Hand {
    /// The number of its inode.
    pub ino: u64,
    pub wanted: Wanted,
    pub(crate) marker: ExtentMarker,
    ghost short: { wanted.link ≡ true → marker.file.size ≤ 4096 },
}
