ghost use Rattle.std.specs.Prelude.{◌≤◌};

/// What is known of the extents of an inode that were met.
#[derive(Clone, Copy, Debug)]
pub struct ExtentRun {
    /// Where the last one ends in the file, in bytes.
    pub end: u64,
    /// Up to where they stand for all bytes from the begin on.
    pub whole: u64,
    /// The bytes that they add to the inode's count.
    pub nbytes: u64,
    ghost within: { (whole ≤ end) × (nbytes ≤ end) },
}
