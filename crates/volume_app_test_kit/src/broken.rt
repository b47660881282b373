use outside::{Fault, Memory};
use reiser_make::MakeAnswer;
use std::alloc::{AllocError, AllocFailed};
use vol_block::BlockNo;

/// Why a test can't go on, or what it found wrong.
#[derive(Clone, Copy, Debug)]
pub enum Broken {
    /// There was no memory.
    Memory,
    /// A call of the disk failed that was not to fail.
    Fault,
    /// The disk ends before this block.
    Short(BlockNo),
    /// The maker of samples made no volume.
    Sample,
    /// What belongs on a sample volume is too long for its place.
    TooLong,
    /// The leaf of a converted volume that a test changes is not there, or another one than it was.
    Leaf,
    /// A run ended with this status.
    Status(u8),
    /// This command did not end as it had to, with this text.
    Step(&'static str, &'static str),
    /// This line did not do what it had to.
    Line(&'static str),
    /// So many crashes left the volume Btrfs.
    Count(u64),
    /// The rows are not those of the volume before.
    Rows,
    /// This block, which the volume uses, has other bytes than before.
    Changed(BlockNo),
    /// `recover` wrote so many blocks of a volume that had been recovered.
    Again(u64),
}

impl From<Memory> for Broken {
    fn from(_: Memory) -> Self {
        Broken::Memory
    }
}

impl From<AllocError> for Broken {
    fn from(_: AllocError) -> Self {
        Broken::Memory
    }
}

impl<T: Drop> From<AllocFailed<T>> for Broken {
    fn from(_: AllocFailed<T>) -> Self {
        Broken::Memory
    }
}

impl From<Fault> for Broken {
    fn from(_: Fault) -> Self {
        Broken::Fault
    }
}

impl From<MakeAnswer> for Broken {
    fn from(_: MakeAnswer) -> Self {
        Broken::Sample
    }
}
