use crate::{BtrRule, Feature, Rule};
use outside::BlockNo;
use thiserror::Error;

/// Why a ReiserFS volume is refused. The numbers are those of the first thing that was found wrong.
#[derive(Clone, Copy, Debug, PartialEq, Eq, Error)]
pub enum VolumeRefusal {
    /// Block 16 is no superblock, or is not there.
    #[error("no volume")]
    NotVolume,
    /// The volume was not unmounted: the superblock's state is not 1.
    #[error("not unmounted: state {state}")]
    Unclean { state: u16 },
    /// The volume needs what is not supported.
    #[error("unsupported: {feature:?} {value}")]
    Unsupported { feature: Feature, value: u64 },
    /// The device is shorter than the volume; both lengths in blocks.
    #[error("{volume} blocks on a device of {device}")]
    Short { volume: u64, device: u64 },
    /// The journal holds a transaction that waits.
    #[error("journal of transaction {trans}")]
    JournalPending { trans: u32 },
    /// A rule of the format is broken at this block.
    #[error("damaged at block {block}: {rule:?}")]
    Damaged { block: BlockNo, rule: Rule },
    /// There are extended attributes: the private directory, or the entry in it.
    #[error("attributes in {dir} {object}")]
    HasAttributes { dir: u32, object: u32 },
    /// A file was deleted or cut short and not yet cleaned up.
    #[error("pending link of {object}")]
    PendingLinks { object: u32 },
    /// The root has a name that the conversion needs for itself.
    #[error("name taken by {dir} {object}")]
    NameTaken { dir: u32, object: u32 },
    /// A name or a symlink's target is too long; its length in bytes.
    #[error("name of {length} bytes of {dir} {object}")]
    NameTooLong { dir: u32, object: u32, length: u64 },
    /// Too many names share one hash.
    #[error("names of hash {hash} in {dir} {object}")]
    HashCrowd { dir: u32, object: u32, hash: u32 },
}

/// Why a Btrfs volume is refused. The numbers are those of the first thing that was found wrong.
#[derive(Clone, Copy, Debug, PartialEq, Eq, Error)]
pub enum BtrRefusal {
    /// A rule of the format is broken at this address, in bytes.
    #[error("bad at {address}: {rule:?}")]
    BadBtrfs { address: u64, rule: BtrRule },
    /// There is a log tree, at this address in bytes: the volume was not unmounted.
    #[error("log tree at {address}")]
    LogPending { address: u64 },
    /// The volume needs what is not supported.
    #[error("unsupported: {feature:?} {value}")]
    Unsupported { feature: Feature, value: u64 },
}
