use crate::{Signature, Use};
use outside::BlockNo;
use std::io;
use thiserror::Error;

/// What a disk was asked for.
#[derive(Clone, Copy, Debug, PartialEq, Eq, Error)]
pub enum DiskCall {
    #[error("opening it")]
    Open,
    #[error("reading block {0}")]
    Read(BlockNo),
    #[error("writing block {0}")]
    Write(BlockNo),
    #[error("flushing it")]
    Sync,
}

/// Why a disk did not do it.
#[derive(Clone, Copy, Debug, Error)]
pub enum Cause {
    /// A call of the system failed, or moved nothing.
    #[error("{0}")]
    System(#[from] io::Error),
    /// It is a folder, a pipe or a character device.
    #[error("it is neither a plain file nor a block device")]
    Kind,
    /// It is not opened for writing, since it is in use.
    #[error("{0}")]
    InUse(Use),
    /// It is not opened for writing, since it is read-only.
    #[error("it is read-only")]
    ReadOnly,
    /// It is not opened to be overwritten, since something lies there.
    #[error("it holds {0}")]
    Holds(Signature),
    /// No file was opened before.
    #[error("it is not open")]
    Closed,
}

/// A call of a disk that failed, and why.
#[derive(Clone, Copy, Debug, Error)]
#[error("{call}: {cause}")]
pub struct Trouble {
    pub call: DiskCall,
    pub cause: Cause,
}
