ghost use Rattle.std.specs.Prelude.{◌≢◌, ◌<◌, ◌^◌, ℕ, Some};
ghost use Rattle.btr_reader_walk.specs.refusals.declared.refusal.BtrRefusal.TheVariants.{LogPending};
ghost use Rattle.btr_reader.specs.Pieces.{AreGatheredInOrder};

use crate::gathered::Gathered;
use btr_reader_names::InodeFound;
use btr_reader_walk::{BtrRefusal, MapRange};

/// What is noted of a file of a tree: its inode item, and its extents up to one with which something is wrong.
#[derive(Drop)]
pub struct FileNotes<'a> {
    pub ranges: &'a [MapRange],
    /// The number of its inode.
    pub number: u64,
    /// Its inode item; of several the first one.
    pub item: Option<InodeFound>,
    pub gathered: Gathered,
    /// What is wrong with the extent behind those that were gathered.
    pub refusal: Option<BtrRefusal>,
    ghost few: { gathered.reach.covered < 2 ^ 59 },
    ghost order: { AreGatheredInOrder gathered },
    ghost known: { (address : ℕ) → refusal ≢ Some (LogPending address) },
}
