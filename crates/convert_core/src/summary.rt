ghost use Rattle.std.specs.Prelude.{◌≡◌};
ghost use Rattle.unit_plan.specs.Choice.{IsSmallNeed};
ghost use Rattle.convert_core.specs.Surveyed.{summary_by};

use unit_plan::{Counts, Need};

/// What a conversion did.
#[derive(Clone, Copy, Debug, PartialEq, Eq)]
pub struct ConvertSummary {
    /// The extents of data: kept pieces, copies and tails.
    pub pieces: u64,
    /// Their blocks.
    pub blocks: u64,
    /// Reserved blocks that were copied.
    pub copied: u64,
    /// Blocks of files that lay in direct items, and now have blocks of their own.
    pub tails: u64,
    /// The units of 1 MiB that were taken.
    pub units: u64,
}

/// The summary of a conversion with these counts, which needed this space.
pub fn summary_of(counts: &Counts, need: &Need) -> ConvertSummary
    requires { IsSmallNeed need.now }
    ensures { result ≡ summary_by counts.now need.now }
{
    ConvertSummary {
        pieces: counts.pieces,
        blocks: counts.piece_blocks,
        copied: counts.copies,
        tails: counts.tails,
        units: need.total(),
    }
}
