ghost use Rattle.std.specs.Prelude.{◌≡◌, length, slice_get, Some};

use unit_plan::{Counts, Piece, PieceList};

/// The pieces of a volume, and what was counted of it.
///
/// Kept pieces come first, ascending, then copies in the order of their sources, then tails by inode and block of the file.
/// After [`Pieces::place`] all of them ascend by their places.
#[derive(Drop)]
pub struct Pieces {
    pub(crate) items: Vec<Piece>,
    /// How many are kept.
    pub(crate) kept: usize,
    pub(crate) counts: Counts,
}

impl Pieces {
    /// What was counted of the volume.
    pub fn counts(&self) -> Counts
        ensures { result ≡ self.now.counts }
    {
        self.counts
    }
}

impl PieceList for Pieces {
    ghost pieces = { λ p. p.items.items };

    fn len(&self) -> usize {
        self.items.len()
    }

    fn get(&self, i: usize) -> &Piece {
        &self.items[i]
    }
}
