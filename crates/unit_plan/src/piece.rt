ghost use Rattle.std.specs.Prelude.{◌≡◌, ◌<◌, List, length, slice_get, Some};
ghost use Rattle.unit_plan.specs.declared.piece.Piece.{Piece as PieceOf};

use reiser_bitmap::BlockNo;

/// Blocks of a volume that become one extent of data.
#[derive(Clone, Copy, Debug, PartialEq, Eq)]
pub struct Piece {
    /// The first block of the volume that it holds; of a tail there is none.
    pub from: Option<BlockNo>,
    /// How many blocks there are.
    pub count: u64,
    /// The number of the inode that it belongs to, and the number of its first block in that file.
    pub owner: Option<(u64, u64)>,
    /// The first block where it lies on the converted volume.
    pub place: BlockNo,
}

/// The pieces of a volume, in a list.
pub trait PieceList {
    /// What the list holds.
    ghost pieces: { Self → List PieceOf };

    /// How many pieces there are.
    fn len(&self) -> usize
        ensures { result ≡ length (pieces self.now) };

    /// Piece number `i`.
    fn get(&self, i: usize) -> &Piece
        requires { i < length (pieces self.now) }
        ensures { slice_get (pieces self.now) i ≡ Some result.now };
}
