// The copy of block 16 among the pieces.
ghost use Rattle.std.specs.Prelude.{◌≡◌};
ghost use Rattle.convert_core.specs.Copied.{begins_with_super, copy_in};

use btr_tree_writer::btrfs_format::block::SUPER_BLOCK;
use reiser_volume::BlockNo;
use unit_plan::{Piece, PieceList};

/// Where the piece lies that holds block 16; without one block 16 itself.
pub fn superblock_copy<P: PieceList>(pieces: &P) -> BlockNo
    ensures { result ≡ copy_in (P.pieces pieces.now) }
{
    for i in 0..pieces.len() {
        let piece = pieces.get(i);
        if begins_with_super(piece) {
            return piece.place;
        }
    }
    SUPER_BLOCK
}

/// Whether the first block that a piece holds is that of the superblock.
fn begins_with_super(piece: &Piece) -> bool
    ensures { result ≡ begins_with_super piece.now.from }
{
    match piece.from {
        None => false,
        Some(from) => from == SUPER_BLOCK,
    }
}
