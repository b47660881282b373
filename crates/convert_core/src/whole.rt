// A look at what was prepared, before anything is written.
ghost use Rattle.std.specs.Prelude.{◌≡◌, ◌≤◌, ◌<◌, ◌↔◌, ◌+◌, ◌^◌, true, All, IsTrue, MatchOption, length};
ghost use Rattle.unit_plan.specs.btr_node.NodeSize.{IsNodeSize};
ghost use Rattle.convert_core.specs.Whole.{IsWhole};
ghost use Rattle.convert_steps.specs.Prepared.{IsPrepared};
ghost use Rattle.reiser_volume.specs.outside.History.{Image};
ghost use Rattle.convert_steps.specs.space_items.Stream.{ArePieces, IsSmallPiece};
ghost use Rattle.unit_plan.specs.convert_options.declared.options.Options.{Options as OptionsOf};
ghost use Rattle.reiser_volume.specs.vol_block.declared.ids.Ids.{Ids as IdsOf};

use convert_steps::Prepared;
use reiser_volume::BlockNo;
use unit_plan::{Piece, PieceList};

/// The most blocks of a volume: 2 TiB.
const MOST_BLOCKS: u64 = 1 << 29;

/// The most units of the chunk tree whose chunks the superblock has room for. No volume needs so many.
const MOST_SYSTEM: u64 = 1 << 14;

/// Whether what was prepared is that of one volume on a device of so many blocks. It is, where each block gives the same
/// at each read.
pub fn is_whole(prepared: &Prepared, device: u64) -> bool
    ensures whole { IsTrue result → IsWhole prepared.now device }
    ensures told { (image : Image) (o : OptionsOf) (ids : IdsOf) → IsNodeSize o.nodesize → length image ≡ device → IsPrepared image o ids prepared.now → result ≡ true }
{
    let blocks = prepared.volume.sup().blocks;
    if blocks <= 16 {
        return false;
    }
    if blocks > MOST_BLOCKS {
        return false;
    }
    if blocks > device {
        return false;
    }
    if prepared.volume.bitmap().len() != blocks {
        return false;
    }
    if prepared.need.system > MOST_SYSTEM {
        return false;
    }
    are_placed(&prepared.pieces, blocks)
}

/// Whether pieces ascend by their places, and lie on a volume of so many blocks.
fn are_placed<P: PieceList>(pieces: &P, blocks: u64) -> bool
    requires { blocks ≤ 2 ^ 29 }
    ensures placed { IsTrue result → ArePieces (P.pieces pieces.now) × All (λ q. q.place + q.count ≤ blocks) (P.pieces pieces.now) }
    ensures told { ArePieces (P.pieces pieces.now) → All (λ q. q.place + q.count ≤ blocks) (P.pieces pieces.now) → result ≡ true }
{
    let mut end = 0;
    for i in 0..pieces.len() {
        let piece = pieces.get(i);
        if piece.place < end || !is_small(piece, blocks) {
            return false;
        }
        end = piece.place + piece.count;
    }
    true
}

/// Whether a piece has a block, lies on a volume of so many blocks, and names a block and a block of a file that there can be.
fn is_small(piece: &Piece, blocks: u64) -> bool
    requires { blocks ≤ 2 ^ 29 }
    ensures placed { IsTrue result → IsSmallPiece piece.now × (piece.now.place + piece.now.count ≤ blocks) }
    ensures told { IsSmallPiece piece.now → piece.now.place + piece.now.count ≤ blocks → result ≡ true }
{
    piece.count >= 1
        && piece.place <= blocks
        && piece.count <= blocks - piece.place
        && is_block(piece.from)
        && is_file_block(piece.owner)
}

/// Whether a block, where there is one, can be one of a volume.
fn is_block(from: Option<BlockNo>) -> bool
    ensures { IsTrue result ↔ MatchOption from (Unit {0}) (λ b. b < 2 ^ 29) }
{
    match from {
        None => true,
        Some(block) => block < MOST_BLOCKS,
    }
}

/// Whether a block of a file, where there is one, can be one.
fn is_file_block(owner: Option<(u64, u64)>) -> bool
    ensures { IsTrue result ↔ MatchOption owner (Unit {0}) (λ o. o.1 < 2 ^ 32) }
{
    match owner {
        None => true,
        Some((_, at)) => at < 1 << 32,
    }
}
