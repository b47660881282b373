// The pieces of a volume in the orders in which their extents are given.
ghost use Rattle.std.specs.Prelude.{◌≡◌, ◌<◌, filter, is_some, IfOk};
ghost use Rattle.file_items.specs.Extents.{file_block, owner_inode, source_block, by_block};
ghost use Rattle.file_items.specs.Orders.{TellsPieces, AreOwners, AreSources};

use btr_item_list::{Spot, Spots};
use reiser_volume::Memory;
use std::alloc::Global;
use unit_plan::PieceList;

/// The owned pieces under their inodes, those of one inode by their blocks of the file: two words for each.
pub fn by_owner<P: PieceList>(alloc: Global, pieces: &P) -> Result<Spots, Memory>
    ensures { IfOk result (λ spots. AreOwners spots (P.pieces pieces.now)) }
{
    let blocks = Spots::sorted(block_spots(alloc, pieces)?)?;
    Spots::sorted(owner_spots(alloc, pieces, &blocks)?)
}

/// Each owned piece under its block of the file.
fn block_spots<P: PieceList>(alloc: Global, pieces: &P) -> Result<Vec<Spot>, Memory>
    ensures { IfOk result (λ spots. TellsPieces (P.pieces pieces.now) file_block spots.items (filter (λ p. is_some p.owner) (P.pieces pieces.now))) }
{
    let mut spots = Vec::new(alloc);
    for number in 0..pieces.len() {
        if let Some((_, block)) = pieces.get(number).owner {
            spots.push(Spot { of: block, number })?;
        }
    }
    Ok(spots)
}

/// The same pieces under their inodes.
fn owner_spots<P: PieceList>(alloc: Global, pieces: &P, blocks: &Spots) -> Result<Vec<Spot>, Memory>
    requires { TellsPieces (P.pieces pieces.now) file_block blocks.now (by_block (P.pieces pieces.now)) }
    ensures { IfOk result (λ spots. TellsPieces (P.pieces pieces.now) owner_inode spots.items (by_block (P.pieces pieces.now))) }
{
    let mut spots = Vec::new(alloc);
    for i in 0..blocks.len() {
        let number = blocks.get(i).number;
        let (of, _) = pieces.get(number).owner.unwrap_or((0, 0));
        spots.push(Spot { of, number })?;
    }
    Ok(spots)
}

/// The pieces that hold blocks of the volume, under the first of these, ascending: two words for each.
pub fn by_source<P: PieceList>(alloc: Global, pieces: &P) -> Result<Spots, Memory>
    ensures { IfOk result (λ spots. AreSources spots (P.pieces pieces.now)) }
{
    Spots::sorted(source_spots(alloc, pieces)?)
}

/// Each piece that holds blocks of the volume under the first of these.
fn source_spots<P: PieceList>(alloc: Global, pieces: &P) -> Result<Vec<Spot>, Memory>
    ensures { IfOk result (λ spots. TellsPieces (P.pieces pieces.now) source_block spots.items (filter (λ p. is_some p.from) (P.pieces pieces.now))) }
{
    let mut spots = Vec::new(alloc);
    for number in 0..pieces.len() {
        if let Some(block) = pieces.get(number).from {
            spots.push(Spot { of: block, number })?;
        }
    }
    Ok(spots)
}
