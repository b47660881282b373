ghost use Rattle.std.specs.Prelude.{◌≡◌, ◌<◌, ◌^◌, ℕ, filter, is_some, sum_by, IfOk};
ghost use Rattle.file_items.specs.Extents.{source_block};
ghost use Rattle.file_items.specs.Orders.{AreSources};
ghost use Rattle.unit_plan.specs.Pieces.{ArePlaced};

use crate::order::by_source;
use btr_item_list::{Extent, ItemList, Spots, add_extent};
use reiser_volume::Memory;
use std::alloc::Global;
use unit_plan::{Piece, PieceList};

/// The extents of the saved image that are still to come: pieces by the blocks of the volume that they hold.
#[derive(Drop)]
pub struct ImageExtents {
    order: Spots,
    /// How many of them were given.
    given: usize,
}

impl ImageExtents {
    ghost use Rattle.file_items.specs.Stream.{AddsSome, image_ahead};

    /// All of them.
    pub fn new<P: PieceList>(alloc: Global, pieces: &P) -> Result<ImageExtents, Memory>
        ensures order { IfOk result (λ extents. AreSources extents.order (P.pieces pieces.now)) }
        ensures none { IfOk result (λ extents. extents.given ≡ 0) }
    {
        let order = by_source(alloc, pieces)?;
        Ok(ImageExtents { order, given: 0 })
    }

    /// Appends the next extent to a list of items. Whether there is one.
    pub fn add_next<P: PieceList>(
        &mut self,
        items: &mut ItemList,
        pieces: &P,
    ) -> Result<bool, Memory>
        requires order { AreSources self.old.order (P.pieces pieces.now) }
        ensures order { self.new.order ≡ self.old.order }
        ensures next { (blocks : ℕ) → blocks < 2 ^ 52 → ArePlaced blocks (P.pieces pieces.now)
            → IfOk result (λ more. AddsSome more (image_ahead self.old (P.pieces pieces.now)) (image_ahead self.new (P.pieces pieces.now)) items.old items.new) }
    {
        if self.given >= self.order.len() {
            return Ok(false);
        }
        let piece = *pieces.get(self.order.get(self.given).number);
        self.given += 1;
        let extent = Extent {
            block: source_block(&piece),
            place: piece.place,
            count: piece.count,
        };
        add_extent(items, 257, extent)?;
        Ok(true)
    }
}

/// The block of the volume that a piece begins with.
fn source_block(piece: &Piece) -> u64
    ensures { result ≡ source_block piece.now }
{
    piece.from.unwrap_or(0)
}

/// The blocks of all pieces that hold blocks of the volume; it stays at the last number of 64 bits.
pub fn image_blocks<P: PieceList>(pieces: &P) -> u64
    ensures { sum_by (λ p. p.count) (filter (λ p. is_some p.from) (P.pieces pieces.now)) < 2 ^ 64 → result ≡ sum_by (λ p. p.count) (filter (λ p. is_some p.from) (P.pieces pieces.now)) }
{
    let mut blocks = 0_u64;
    for i in 0..pieces.len() {
        let piece = pieces.get(i);
        if piece.from.is_some() {
            blocks = blocks.saturating_add(piece.count);
        }
    }
    blocks
}
