ghost use Rattle.std.specs.Prelude.{◌≡◌, ◌<◌, ◌≤◌, true, false, leb, length, IfSome};
ghost use Rattle.std.specs.List.Sorted.{IsPartitionPoint};
ghost use Rattle.btr_reader_walk.specs.Walks.{LieOn};
ghost use Rattle.btr_reader.specs.Ascending.{AscendApart};
ghost use Rattle.btr_reader.specs.Pieces.{holds_block, block_in, pieces_place, map_place};

use crate::image_map::ImageMap;
use crate::mapped_extent::MappedExtent;
use btr_reader_walk::{BlockNo, MapRange, place};

impl MappedExtent {
    /// Whether block `b` of the file is in the piece.
    fn holds(&self, b: u64) -> bool
        ensures { result ≡ holds_block self.now b }
    {
        self.first <= b && b - self.first < self.count
    }

    /// The block of the device that holds block `b` of the file, if that is in the piece, on a device of `device` blocks.
    #[tactic(auto, using(btr_reader_walk::proofs::Mapping::place_within))]
    fn place(&self, ranges: &[MapRange], device: u64, b: u64) -> Option<BlockNo>
        requires { LieOn device ranges.now }
        ensures place { result ≡ block_in ranges.now self.now b }
        ensures inside { IfSome result (λ n. n < device) }
    {
        if !self.holds(b) {
            return None;
        }
        let address = self.disk as u128 + self.offset as u128 + 4096 * (b - self.first) as u128;
        match place(ranges, address) {
            Some(at) => Some((at / 4096) as u64),
            None => None,
        }
    }
}

/// How many of the pieces begin at block `b` of the file or before.
fn begun(pieces: &[MappedExtent], b: u64) -> usize
    requires { AscendApart pieces.now }
    ensures within { result ≤ length pieces.now }
    ensures parts { IsPartitionPoint (λ p. leb p.first b ≡ true) (λ p. leb p.first b ≡ false) pieces.now result }
{
    pieces.partition_point(|piece| piece.first <= b)
}

/// The block of the device that holds block `b` of a file with these pieces. Only the last one that begins there or before
/// can hold it.
fn pieces_place(
    ranges: &[MapRange],
    pieces: &[MappedExtent],
    device: u64,
    b: u64,
) -> Option<BlockNo>
    requires inside { LieOn device ranges.now }
    requires apart { AscendApart pieces.now }
    ensures place { result ≡ pieces_place ranges.now pieces.now b }
    ensures inside { IfSome result (λ n. n < device) }
{
    let begun = begun(pieces, b);
    if begun == 0 {
        return None;
    }
    pieces[begun - 1].place(ranges, device, b)
}

impl ImageMap {
    /// How many blocks the image has.
    pub fn len(&self) -> u64
        ensures { result ≡ self.now.blocks }
    {
        self.blocks
    }

    /// The block of the device that holds block `b` of the image; None for a hole, and past the length.
    pub fn place(&self, b: u64) -> Option<BlockNo>
        ensures place { result ≡ map_place self.now b }
        ensures inside { IfSome result (λ n. n < self.now.device) }
    {
        if b < self.blocks {
            pieces_place(
                self.ranges.as_slice(),
                self.pieces.as_slice(),
                self.device,
                b,
            )
        } else {
            None
        }
    }
}
