// The streams of a volume's items, as sources of trees.
use btr_tree::{BlockSource, Key, VolAnswer};
use btr_tree_writer::ItemSource;
use file_items::Items;
use reiser_volume::Volume;
use space_items::{ExtentStream, NodeList, SumStream};
use unit_plan::PieceList;

/// The items of a file tree, of a volume and its pieces.
#[derive(Drop)]
pub struct FileItems<'a, P: PieceList> {
    pub items: Items,
    pub volume: &'a Volume,
    pub pieces: &'a P,
}

impl<'a, P: PieceList> ItemSource for FileItems<'a, P> {
    ghost use Rattle.file_items.specs.Stream.{ahead, HasGivenItem, StandsNext};
    ghost use Rattle.convert_trees.specs.Sources.{FitsFiles, IsLiveFiles, IsUsedBlock};
    ghost use Rattle.convert_trees.specs.Staying.{files_stay};

    ghost ahead = { λ s image. ahead s.items s.volume.now (P.pieces s.pieces.now) image };

    ghost fits = { λ s image. FitsFiles s.items s.volume.now (P.pieces s.pieces.now) image };

    ghost needs = { λ s b. IsUsedBlock s.volume.now b };

    ghost is_live = { λ s. IsLiveFiles s.items s.volume.now (P.pieces s.pieces.now) };

    ghost reach = { λ s. 0 };

    ghost stands = { λ s item. StandsNext s.items item };

    ghost has_item = { λ s. HasGivenItem s.items };

    fn advance<S: BlockSource>(&mut self, src: &mut S) -> Result<bool, VolAnswer> {
        self.items.advance(src, self.volume, self.pieces)
    }

    fn key(&self) -> Key {
        self.items.key()
    }

    fn body(&self) -> &[u8] {
        self.items.body()
    }

    ghost stays = { λ s image other same fits. files_stay s.items s.volume.now (P.pieces s.pieces.now) image other same fits };
}

/// The checksums of pieces.
#[derive(Drop)]
pub struct SumItems<'a, P: PieceList> {
    pub sums: SumStream,
    pub pieces: &'a P,
}

impl<'a, P: PieceList> ItemSource for SumItems<'a, P> {
    ghost use Rattle.std.specs.Prelude.{◌≡◌, ◌≤◌, length};
    ghost use Rattle.space_items.specs.Stream.{sum_standing, sums_ahead};
    ghost use Rattle.convert_trees.specs.Sources.{FitsSumBlocks, IsInPieces, IsLiveSums, pieces_end};
    ghost use Rattle.convert_trees.specs.Staying.{sums_stay};

    ghost ahead = { λ s image. sums_ahead s.sums (P.pieces s.pieces.now) image };

    ghost fits = { λ s image. FitsSumBlocks s.sums (P.pieces s.pieces.now) image };

    ghost needs = { λ s b. IsInPieces (P.pieces s.pieces.now) b };

    ghost is_live = { λ s. IsLiveSums s.sums (P.pieces s.pieces.now) };

    ghost reach = { λ s. pieces_end (P.pieces s.pieces.now) };

    ghost stands = { λ s item. item ≡ sum_standing s.sums };

    ghost has_item = { λ s. s.sums.length ≤ length s.sums.bytes.items };

    fn advance<S: BlockSource>(&mut self, src: &mut S) -> Result<bool, VolAnswer> {
        Ok(self.sums.advance(src, self.pieces)?)
    }

    fn key(&self) -> Key {
        self.sums.key()
    }

    fn body(&self) -> &[u8] {
        self.sums.body()
    }

    ghost stays = { λ s image other same fits. sums_stay s.sums (P.pieces s.pieces.now) image other same fits };
}

/// The items of the extent tree, of pieces and nodes.
#[derive(Drop)]
pub struct ExtentItems<'a, P: PieceList> {
    pub extents: ExtentStream,
    pub pieces: &'a P,
    pub nodes: &'a NodeList,
}

impl<'a, P: PieceList> ItemSource for ExtentItems<'a, P> {
    ghost use Rattle.std.specs.Prelude.{◌≡◌, refl};
    ghost use Rattle.space_items.specs.Stream.{FitsExtents, extent_standing, extents_ahead};

    ghost ahead = { λ s image. extents_ahead s.extents (P.pieces s.pieces.now) s.nodes.now };

    ghost fits = { λ s image. Unit {0} };

    ghost needs = { λ s b. ⊥ };

    ghost is_live = { λ s. FitsExtents s.extents (P.pieces s.pieces.now) s.nodes.now };

    ghost reach = { λ s. 0 };

    ghost stands = { λ s item. item ≡ extent_standing s.extents };

    ghost has_item = { λ s. Unit {0} };

    fn advance<S: BlockSource>(&mut self, _src: &mut S) -> Result<bool, VolAnswer> {
        Ok(self.extents.advance(self.pieces, self.nodes))
    }

    fn key(&self) -> Key {
        self.extents.key()
    }

    fn body(&self) -> &[u8] {
        self.extents.body()
    }

    ghost stays = { λ s image other same fits. (fits, refl) };
}
