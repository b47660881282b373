ghost use Rattle.std.specs.Prelude.{◌≡◌, ◌≤◌, ◌<◌, ◌^◌, ◌∷◌, [], true, false, List, is_err, length, IfOk, IfErr};
ghost use Rattle.std.specs.Result.{MatchResult};
ghost use Rattle.reiser_volume.specs.outside.Fault.{HasCauseOf};
ghost use Rattle.reiser_volume.specs.outside.History.{Image, OverTold};
ghost use Rattle.unit_plan.specs.btr_node.Leaf.{Item};
ghost use Rattle.reiser_volume.specs.reiser_volume_contents.Answers.{IsFileAnswer, IsFaultOrMemory};
ghost use Rattle.reiser_volume.specs.Opened.{IsOpened};
ghost use Rattle.reiser_volume.specs.Volume.{IsAccepted, superblock};
ghost use Rattle.reiser_volume.specs.declared.volume.Volume.{Volume as VolumeOf};
ghost use Rattle.unit_plan.specs.declared.piece.Piece.{Piece as PieceOf};
ghost use Rattle.unit_plan.specs.Pieces.{ArePlaced};
ghost use Rattle.file_items.specs.Small.{image_items, relocation_items};
ghost use Rattle.file_items.specs.Tree.{source_of, fs_tree_items};

use crate::files::FileTree;
use crate::image::{ImageExtents, image_blocks};
use crate::small::{image_head, relocation_items};
use btr_item_list::ItemList;
use reiser_volume::{BlockSource, Memory, VolAnswer, Volume};
use std::alloc::Global;
use unit_plan::convert_options::Options;
use unit_plan::{Key, PieceList};

/// What comes behind the items in hand.
#[derive(Drop)]
enum Rest {
    /// Nothing.
    Nothing,
    /// The extents of the saved image.
    Image(ImageExtents),
    /// The objects of the file tree.
    Files(FileTree),
}

impl Rest {
    ghost use Rattle.file_items.specs.Stream.{AddsSome, FitsRest, FitsRestBlocks, rest_ahead};

    /// Appends some of the items that come next to a list. Whether there are any.
    fn add_next<S: BlockSource, P: PieceList>(
        &mut self,
        items: &mut ItemList,
        src: &mut S,
        volume: &Volume,
        pieces: &P,
    ) -> Result<bool, VolAnswer>
        requires { FitsRest self.old volume.now (P.pieces pieces.now) }
        ensures kept { S.kept src.old src.new }
        ensures cause { HasCauseOf VolAnswer.Fault (S.faults src.old) (S.faults src.new) result }
        ensures answers { IfErr result IsFileAnswer }
        ensures fits { FitsRest self.new volume.now (P.pieces pieces.now) }
        ensures next { OverTold S.tells (S.blocks src.old) (λ image. IsAccepted image → IsOpened volume.now image → ArePlaced (superblock image).blocks (P.pieces pieces.now) → FitsRestBlocks self.old volume.now image
            → MatchResult result (λ more. AddsSome more (rest_ahead self.old volume.now (P.pieces pieces.now) image) (rest_ahead self.new volume.now (P.pieces pieces.now) image) items.old items.new × FitsRestBlocks self.new volume.now image) IsFaultOrMemory) }
    {
        match self {
            Rest::Nothing => Ok(false),
            Rest::Image(extents) => Ok(extents.add_next(items, pieces)?),
            Rest::Files(files) => files.add_next(items, src, volume, pieces),
        }
    }
}

/// The items of a tree of a converted volume, one after the other, ascending by key.
///
/// It holds its place and the items of the object in hand, and neither the volume nor its pieces: these are passed to each
/// call, the same as at its making.
#[derive(Drop)]
pub struct Items {
    /// The items in hand.
    list: ItemList,
    /// How many of them were given.
    given: usize,
    rest: Rest,
    spent: bool,
}

impl Items {
    ghost use Rattle.file_items.specs.Stream.{ahead, FitsStream, FitsBlocks, HasGivenItem, StandsNext, Comes};

    /// The items of the file tree, number 5, of a volume whose pieces were placed. Nothing in this tree is of the time of the
    /// conversion.
    pub fn tree5<P: PieceList>(
        alloc: Global,
        volume: &Volume,
        pieces: &P,
        options: &Options,
        _now: u64,
    ) -> Result<Items, Memory>
        ensures live { IfOk result (λ items. items.spent ≡ false) }
        ensures fits { IfOk result (λ items. FitsStream items volume.now (P.pieces pieces.now)) }
        ensures fits_blocks { IfOk result (λ items. (image : Image) → IsAccepted image → IsOpened volume.now image → FitsBlocks items volume.now image) }
        ensures all { IfOk result (λ items. (image : Image) → ahead items volume.now (P.pieces pieces.now) image ≡ fs_tree_items (source_of volume.now (P.pieces pieces.now) options.now.inline options.now.datasum image)) }
    {
        let files = FileTree::new(alloc, volume, pieces, options)?;
        Ok(Items::with(ItemList::new(alloc), Rest::Files(files)))
    }

    /// The items of the tree of the saved image of a volume whose pieces were placed; `now` is the time of the conversion in
    /// seconds since the start of 1970, below 2^63.
    pub fn image<P: PieceList>(
        alloc: Global,
        volume: &Volume,
        pieces: &P,
        options: &Options,
        now: u64,
    ) -> Result<Items, Memory>
        requires { now < 2 ^ 63 }
        ensures live { IfOk result (λ items. items.spent ≡ false) }
        ensures fits { IfOk result (λ items. FitsStream items volume.now (P.pieces pieces.now)) }
        ensures fits_blocks { IfOk result (λ items. (image : Image) → FitsBlocks items volume.now image) }
        ensures all { volume.now.sup.blocks < 2 ^ 52 → ArePlaced volume.now.sup.blocks (P.pieces pieces.now)
            → IfOk result (λ items. (image : Image) → ahead items volume.now (P.pieces pieces.now) image ≡ image_items volume.now.sup.blocks (P.pieces pieces.now) options.now.datasum now) }
    {
        let nbytes = image_blocks(pieces).saturating_mul(4096);
        let head = image_head(alloc, volume.sup().blocks, nbytes, options.datasum, now)?;
        let extents = ImageExtents::new(alloc, pieces)?;
        Ok(Items::with(head, Rest::Image(extents)))
    }

    /// The items of the relocation tree; `now` is as for the image.
    pub fn relocation(alloc: Global, now: u64) -> Result<Items, Memory>
        requires { now < 2 ^ 63 }
        ensures live { IfOk result (λ items. items.spent ≡ false) }
        ensures fits { IfOk result (λ items. (volume : VolumeOf) (pieces : List PieceOf) → FitsStream items volume pieces) }
        ensures fits_blocks { IfOk result (λ items. (volume : VolumeOf) (image : Image) → FitsBlocks items volume image) }
        ensures all { IfOk result (λ items. (volume : VolumeOf) (pieces : List PieceOf) (image : Image) → ahead items volume pieces image ≡ relocation_items now) }
    {
        let head = relocation_items(alloc, now)?;
        Ok(Items::with(head, Rest::Nothing))
    }

    /// These items, and then the rest.
    fn with(list: ItemList, rest: Rest) -> Items
        ensures { result ≡ record { list = list; given = 0; rest = rest; spent = false } }
    {
        Items {
            list,
            given: 0,
            rest,
            spent: false,
        }
    }

    /// Goes to the next item, which stands then; false after the last one. After an error it is spent.
    ///
    /// Over a source that tells the used blocks of the volume as they were when it was opened, the error is a fault or want
    /// of memory. Over any other one it may also be the refusal of a block that reads otherwise.
    pub fn advance<S: BlockSource, P: PieceList>(
        &mut self,
        src: &mut S,
        volume: &Volume,
        pieces: &P,
    ) -> Result<bool, VolAnswer>
        requires live { self.old.spent ≡ false }
        requires fits { FitsStream self.old volume.now (P.pieces pieces.now) }
        ensures kept { S.kept src.old src.new }
        ensures cause { HasCauseOf VolAnswer.Fault (S.faults src.old) (S.faults src.new) result }
        ensures answers { IfErr result IsFileAnswer }
        ensures spent { self.new.spent ≡ is_err result }
        ensures fits { IfOk result (λ _. FitsStream self.new volume.now (P.pieces pieces.now)) }
        ensures stands { IfOk result (λ more. more ≡ true → HasGivenItem self.new) }
        ensures next { OverTold S.tells (S.blocks src.old) (λ image. IsAccepted image → IsOpened volume.now image → ArePlaced (superblock image).blocks (P.pieces pieces.now) → FitsBlocks self.old volume.now image
            → MatchResult result (λ more. Comes more self.old self.new volume.now (P.pieces pieces.now) image) IsFaultOrMemory) }
    {
        let answer = self.step(src, volume, pieces);
        self.spent = answer.is_err();
        answer
    }

    fn step<S: BlockSource, P: PieceList>(
        &mut self,
        src: &mut S,
        volume: &Volume,
        pieces: &P,
    ) -> Result<bool, VolAnswer>
        requires live { self.old.spent ≡ false }
        requires fits { FitsStream self.old volume.now (P.pieces pieces.now) }
        ensures kept { S.kept src.old src.new }
        ensures cause { HasCauseOf VolAnswer.Fault (S.faults src.old) (S.faults src.new) result }
        ensures answers { IfErr result IsFileAnswer }
        ensures spent { self.new.spent ≡ self.old.spent }
        ensures fits { IfOk result (λ _. FitsStream self.new volume.now (P.pieces pieces.now)) }
        ensures stands { IfOk result (λ more. more ≡ true → HasGivenItem self.new) }
        ensures next { OverTold S.tells (S.blocks src.old) (λ image. IsAccepted image → IsOpened volume.now image → ArePlaced (superblock image).blocks (P.pieces pieces.now) → FitsBlocks self.old volume.now image
            → MatchResult result (λ more. Comes more self.old self.new volume.now (P.pieces pieces.now) image) IsFaultOrMemory) }
    {
        if self.given < self.list.len() {
            self.given += 1;
            return Ok(true);
        }
        self.list.clear();
        self.given = 0;
        self.rest.add_next(&mut self.list, src, volume, pieces)?;
        if self.list.len() == 0 {
            return Ok(false);
        }
        self.given = 1;
        Ok(true)
    }

    /// The key of the item that stands.
    pub fn key(&self) -> Key
        requires { HasGivenItem self.now }
        ensures { (item : Item) → StandsNext self.now item → result ≡ item.0 }
    {
        self.list.key(self.given - 1)
    }

    /// The body of the item that stands.
    pub fn body(&self) -> &[u8]
        requires { HasGivenItem self.now }
        ensures { (item : Item) → StandsNext self.now item → result.now ≡ item.1 }
    {
        self.list.body(self.given - 1)
    }

    /// Whether an error was answered.
    pub fn spent(&self) -> bool
        ensures { result ≡ self.now.spent }
    {
        self.spent
    }
}
