ghost use Rattle.std.specs.Prelude.{◌≡◌, ◌≤◌, ◌<◌, ◌++◌, ◌^◌, ℕ, false, filter, length, sum_by, Some, IfOk, IfErr, OnOk, IfSome, if◌then◌else◌};
ghost use Rattle.std.specs.Option.{option_map_or};
ghost use Rattle.std.specs.Result.{MatchResult};
ghost use Rattle.indexmap.specs.IndexMap.{keys, get};
ghost use Rattle.reiser_volume_objects.specs.fs_rows.Kinds.{is_directory};
ghost use Rattle.btr_item_list.specs.Spots.{is_under};
ghost use Rattle.reiser_volume.specs.reiser_volume_contents.Answers.{IsFileAnswer, IsFaultOrMemory};
ghost use Rattle.reiser_volume.specs.outside.Fault.{HasCauseOf};
ghost use Rattle.reiser_volume.specs.outside.History.{Image, OverTold};
ghost use Rattle.reiser_volume_objects.specs.declared.key.ObjectKey.{ObjectKey as KeyOf};
ghost use Rattle.reiser_volume_objects.specs.Keys.{same_key, items_of};
ghost use Rattle.reiser_volume_objects.specs.declared.stat.ObjectStat.{ObjectStat as StatOf};
ghost use Rattle.reiser_volume.specs.Made.{stat_at, kind_by};
ghost use Rattle.reiser_volume.specs.Opened.{IsOpened, links_in};
ghost use Rattle.reiser_volume.specs.Volume.{IsAccepted, superblock, volume_items};
ghost use Rattle.unit_plan.specs.Pieces.{ArePlaced};
ghost use Rattle.file_items.specs.Contents.{HoldsBy, HoldsInline};
ghost use Rattle.file_items.specs.Extents.{file_block, piece_bytes, pieces_of};
ghost use Rattle.file_items.specs.Gathered.{HasEntries};
ghost use Rattle.file_items.specs.Known.{FitsIndex, IsKnown};
ghost use Rattle.file_items.specs.Spots.{IsObjectAt};
ghost use Rattle.file_items.specs.Names.{indexed_in, letters};
ghost use Rattle.file_items.specs.Orders.{AreOwners};
ghost use Rattle.file_items.specs.Tree.{Source, source_of, fs_tree_items, name_items, ino_of, kind_in, size_in, size_by, inline_in};

use crate::contents::inlined;
use crate::directory::{Directory, kind_at};
use crate::inode::{Sizes, inode_from};
use crate::link_index::LinkIndex;
use crate::object_names::ObjectNames;
use crate::order::by_owner;
use crate::small::add_root_ref;
use btr_item_list::{Extent, ItemList, Spots, add_extent, add_inline, add_inode};
use reiser_volume::{Block, BlockSource, InodeNumbers, Memory, VolAnswer, Volume};
use reiser_volume_objects::fs_rows::Kind;
use std::alloc::Global;
use unit_plan::convert_options::Options;
use unit_plan::{Piece, PieceList};

/// What of a volume and its pieces the file tree is made by: the same as long as its items are given.
#[derive(Drop)]
struct Basis {
    alloc: Global,
    inline: bool,
    datasum: bool,
    numbers: InodeNumbers,
    links: LinkIndex,
    owners: Spots,
}

/// The file whose extents are given.
#[derive(Clone, Copy)]
struct FileInHand {
    ino: u64,
    /// How many of its pieces are still to come.
    left: usize,
}

/// The objects of the file tree that are still to come, and of the one in hand the extents.
#[derive(Drop)]
pub struct FileTree {
    basis: Basis,
    names: ObjectNames,
    directory: Directory,
    body: Vec<u8>,
    /// How many objects were begun.
    begun: usize,
    file: FileInHand,
}

impl FileTree {
    ghost use Rattle.file_items.specs.Stream.{AddsSome, AddsExtent, Begins, HasContent, HasAddedExtents, tree_ahead, FitsTree, FitsTreeBlocks};

    /// All objects of a volume with these pieces.
    pub fn new<P: PieceList>(
        alloc: Global,
        volume: &Volume,
        pieces: &P,
        options: &Options,
    ) -> Result<FileTree, Memory>
        ensures fits { IfOk result (λ files. FitsTree files volume.now (P.pieces pieces.now)) }
        ensures fits_blocks { IfOk result (λ files. (image : Image) → IsAccepted image → IsOpened volume.now image → FitsTreeBlocks files volume.now image) }
        ensures all { IfOk result (λ files. (image : Image) → tree_ahead files volume.now (P.pieces pieces.now) image ≡ fs_tree_items (source_of volume.now (P.pieces pieces.now) options.now.inline options.now.datasum image)) }
    {
        let basis = Basis {
            alloc,
            inline: options.inline,
            datasum: options.datasum,
            numbers: InodeNumbers::new(volume),
            links: LinkIndex::new(alloc, volume)?,
            owners: by_owner(alloc, pieces)?,
        };
        Ok(FileTree {
            basis,
            names: ObjectNames::new(alloc),
            directory: Directory::new(alloc),
            body: Vec::new(alloc),
            begun: 0,
            file: FileInHand { ino: 0, left: 0 },
        })
    }

    /// Appends the next extent of the file in hand to a list of items, or else what the next object has up to its extents,
    /// if it has more than one. Whether there was any.
    pub fn add_next<S: BlockSource, P: PieceList>(
        &mut self,
        items: &mut ItemList,
        src: &mut S,
        volume: &Volume,
        pieces: &P,
    ) -> Result<bool, VolAnswer>
        requires fits { FitsTree self.old volume.now (P.pieces pieces.now) }
        ensures kept { S.kept src.old src.new }
        ensures cause { HasCauseOf VolAnswer.Fault (S.faults src.old) (S.faults src.new) result }
        ensures answers { IfErr result IsFileAnswer }
        ensures fits { FitsTree self.new volume.now (P.pieces pieces.now) }
        ensures next { OverTold S.tells (S.blocks src.old) (λ image. IsAccepted image → IsOpened volume.now image → ArePlaced (superblock image).blocks (P.pieces pieces.now) → FitsTreeBlocks self.old volume.now image
            → MatchResult result (λ more. AddsSome more (tree_ahead self.old volume.now (P.pieces pieces.now) image) (tree_ahead self.new volume.now (P.pieces pieces.now) image) items.old items.new × FitsTreeBlocks self.new volume.now image) IsFaultOrMemory) }
    {
        if self.add_extent(items, pieces)? {
            return Ok(true);
        }
        if self.begun >= volume.count() {
            return Ok(false);
        }
        let place = self.basis.numbers.place(self.begun);
        self.begun += 1;
        self.add_object(items, src, volume, pieces, place)?;
        Ok(true)
    }

    /// Appends the next extent of the file in hand. Whether there is one.
    fn add_extent<P: PieceList>(&mut self, items: &mut ItemList, pieces: &P) -> Result<bool, Memory>
        requires owners { AreOwners self.old.basis.owners (P.pieces pieces.now) }
        ensures basis { self.new.basis ≡ self.old.basis }
        ensures begun { self.new.begun ≡ self.old.begun }
        ensures next { (blocks : ℕ) → blocks < 2 ^ 52 → ArePlaced blocks (P.pieces pieces.now) → IfOk result (λ more. AddsExtent more self.old.file self.new.file (P.pieces pieces.now) items.old items.new) }
    {
        let spots = self.basis.owners.under(self.file.ino);
        let left = self.file.left.min(spots.len());
        if left == 0 {
            return Ok(false);
        }
        let piece = *pieces.get(spots[spots.len() - left].number);
        let ino = self.file.ino;
        self.file.left = left - 1;
        add_extent(items, ino, extent_of(&piece))?;
        Ok(true)
    }

    /// Appends what the object at a place has up to its extents, and takes these in hand.
    fn add_object<S: BlockSource, P: PieceList>(
        &mut self,
        items: &mut ItemList,
        src: &mut S,
        volume: &Volume,
        pieces: &P,
        place: usize,
    ) -> Result<(), VolAnswer>
        requires fits { FitsTree self.old volume.now (P.pieces pieces.now) }
        requires within { place < length (keys volume.now.named) }
        ensures kept { S.kept src.old src.new }
        ensures cause { HasCauseOf VolAnswer.Fault (S.faults src.old) (S.faults src.new) result }
        ensures answers { IfErr result IsFileAnswer }
        ensures basis { self.new.basis ≡ self.old.basis }
        ensures begun { self.new.begun ≡ self.old.begun }
        ensures next { OverTold S.tells (S.blocks src.old) (λ image. IsAccepted image → IsOpened volume.now image → ArePlaced (superblock image).blocks (P.pieces pieces.now) → FitsTreeBlocks self.old volume.now image → (key : KeyOf) → IsObjectAt volume.now place key
            → MatchResult result (λ _. Begins (source_of volume.now (P.pieces pieces.now) self.old.basis.inline self.old.basis.datasum image) key self.new.file items.old items.new) IsFaultOrMemory) }
    {
        let kind = kind_at(volume, place);
        let mut block = Block::zero();
        let held = inlined(
            self.basis.alloc,
            src,
            volume,
            place,
            kind,
            self.basis.inline,
            &mut block,
        )?;
        self.add_told(items, volume, pieces, place, kind, held, &block)?;
        Ok(())
    }

    /// The same of an object of this kind, of which so many bytes of a block stay in the tree.
    fn add_told<P: PieceList>(
        &mut self,
        items: &mut ItemList,
        volume: &Volume,
        pieces: &P,
        place: usize,
        kind: Kind,
        held: Option<usize>,
        block: &Block,
    ) -> Result<(), Memory>
        requires fits { FitsTree self.old volume.now (P.pieces pieces.now) }
        requires within { place < length (keys volume.now.named) }
        requires small { IfSome held (λ n. n ≤ 4096) }
        ensures basis { self.new.basis ≡ self.old.basis }
        ensures begun { self.new.begun ≡ self.old.begun }
        ensures next { (image : Image) → FitsTreeBlocks self.old volume.now image → ArePlaced (superblock image).blocks (P.pieces pieces.now) → (key : KeyOf) → IsObjectAt volume.now place key → kind ≡ kind_by (stat_at (volume_items image) key)
            → HoldsInline self.old.basis.inline (items_of key (volume_items image)) (stat_at (volume_items image) key).fields.size kind held block.now.bytes
            → OnOk result (Begins (source_of volume.now (P.pieces pieces.now) self.old.basis.inline self.old.basis.datasum image) key self.new.file items.old items.new) }
    {
        let ino = self.basis.numbers.inode(place);
        self.take_entries(volume, place, ino, kind)?;
        let sizes = Sizes {
            size: self.size_of(volume, place, kind),
            nbytes: self.basis.bytes_of(pieces, ino, held),
            nlink: self.basis.links_of(place, kind),
        };
        let stat = volume.stat(place);
        let inode = inode_from(self.basis.datasum, volume.sup().flags, stat, kind, sizes);
        add_inode(items, ino, &inode)?;
        self.add_names(items, volume, place)?;
        let count = self.basis.owners.under(ino).len();
        self.add_content(items, ino, kind, held, block, count)
    }

    /// Takes the entries of the object at a place, if it is a directory.
    fn take_entries(
        &mut self,
        volume: &Volume,
        place: usize,
        ino: u64,
        kind: Kind,
    ) -> Result<(), Memory>
        requires { FitsIndex self.old.basis.links volume.now }
        ensures basis { self.new.basis ≡ self.old.basis }
        ensures begun { self.new.begun ≡ self.old.begun }
        ensures entries { (image : Image) → IsKnown volume.now self.old.basis.links self.old.basis.numbers image → (key : KeyOf) → IsObjectAt volume.now place key → kind ≡ Kind.Directory
            → OnOk result (HasEntries ino (indexed_in (λ k. kind_by (stat_at (volume_items image) k)) (keys volume.now.named) (links_in volume.now) key) self.new.directory) }
    {
        if kind.is_directory() {
            self.directory
                .gather(volume, &self.basis.links, self.basis.numbers, place, ino)
        } else {
            Ok(())
        }
    }

    /// The size of the object of this kind at a place, whose entries were taken if it is a directory.
    fn size_of(&self, volume: &Volume, place: usize, kind: Kind) -> u64
        requires { place < length (keys volume.now.named) }
        ensures { (s : Source) (key : KeyOf) → (kind ≡ Kind.Directory → self.now.directory.letters ≡ letters (indexed_in (kind_in s) s.keys s.links key) × self.now.directory.letters < 2 ^ 62)
            → (stat_of : StatOf) → get same_key volume.now.named key ≡ Some stat_of → IsObjectAt volume.now place key → size_in s key ≡ stat_of.fields.size → result ≡ size_by s key kind }
    {
        match kind {
            Kind::Directory => self.directory.size(),
            Kind::File | Kind::Symlink => volume.stat(place).fields.size,
            Kind::Character | Kind::Block | Kind::Fifo | Kind::Socket | Kind::Subvolume => 0,
        }
    }

    /// Appends the names of the object at a place.
    fn add_names(
        &mut self,
        items: &mut ItemList,
        volume: &Volume,
        place: usize,
    ) -> Result<(), Memory>
        requires { FitsIndex self.old.basis.links volume.now }
        ensures basis { self.new.basis ≡ self.old.basis }
        ensures begun { self.new.begun ≡ self.old.begun }
        ensures directory { self.new.directory ≡ self.old.directory }
        ensures names { (s : Source) (image : Image) → IsKnown volume.now self.old.basis.links self.old.basis.numbers image → s.keys ≡ keys volume.now.named → s.links ≡ links_in volume.now → (key : KeyOf) → IsObjectAt volume.now place key
            → OnOk result (items.new ≡ items.old ++ name_items s key) }
    {
        if self.basis.numbers.is_root(place) {
            add_root_ref(items, &mut self.body)
        } else {
            self.names.add_items(items, volume, &self.basis.links, self.basis.numbers, place)
        }
    }

    /// Appends what an object holds, or takes its extents in hand, one for each of so many pieces.
    fn add_content(
        &mut self,
        items: &mut ItemList,
        ino: u64,
        kind: Kind,
        held: Option<usize>,
        block: &Block,
        pieces: usize,
    ) -> Result<(), Memory>
        requires small { IfSome held (λ n. n ≤ 4096) }
        ensures basis { self.new.basis ≡ self.old.basis }
        ensures begun { self.new.begun ≡ self.old.begun }
        ensures content { (s : Source) (key : KeyOf) → ino ≡ ino_of s key → pieces ≡ length (pieces_of s.pieces (ino_of s key)) → kind ≡ kind_in s key → (kind ≡ Kind.Directory → HasEntries ino (indexed_in (kind_in s) s.keys s.links key) self.old.directory)
            → HoldsInline s.inline (items_of key s.items) (size_in s key) kind held block.now.bytes → OnOk result (HasContent s key self.new.file items.old items.new) }
    {
        self.file = FileInHand { ino, left: 0 };
        match kind {
            Kind::Directory => self.directory.add_items(items, ino),
            Kind::File | Kind::Symlink => self.add_bytes(items, ino, held, block, pieces),
            Kind::Character | Kind::Block | Kind::Fifo | Kind::Socket | Kind::Subvolume => Ok(()),
        }
    }

    /// Appends the extent of a file or symlink that stays in the tree, or takes the extents in hand.
    fn add_bytes(
        &mut self,
        items: &mut ItemList,
        ino: u64,
        held: Option<usize>,
        block: &Block,
        pieces: usize,
    ) -> Result<(), Memory>
        requires small { IfSome held (λ n. n ≤ 4096) }
        requires file { self.old.file ≡ record { ino = ino; left = 0 } }
        ensures basis { self.new.basis ≡ self.old.basis }
        ensures begun { self.new.begun ≡ self.old.begun }
        ensures bytes { (s : Source) (key : KeyOf) → ino ≡ ino_of s key → pieces ≡ length (pieces_of s.pieces (ino_of s key)) → HoldsBy (inline_in s key) (items_of key s.items) (size_in s key) held block.now.bytes → OnOk result (HasAddedExtents s key self.new.file items.old items.new) }
    {
        match held {
            Some(length) => add_inline(items, &mut self.body, ino, &block.bytes[..length]),
            None => {
                self.file.left = pieces;
                Ok(())
            }
        }
    }
}

impl Basis {
    /// The bytes of the extents of an inode, of which so many bytes stay in the tree.
    fn bytes_of<P: PieceList>(&self, pieces: &P, ino: u64, held: Option<usize>) -> u64
        requires owners { AreOwners self.now.owners (P.pieces pieces.now) }
        ensures { (blocks : ℕ) → blocks < 2 ^ 52 → ArePlaced blocks (P.pieces pieces.now) → result ≡ option_map_or (λ n. n) held (piece_bytes (pieces_of (P.pieces pieces.now) ino)) }
    {
        match held {
            Some(length) => length as u64,
            None => self.piece_blocks(pieces, ino).saturating_mul(4096),
        }
    }

    /// The blocks of the pieces of an inode; it stays at the last number of 64 bits.
    fn piece_blocks<P: PieceList>(&self, pieces: &P, ino: u64) -> u64
        requires owners { AreOwners self.now.owners (P.pieces pieces.now) }
        ensures { sum_by (λ p. p.count) (pieces_of (P.pieces pieces.now) ino) < 2 ^ 64 → result ≡ sum_by (λ p. p.count) (pieces_of (P.pieces pieces.now) ino) }
    {
        let spots = self.owners.under(ino);
        let mut blocks = 0_u64;
        for i in 0..spots.len() {
            blocks = blocks.saturating_add(pieces.get(spots[i].number).count);
        }
        blocks
    }

    /// How many names the object of this kind at a place has; a directory has one.
    fn links_of(&self, place: usize, kind: Kind) -> u32
        ensures { (n : ℕ) → length (filter (is_under place) self.now.links.by_target) ≡ n → (is_directory kind ≡ false → n < 2 ^ 32) → result ≡ (if is_directory kind then 1 else n) }
    {
        if kind.is_directory() {
            1
        } else {
            self.links.names_of(place).len().min(u32::MAX as usize) as u32
        }
    }
}

/// Where the extent of an owned piece lies.
fn extent_of(piece: &Piece) -> Extent
    ensures { result ≡ record { block = file_block piece.now; place = piece.now.place; count = piece.now.count } }
{
    let (_, block) = piece.owner.unwrap_or((0, 0));
    Extent {
        block,
        place: piece.place,
        count: piece.count,
    }
}
