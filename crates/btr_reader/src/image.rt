ghost use Rattle.std.specs.Prelude.{◌≡◌, ◌≢◌, [], Option, Some, None, Err, true, IfOk, IfErr, IfSome, List, OnOk};
ghost use Rattle.std.specs.Option.{option_and_then};
ghost use Rattle.btr_reader_walk.specs.outside.Fault.{HasCauseOf};
ghost use Rattle.btr_reader_walk.specs.outside.History.{OverTold};
ghost use Rattle.btr_reader_walk.specs.refusals.declared.refusal.BtrRefusal.TheVariants.{BadBtrfs};
ghost use Rattle.btr_reader_walk.specs.refusals.declared.rule.BtrRule.TheVariants.{SuperField};
ghost use Rattle.btr_reader_walk.specs.Events.{TreeItem};
ghost use Rattle.btr_reader_walk.specs.Walks.{LieOn, found, wrong};
ghost use Rattle.btr_reader.specs.Image.{is_file_mode, inode_number, file_if_image, image_at, image_in, saved_image, file_refusals, saved_refusals, image_refusals};
ghost use Rattle.btr_reader_names.specs.Inodes.{find_inode_item, TellsInode};
ghost use Rattle.btr_reader_names.specs.Refuses.{IsNoFault};
ghost use Rattle.btr_reader.specs.FileNotes.{HoldsFile};
ghost use Rattle.btr_reader.specs.Opening.{IsAmong, NamesNoLogTree};
ghost use Rattle.btr_reader.specs.Pieces.{GathersExtents, AreGatheredInOrder, MapsImage};
ghost use Rattle.btr_reader.specs.Reading.{IsWalkable, FindsFile, ReadsImage};
ghost use Rattle.btr_reader.specs.Roots.{HasRoots};
ghost use Rattle.btr_reader.specs.Volume.{IsVolumeOn};
ghost use Rattle.btr_reader.specs.Rows.{roots_on};

use crate::chunk::copy_of;
use crate::entries::find_entry;
use crate::file_notes::FileNotes;
use crate::gathered::Gathered;
use crate::image_map::ImageMap;
use crate::refusal::refused;
use crate::volume::Btrfs;
use btr_reader_names::InodeFound;
use btr_reader_walk::{
    BlockSource, BtrAnswer, BtrRule, Inode, Key, MapRange, Memory, Notes, Tree, note_items,
};
use btr_space_items::btrfs_format::block::SUPER_INFO_OFFSET;
use btr_space_items::btrfs_format::key::INODE_ITEM;
use btr_space_items::btrfs_format::object::{FIRST_FREE_OBJECTID, FS_TREE};
use std::alloc::Global;

/// The inode of an inode item that was looked for, if it is that of a regular file.
fn file_in(item: Option<InodeFound>) -> Result<Option<Inode>, BtrAnswer>
    ensures finds { (i : Option TreeItem) → TellsInode item i → FindsFile i result }
    ensures known { IfErr result NamesNoLogTree }
    ensures cause { IfErr result IsNoFault }
{
    let item = match item {
        Some(item) => item,
        None => return Ok(None),
    };
    let inode = match item.inode {
        Some(inode) => inode,
        None => return Err(refused(item.leaf, BtrRule::Body)),
    };
    if inode.mode / 4096 % 16 != 8 {
        return Ok(None);
    }
    Ok(Some(inode))
}

/// The inode that an entry names.
fn inode_number(key: Option<Key>) -> Option<u64>
    ensures { result ≡ option_and_then inode_number key }
{
    match key {
        Some(key) => {
            if key.kind == INODE_ITEM {
                Some(key.objectid)
            } else {
                None
            }
        }
        None => None,
    }
}

/// The map of a regular file, whose extents were gathered, if it has the form of an image.
fn map_of(
    alloc: Global,
    own: &Inode,
    gathered: Gathered,
    ranges: &[MapRange],
    device: u64,
) -> Result<Option<ImageMap>, Memory>
    requires inside { LieOn device ranges.now }
    requires order { AreGatheredInOrder gathered }
    ensures map { (extents : List TreeItem) → is_file_mode own.now.mode ≡ true → GathersExtents ranges.now extents gathered
        → IfOk result (λ o. MapsImage ranges.now o (file_if_image extents (Some own.now))) }
    ensures device { IfOk result (λ o. IfSome o (λ m. m.device ≡ device)) }
{
    if gathered.inline || own.size % 4096 != 0 {
        return Ok(None);
    }
    Ok(Some(ImageMap {
        blocks: own.size / 4096,
        device,
        ranges: copy_of(alloc, ranges)?,
        pieces: gathered.pieces,
    }))
}

/// Notes nothing of a tree's items.
#[derive(Drop)]
pub struct NoNotes;

impl Notes for NoNotes {
    ghost holds = { λ begun noted items. Unit {0} };

    fn note(&mut self, _: Global, _: &Key, _: &[u8], _: u64) -> Result<(), Memory> {
        Ok(())
    }
}

/// The inode that the image has where no one put it elsewhere: this program and btrfs-convert give it the one behind the root directory.
const USUAL_INODE: u64 = FIRST_FREE_OBJECTID + 1;

/// What is noted of the file with this number in a tree. The tree is walked only where the notes that are there are of another one.
fn file_notes<'a, S: BlockSource>(
    alloc: Global,
    src: &mut S,
    tree: Tree,
    ranges: &'a [MapRange],
    number: u64,
    there: FileNotes<'a>,
) -> Result<FileNotes<'a>, BtrAnswer>
    requires inside { LieOn (S.size src.old) ranges.now }
    requires walkable { IsWalkable tree }
    ensures kept { S.kept src.old src.new }
    ensures cause { HasCauseOf BtrAnswer.Fault (S.faults src.old) (S.faults src.new) result }
    ensures known { IfErr result NamesNoLogTree }
    ensures noted { OverTold S.tells (S.blocks src.old) (λ image. there.entry.ranges.now ≡ ranges.now → HoldsFile there.entry (found image ranges.now tree) → IfOk result (λ notes. (notes.ranges.now ≡ ranges.now) × (notes.number ≡ number) × HoldsFile notes (found image ranges.now tree))) }
    ensures err { OverTold S.tells (S.blocks src.old) (λ image. IfErr result (IsAmong (wrong image ranges.now tree))) }
{
    if there.number == number {
        return Ok(there);
    }
    let mut notes = FileNotes::new(alloc, ranges, number);
    note_items(alloc, src, tree, ranges, &mut notes)?;
    Ok(notes)
}

/// The map of a file of which these notes were taken by `ranges`, if it has the form of an image.
fn noted_map(
    alloc: Global,
    notes: FileNotes<'_>,
    ranges: &[MapRange],
    device: u64,
) -> Result<Option<ImageMap>, BtrAnswer>
    requires inside { LieOn device ranges.now }
    ensures device { IfOk result (λ o. IfSome o (λ m. m.device ≡ device)) }
    ensures known { IfErr result NamesNoLogTree }
    ensures cause { IfErr result IsNoFault }
    ensures reads { (items : List TreeItem) → notes.entry.ranges.now ≡ ranges.now → HoldsFile notes.entry items →
        ReadsImage ranges.now (image_at items notes.entry.number (find_inode_item items notes.entry.number)) (file_refusals ranges.now items notes.entry.number (find_inode_item items notes.entry.number)) result }
{
    let own = match file_in(notes.item)? {
        Some(own) => own,
        None => return Ok(None),
    };
    if let Some(refusal) = notes.refusal {
        return Err(BtrAnswer::Refused(refusal));
    }
    Ok(map_of(alloc, &own, notes.gathered, ranges, device)?)
}

/// The map of the image in a tree, on a device of `device` blocks: one walk where the image has its usual inode, else two.
fn saved_map<S: BlockSource, N: Notes>(
    alloc: Global,
    src: &mut S,
    tree: Tree,
    ranges: &[MapRange],
    device: u64,
    notes: &mut N,
) -> Result<Option<ImageMap>, BtrAnswer>
    requires inside { LieOn (S.size src.old) ranges.now }
    requires mapped { LieOn device ranges.now }
    requires walkable { IsWalkable tree }
    requires begun { N.holds notes.old notes.old [] }
    ensures kept { S.kept src.old src.new }
    ensures cause { HasCauseOf BtrAnswer.Fault (S.faults src.old) (S.faults src.new) result }
    ensures known { IfErr result NamesNoLogTree }
    ensures device { IfOk result (λ o. IfSome o (λ m. m.device ≡ device)) }
    ensures reads { OverTold S.tells (S.blocks src.old) (λ image. ReadsImage ranges.now (image_in (found image ranges.now tree)) (saved_refusals image ranges.now tree) result) }
    ensures noted { OverTold S.tells (S.blocks src.old) (λ image. OnOk result (N.holds notes.old notes.new (found image ranges.now tree))) }
{
    let mut usual = FileNotes::new(alloc, ranges, USUAL_INODE);
    let key = find_entry(alloc, src, tree, ranges, b"image", notes, &mut usual)?;
    let number = match inode_number(key) {
        Some(number) => number,
        None => return Ok(None),
    };
    let file = file_notes(alloc, src, tree, ranges, number, usual)?;
    noted_map(alloc, file, ranges, device)
}

impl Btrfs {
    /// The map of the image in the tree of the saved image; None exactly where the entry `image` or the file is not there,
    /// or the file has not the form of an image. It is refused exactly where something is wrong with the tree, the entries
    /// of its root directory or the file, by one of the things that are. All items of the tree are noted by the way.
    ///
    /// The tree is walked once where the image has the inode that it has after a conversion, and else twice.
    pub fn read_saved<S: BlockSource, N: Notes>(
        &self,
        alloc: Global,
        src: &mut S,
        tree: Tree,
        notes: &mut N,
    ) -> Result<Option<ImageMap>, BtrAnswer>
        requires inside { LieOn (S.size src.old) self.now.ranges.items }
        requires walkable { IsWalkable tree }
        requires begun { N.holds notes.old notes.old [] }
        ensures kept { S.kept src.old src.new }
        ensures cause { HasCauseOf BtrAnswer.Fault (S.faults src.old) (S.faults src.new) result }
        ensures known { IfErr result NamesNoLogTree }
        ensures device { IfOk result (λ o. IfSome o (λ m. m.device ≡ self.now.device)) }
        ensures reads { OverTold S.tells (S.blocks src.old) (λ image. ReadsImage self.now.ranges.items (image_in (found image self.now.ranges.items tree)) (saved_refusals image self.now.ranges.items tree) result) }
        ensures noted { OverTold S.tells (S.blocks src.old) (λ image. OnOk result (N.holds notes.old notes.new (found image self.now.ranges.items tree))) }
    {
        saved_map(alloc, src, tree, self.ranges.as_slice(), self.device, notes)
    }

    /// The map of the image of a volume whose root tree is right.
    fn read_image<S: BlockSource>(
        &self,
        alloc: Global,
        src: &mut S,
    ) -> Result<Option<ImageMap>, BtrAnswer>
        requires inside { LieOn (S.size src.old) self.now.ranges.items }
        ensures kept { S.kept src.old src.new }
        ensures cause { HasCauseOf BtrAnswer.Fault (S.faults src.old) (S.faults src.new) result }
        ensures known { IfErr result NamesNoLogTree }
        ensures device { IfOk result (λ o. IfSome o (λ m. m.device ≡ self.now.device)) }
        ensures reads { OverTold S.tells (S.blocks src.old) (λ image. HasRoots self.now.roots (roots_on image self.now.sup self.now.ranges.items) →
            ReadsImage self.now.ranges.items (saved_image image self.now.sup self.now.ranges.items) (image_refusals image self.now.sup self.now.ranges.items) result) }
    {
        let file = match self.find_tree(FS_TREE)? {
            Some(file) => file,
            None => return Ok(None),
        };
        let saved = match self.saved_tree(alloc, src, file, &mut NoNotes)? {
            Some(saved) => saved,
            None => return Ok(None),
        };
        self.read_saved(alloc, src, saved, &mut NoNotes)
    }

    /// Where the blocks of the saved image lie; None exactly where it is missing: where the entry `reiserfs_saved` of the
    /// root directory, the tree that it names, the entry `image` of that or the file is not there, or the file is not
    /// regular, has an inline extent, or a size that is no multiple of 4096.
    ///
    /// Over the source that was opened it is refused exactly where something is wrong on the way, by one of the things
    /// that are. All nodes of the file tree and of the image's tree are looked at; of the bodies in them the directory
    /// indexes of inode 256, and the inode and the extents of the file. The indexes keep the rules of names: each has a
    /// name, its location is an inode or another tree, and no name is there twice. A log tree is not looked at, over any
    /// source. Over a source with another number of blocks it is refused, whatever the blocks are.
    pub fn image_map<S: BlockSource>(
        &self,
        alloc: Global,
        src: &mut S,
    ) -> Result<Option<ImageMap>, BtrAnswer>
        ensures kept { S.kept src.old src.new }
        ensures cause { HasCauseOf BtrAnswer.Fault (S.faults src.old) (S.faults src.new) result }
        ensures known { IfErr result NamesNoLogTree }
        ensures device { IfOk result (λ o. IfSome o (λ m. m.device ≡ S.size src.old)) }
        // A source with another number of blocks is no source of this volume.
        ensures resized { S.size src.old ≢ self.now.device → result ≡ Err (BtrAnswer.Refused (BadBtrfs SUPER_INFO_OFFSET SuperField)) }
        ensures reads { OverTold S.tells (S.blocks src.old) (λ image. IsVolumeOn image self.now →
            ReadsImage self.now.ranges.items (saved_image image self.now.sup self.now.ranges.items) (image_refusals image self.now.sup self.now.ranges.items) result) }
    {
        if src.len() != self.device {
            return Err(refused(SUPER_INFO_OFFSET, BtrRule::SuperField));
        }
        self.read_image(alloc, src)
    }
}
