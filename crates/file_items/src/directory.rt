ghost use Rattle.std.specs.Prelude.{◌≡◌, ◌<◌, ◌*◌, ◌^◌, ◌++◌, List, length, map, slice_get, Some, OnOk};
ghost use Rattle.indexmap.specs.IndexMap.{keys};
ghost use Rattle.reiser_volume.specs.outside.History.{Image};
ghost use Rattle.unit_plan.specs.btr_keys.DirEntry.{dir_entry_value};
ghost use Rattle.reiser_volume.specs.reiser_volume_names.Names.{ino_of_key};
ghost use Rattle.reiser_volume_objects.specs.declared.key.ObjectKey.{ObjectKey as KeyOf};
ghost use Rattle.reiser_volume_objects.specs.declared.naming.Naming.{Naming as NamingOf};
ghost use Rattle.reiser_volume.specs.Made.{stat_at, kind_by};
ghost use Rattle.reiser_volume.specs.Numbers.{AreNumbered};
ghost use Rattle.reiser_volume.specs.Opened.{IsOpened, links_in};
ghost use Rattle.reiser_volume.specs.Volume.{IsAccepted, volume_items};
ghost use Rattle.file_items.specs.Known.{FitsIndex, IsKnown};
ghost use Rattle.file_items.specs.Spots.{IsObjectAt};
ghost use Rattle.file_items.specs.Names.{entry_kind, entry_to, entry_items, Indexed, indexed, indexed_in, names_in, saved_entry};

use crate::link_index::{LinkIndex, index_at};
use btr_item_list::btrfs_format::flag::{
    FT_BLKDEV, FT_CHRDEV, FT_DIR, FT_FIFO, FT_REG_FILE, FT_SOCK, FT_SYMLINK,
};
use btr_item_list::btrfs_format::key::{DIR_INDEX, DIR_ITEM, INODE_ITEM, ROOT_ITEM};
use btr_item_list::btrfs_format::object::CONV_IMAGE_SUBVOL;
use btr_item_list::{ItemList, key_of, put_dir_entry, short};
use reiser_volume::{InodeNumbers, Memory, Volume, name_hash};
use reiser_volume_objects::fs_rows::Kind;
use reiser_volume_objects::kind_of_mode;
use std::alloc::Global;
use unit_plan::{DirEntry, Key};

/// The name under which the root has the tree of the saved image.
const SAVED: &[u8] = b"reiserfs_saved";

/// The entries of one directory.
#[derive(Drop)]
pub struct Directory {
    /// Under their hashes.
    hashed: ItemList,
    /// Under their indexes.
    indexes: ItemList,
    /// The bytes of all names; it stays at the last number of 64 bits.
    letters: u64,
    body: Vec<u8>,
}

impl Directory {
    ghost use Rattle.file_items.specs.Gathered.{HasEntry, HasEntries};

    /// No entries.
    pub fn new(alloc: Global) -> Directory {
        Directory {
            hashed: ItemList::new(alloc),
            indexes: ItemList::new(alloc),
            letters: 0,
            body: Vec::new(alloc),
        }
    }

    /// Takes the entries of the directory at a place.
    pub fn gather(
        &mut self,
        volume: &Volume,
        links: &LinkIndex,
        numbers: InodeNumbers,
        place: usize,
        ino: u64,
    ) -> Result<(), Memory>
        requires { FitsIndex links.now volume.now }
        ensures { (image : Image) → IsKnown volume.now links.now numbers image → (key : KeyOf) → IsObjectAt volume.now place key
            → OnOk result (HasEntries ino (indexed_in (λ k. kind_by (stat_at (volume_items image) k)) (keys volume.now.named) (links_in volume.now) key) self.new) }
    {
        self.gather_links(volume, links, numbers, place, ino)?;
        if numbers.is_root(place) {
            let index = index_at(links.names_in(place).len());
            self.add_entry(ino, index, &saved_entry())?;
        }
        Ok(())
    }

    /// The same without the root's entry for the saved image.
    fn gather_links(
        &mut self,
        volume: &Volume,
        links: &LinkIndex,
        numbers: InodeNumbers,
        place: usize,
        ino: u64,
    ) -> Result<(), Memory>
        requires { FitsIndex links.now volume.now }
        ensures { (image : Image) → IsKnown volume.now links.now numbers image → (key : KeyOf) → IsObjectAt volume.now place key
            → OnOk result (HasEntries ino (map (indexed (λ k. kind_by (stat_at (volume_items image) k)) (keys volume.now.named)) (names_in (links_in volume.now) key)) self.new) }
    {
        self.hashed.clear();
        self.indexes.clear();
        self.letters = 0;
        let spots = links.names_in(place);
        for i in 0..spots.len() {
            let number = spots[i].number;
            let index = links.index_in(place, number);
            self.add_entry(ino, index, &entry_of(volume, numbers, number))?;
        }
        Ok(())
    }

    /// One entry more.
    fn add_entry(&mut self, ino: u64, index: u64, entry: &DirEntry<'_>) -> Result<(), Memory>
        requires { length entry.now.name.now < 65536 }
        ensures { OnOk result (HasEntry ino (index, dir_entry_value entry.now) self.old self.new) }
    {
        self.body.clear();
        put_dir_entry(&mut self.body, entry)?;
        let hash = name_hash(entry.name) as u64;
        self.hashed.add(key_of(ino, DIR_ITEM, hash), &self.body)?;
        self.indexes.add(key_of(ino, DIR_INDEX, index), &self.body)?;
        self.letters = self.letters.saturating_add(entry.name.len() as u64);
        Ok(())
    }

    /// Twice the bytes of all names: the size of the directory's inode.
    pub fn size(&self) -> u64
        ensures { self.now.letters < 2 ^ 62 → result ≡ 2 * self.now.letters }
    {
        self.letters.saturating_mul(2)
    }

    /// Appends the entries: a dir item for each hash, and a dir index for each entry.
    pub fn add_items(&mut self, items: &mut ItemList, ino: u64) -> Result<(), Memory>
        ensures { (list : List Indexed) → HasEntries ino list self.old → OnOk result (items.new ≡ items.old ++ entry_items ino list) }
    {
        items.add_joined(ino, DIR_ITEM, &mut self.hashed, &mut self.body)?;
        items.append(&self.indexes)
    }
}

/// The entry of a link.
fn entry_of(volume: &Volume, numbers: InodeNumbers, number: usize) -> DirEntry<'_>
    requires { number < length (links_in volume.now) }
    ensures entry { (image : Image) → IsAccepted image → IsOpened volume.now image → AreNumbered numbers.root (keys volume.now.named) → (n : NamingOf) → slice_get (links_in volume.now) number ≡ Some n
        → dir_entry_value result ≡ entry_to (ino_of_key (keys volume.now.named) n.target) (kind_by (stat_at (volume_items image) n.target)) n.name }
    ensures short { length result.name.now < 65536 }
{
    let link = volume.link(number);
    let location = key_of(numbers.inode(link.object), INODE_ITEM, 0);
    new_entry(location, kind_at(volume, link.object), short(link.name))
}

/// The root's entry for the tree of the saved image.
fn saved_entry() -> DirEntry<'static>
    ensures entry { dir_entry_value result ≡ saved_entry }
    ensures short { length result.name.now < 65536 }
{
    new_entry(
        key_of(CONV_IMAGE_SUBVOL, ROOT_ITEM, u64::MAX),
        Kind::Subvolume,
        SAVED,
    )
}

/// An entry of a new tree.
pub fn new_entry<'a>(location: Key, kind: Kind, name: &'a [u8]) -> DirEntry<'a>
    ensures value { dir_entry_value result ≡ record { location = location; transid = 1; data_length = 0; kind = entry_kind kind; name = name.now } }
    ensures name { result.name.now ≡ name.now }
{
    DirEntry {
        location,
        transid: 1,
        data_length: 0,
        kind: entry_kind(kind),
        name,
    }
}

/// The kind in a directory's entry; Linux has a subvolume as a directory.
fn entry_kind(kind: Kind) -> u8
    ensures { result ≡ entry_kind kind }
{
    match kind {
        Kind::File => FT_REG_FILE,
        Kind::Directory | Kind::Subvolume => FT_DIR,
        Kind::Character => FT_CHRDEV,
        Kind::Block => FT_BLKDEV,
        Kind::Fifo => FT_FIFO,
        Kind::Socket => FT_SOCK,
        Kind::Symlink => FT_SYMLINK,
    }
}

/// The kind of the object at a place, which each named object has.
pub fn kind_at(volume: &Volume, place: usize) -> Kind
    ensures { (image : Image) → IsAccepted image → IsOpened volume.now image → (key : KeyOf) → IsObjectAt volume.now place key → result ≡ kind_by (stat_at (volume_items image) key) }
{
    if place >= volume.count() {
        return Kind::File;
    }
    kind_of_mode(volume.stat(place).fields.mode).unwrap_or(Kind::File)
}
