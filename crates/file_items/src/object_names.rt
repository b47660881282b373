ghost use Rattle.std.specs.Prelude.{◌≡◌, ◌<◌, ◌++◌, ◌∷◌, [], length, slice_get, Some, OnOk, if◌then◌else◌};
ghost use Rattle.indexmap.specs.IndexMap.{keys};
ghost use Rattle.reiser_volume.specs.outside.History.{Image};
ghost use Rattle.reiser_volume_objects.specs.declared.key.ObjectKey.{ObjectKey as KeyOf};
ghost use Rattle.reiser_volume.specs.Opened.{links_in};
ghost use Rattle.file_items.specs.Known.{FitsIndex, IsKnown};
ghost use Rattle.file_items.specs.Spots.{IsObjectAt};
ghost use Rattle.file_items.specs.Names.{IndexedLink, indexed_links, names_of, inode_refs, extrefs};

use crate::link_index::LinkIndex;
use btr_item_list::btrfs_format::key::{INODE_EXTREF, INODE_REF};
use btr_item_list::{ItemList, key_of, put_extref, put_inode_ref, short};
use reiser_volume::{InodeNumbers, Memory, Volume, extref_hash};
use std::alloc::Global;
use unit_plan::{Extref, InodeRef};

/// The names of one object.
#[derive(Drop)]
pub struct ObjectNames {
    /// The names that inode refs have, under the directories' inodes.
    refs: ItemList,
    /// The extended names under the directories' inodes, with their hashes.
    far: ItemList,
    /// The same under their hashes.
    extrefs: ItemList,
    body: Vec<u8>,
}

impl ObjectNames {
    ghost use Rattle.file_items.specs.Gathered.{HasName, HasNames, AreExtrefs};

    /// No names.
    pub fn new(alloc: Global) -> ObjectNames {
        ObjectNames {
            refs: ItemList::new(alloc),
            far: ItemList::new(alloc),
            extrefs: ItemList::new(alloc),
            body: Vec::new(alloc),
        }
    }

    /// Appends the references of the object at a place: an inode ref for each directory, and an extref for each hash of its
    /// extended names.
    pub fn add_items(
        &mut self,
        items: &mut ItemList,
        volume: &Volume,
        links: &LinkIndex,
        numbers: InodeNumbers,
        place: usize,
    ) -> Result<(), Memory>
        requires { FitsIndex links.now volume.now }
        ensures { (image : Image) → IsKnown volume.now links.now numbers image → (key : KeyOf) → IsObjectAt volume.now place key
            → OnOk result (items.new ≡ items.old ++ (inode_refs (keys volume.now.named) (links_in volume.now) key ++ extrefs (keys volume.now.named) (links_in volume.now) key)) }
    {
        let ino = numbers.inode(place);
        self.gather(volume, links, numbers, place, ino)?;
        self.order_far(ino)?;
        items.add_joined(ino, INODE_REF, &mut self.refs, &mut self.body)?;
        items.add_joined(ino, INODE_EXTREF, &mut self.extrefs, &mut self.body)
    }

    /// The names of the object, in the order of the links.
    fn gather(
        &mut self,
        volume: &Volume,
        links: &LinkIndex,
        numbers: InodeNumbers,
        place: usize,
        ino: u64,
    ) -> Result<(), Memory>
        requires { FitsIndex links.now volume.now }
        ensures { (image : Image) → IsKnown volume.now links.now numbers image → (key : KeyOf) → IsObjectAt volume.now place key
            → OnOk result (HasNames (keys volume.now.named) ino (names_of (links_in volume.now) key) self.new) }
    {
        self.refs.clear();
        self.far.clear();
        let spots = links.names_of(place);
        for i in 0..spots.len() {
            self.add_name(volume, links, numbers, ino, spots[i].number)?;
        }
        Ok(())
    }

    /// One name of the object.
    fn add_name(
        &mut self,
        volume: &Volume,
        links: &LinkIndex,
        numbers: InodeNumbers,
        ino: u64,
        number: usize,
    ) -> Result<(), Memory>
        requires fits { FitsIndex links.now volume.now }
        requires within { number < links.now.count }
        ensures { (image : Image) → IsKnown volume.now links.now numbers image → (e : IndexedLink) → slice_get (indexed_links (links_in volume.now)) number ≡ Some e
            → OnOk result (HasName (keys volume.now.named) ino e self.old self.new) }
    {
        let link = volume.link(number);
        let name = short(link.name);
        let parent = numbers.inode(link.dir);
        let index = links.index_in(link.dir, number);
        self.body.clear();
        if links.is_extended(number) {
            let record = Extref {
                parent,
                index,
                name,
            };
            put_extref(&mut self.body, &record)?;
            let hash = extref_hash(parent, name) as u64;
            self.far.add(key_of(hash, INODE_EXTREF, parent), &self.body)
        } else {
            put_inode_ref(&mut self.body, &InodeRef { index, name })?;
            self.refs.add(key_of(ino, INODE_REF, parent), &self.body)
        }
    }

    /// The extended names under their hashes, those of one hash by directory and index.
    fn order_far(&mut self, ino: u64) -> Result<(), Memory>
        ensures refs { self.new.refs ≡ self.old.refs }
        ensures extrefs { OnOk result (AreExtrefs ino self.old.far self.new.extrefs) }
    {
        self.extrefs.clear();
        self.far.sort()?;
        for i in 0..self.far.len() {
            let hash = self.far.key(i).objectid;
            self.extrefs
                .add(key_of(ino, INODE_EXTREF, hash), self.far.body(i))?;
        }
        Ok(())
    }
}
