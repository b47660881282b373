ghost use Rattle.std.specs.Prelude.{◌≡◌, ◌<◌, ◌^◌, ℕ, List, length, slice_get, Some};
ghost use Rattle.indexmap.specs.IndexMap.{keys};
ghost use Rattle.reiser_bitmap.specs.outside.History.{Image};
ghost use Rattle.reiser_volume_objects.specs.declared.key.ObjectKey.{ObjectKey as KeyOf};
ghost use Rattle.reiser_volume_objects.specs.Keys.{root, same_key};
ghost use Rattle.reiser_volume_names.specs.Names.{ino_of_key};
ghost use Rattle.reiser_volume.specs.Numbers.{by_inode, AreNumbered};
ghost use Rattle.reiser_volume.specs.Opened.{IsOpened};

use crate::Volume;
use reiser_volume_objects::ROOT;

/// Which inode is which named object of a volume: 256 is the root, and 257 and up are the others in the order of their keys.
#[derive(Clone, Copy, Debug)]
pub struct InodeNumbers {
    /// The place of the root.
    root: usize,
}

impl InodeNumbers {
    /// Those of a volume.
    pub fn new(volume: &Volume) -> InodeNumbers
        ensures numbered { (image : Image) → IsOpened volume.now image → AreNumbered result.root (keys volume.now.named) }
        ensures within { 0 < length (keys volume.now.named) → result.root < length (keys volume.now.named) }
    {
        // There are below 2^63 objects, so each inode fits 64 bits.
        let _count = volume.count();
        InodeNumbers {
            root: volume.index_of(ROOT).unwrap_or(0),
        }
    }

    /// The inode of the object at a place.
    pub fn inode(self, place: usize) -> u64
        ensures { (all : List KeyOf) (key : KeyOf) → AreNumbered self.root all → slice_get all place ≡ Some key → result ≡ ino_of_key all key }
    {
        if place == self.root {
            256
        } else if place < self.root {
            (place as u64).saturating_add(257)
        } else {
            (place as u64).saturating_add(256)
        }
    }

    /// The place of the object that is inode number `n`, counted from 0 for the root.
    pub fn place(self, n: usize) -> usize
        ensures place { (all : List KeyOf) → AreNumbered self.root all → n < length all → slice_get all result ≡ slice_get (by_inode all) n }
        ensures within { (count : ℕ) → self.root < count → n < count → result < count }
    {
        if n == 0 {
            self.root
        } else if n <= self.root {
            n - 1
        } else {
            n
        }
    }

    /// Whether the object at a place is the root.
    pub fn is_root(self, place: usize) -> bool
        ensures { (all : List KeyOf) (key : KeyOf) → AreNumbered self.root all → slice_get all place ≡ Some key → result ≡ same_key key root }
    {
        place == self.root
    }
}

impl Volume {
    /// The inode, on the converted volume, of the named object at a place. [`InodeNumbers`] knows the same without a look-up for each.
    pub fn inode_at(&self, place: usize) -> u64
        ensures { (image : Image) → IsOpened self.now image → (key : KeyOf) → slice_get (keys self.now.named) place ≡ Some key → result ≡ ino_of_key (keys self.now.named) key }
    {
        InodeNumbers::new(self).inode(place)
    }
}
