ghost use Rattle.std.specs.Prelude.{◌≡◌, ◌<◌, ◌^◌, length, slice_get, Some, Contains};
ghost use Rattle.indexmap.specs.IndexMap.{keys};
ghost use Rattle.reiser_bitmap.specs.outside.History.{Image};
ghost use Rattle.reiser_volume_objects.specs.declared.naming.Naming.{Naming as NamingOf};
ghost use Rattle.reiser_volume.specs.Opened.{IsOpened, links_in};

use crate::Volume;
use reiser_volume_objects::ObjectKey;

/// An entry that gives a named object a name.
#[derive(Clone, Copy)]
pub struct Link<'a> {
    /// The place of the directory that it stands in.
    pub dir: usize,
    /// The place of the object that it names.
    pub object: usize,
    /// The name.
    pub name: &'a [u8],
}

impl Volume {
    /// How many links the volume has: entries of named directories that are not of the root's private directory.
    pub fn link_count(&self) -> usize
        ensures exact { result ≡ length (links_in self.now) }
        ensures small { result < 2 ^ 63 }
    {
        self.links.len()
    }

    /// The link of this number, in the order of the tree's items.
    pub fn link(&self, i: usize) -> Link<'_>
        requires { i < length (links_in self.now) }
        ensures name { (n : NamingOf) → slice_get (links_in self.now) i ≡ Some n → result.name.now ≡ n.name }
        ensures ends { (image : Image) → IsOpened self.now image → (n : NamingOf) → slice_get (links_in self.now) i ≡ Some n →
            (slice_get (keys self.now.named) result.dir ≡ Some n.dir) × (slice_get (keys self.now.named) result.object ≡ Some n.target) }
    {
        let naming = &self.objects.namings[self.links[i]];
        Link {
            dir: self.place_of(naming.dir),
            object: self.place_of(naming.target),
            name: naming.name.bytes(),
        }
    }

    /// The place of a named object.
    fn place_of(&self, key: ObjectKey) -> usize
        ensures { Contains (keys self.now.named) key → slice_get (keys self.now.named) result ≡ Some key }
    {
        self.index_of(key).unwrap_or(0)
    }
}
