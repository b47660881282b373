ghost use Rattle.std.specs.Prelude.{◌≡◌, ◌<◌, ◌^◌, length, map, slice_get, Some, Contains};
ghost use Rattle.std.specs.Option.{MatchOption};
ghost use Rattle.indexmap.specs.IndexMap.{keys, get};
ghost use Rattle.reiser_volume_objects.specs.declared.key.ObjectKey.{ObjectKey as KeyOf};
ghost use Rattle.reiser_volume_objects.specs.Keys.{same_key};
ghost use Rattle.reiser_volume_names.specs.Known.{is_known};
ghost use Rattle.reiser_volume_names.specs.Passes.{is_link, link_list};

use indexmap::IndexMap;
use reiser_bitmap::Bitmap;
use reiser_super::Super;
use reiser_volume_objects::{Naming, ObjectKey, ObjectStat, Objects, is_followed};

/// A ReiserFS volume that keeps all rules: what is known of it without further reads.
///
/// Its named objects stand in a table, ascending by the two numbers of their keys, and are told by their places there.
/// What no name reaches is not in it.
#[derive(Drop)]
pub struct Volume {
    pub(crate) sup: Super,
    pub(crate) bitmap: Bitmap,
    pub(crate) objects: Objects,
    pub(crate) named: IndexMap<ObjectKey, ObjectStat>,
    /// The places of the links among the entries.
    pub(crate) links: Vec<usize>,
    ghost at: { map (slice_get objects.namings.items) links.items ≡ map (λ n. Some n) (link_list (is_known named) objects.namings.items) },
}

impl Volume {
    /// The fields of the superblock.
    pub fn sup(&self) -> &Super
        ensures { result.now ≡ self.now.sup }
    {
        &self.sup
    }

    /// The blocks that are marked as used.
    pub fn bitmap(&self) -> &Bitmap
        ensures { result.now ≡ self.now.bitmap }
    {
        &self.bitmap
    }

    /// How many objects the root reaches by names, itself among them.
    pub fn count(&self) -> usize
        ensures exact { result ≡ length (keys self.now.named) }
        ensures small { result < 2 ^ 63 }
    {
        self.named.len()
    }

    /// The key of the named object at this place.
    pub fn object(&self, i: usize) -> ObjectKey
        requires { i < length (keys self.now.named) }
        ensures { slice_get (keys self.now.named) i ≡ Some result }
    {
        self.named.keys().as_slice()[i]
    }

    /// The stat data of the named object at this place, with the version of its item.
    pub fn stat(&self, i: usize) -> &ObjectStat
        requires { i < length (keys self.now.named) }
        ensures { (key : KeyOf) → slice_get (keys self.now.named) i ≡ Some key → get same_key self.now.named key ≡ Some result.now }
    {
        let (_, stat) = self.named.get_index(i).unwrap();
        stat
    }

    /// The place of a named object; None where the root does not reach it.
    pub fn index_of(&self, key: ObjectKey) -> Option<usize>
        ensures { MatchOption result (¬ Contains (keys self.now.named) key) (λ i. slice_get (keys self.now.named) i ≡ Some key) }
    {
        self.named.get_index_of(&key)
    }

    /// What the items of the tree say: of each object, named or not, with the entries of the directories in the order
    /// of their items.
    pub fn objects(&self) -> &Objects
        ensures { result.now ≡ self.now.objects }
    {
        &self.objects
    }

    /// Whether an entry is a link: one that gives a named object a name. The private directory of the root is no part
    /// of the tree.
    pub fn is_link(&self, naming: &Naming) -> bool
        ensures { result ≡ is_link (is_known self.now.named) naming.now }
    {
        is_link(&self.named, naming)
    }
}

/// Whether an entry is a link, by the table of the named objects.
pub fn is_link(named: &IndexMap<ObjectKey, ObjectStat>, naming: &Naming) -> bool
    ensures { result ≡ is_link (is_known named.now) naming.now }
{
    is_followed(naming) && named.contains_key(&naming.dir)
}
