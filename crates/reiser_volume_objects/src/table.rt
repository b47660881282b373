ghost use Rattle.std.specs.Prelude.{◌≡◌, ℕ, ◌++◌, ◌∷◌, [], List, OnOk, map, filter, if◌then◌else◌};
ghost use Rattle.std.specs.Option.{MatchOption, option_map_or};
ghost use Rattle.indexmap.specs.IndexMap.{get};
ghost use Rattle.reiser_items.specs.Entries.{entry_value};
ghost use Rattle.reiser_walk.specs.Items.{ReiserItem};
ghost use Rattle.reiser_volume_objects.specs.Items.{stat_of_object, is_directory_at};
ghost use Rattle.reiser_volume_objects.specs.Keys.{object_key_of, items_of, same_key};
ghost use Rattle.reiser_volume_objects.specs.Leaves.{IsFirstLeaf};
ghost use Rattle.reiser_volume_objects.specs.Names.{is_listed, naming_by, namings_in};
ghost use Rattle.reiser_volume_objects.specs.Summary.{Summarises};
ghost use Rattle.reiser_volume_objects.specs.Table.{HasNoted, IsBehind, TellsItems, first_save_link};

use crate::kinds::is_directory_mode;
use crate::{LeafList, Naming, Object, ObjectKey, ObjectStat};
use fs_paths::fs_rows::Name;
use indexmap::IndexMap;
use reiser_bitmap::Memory;
use reiser_items::{BlockNo, Entries, Entry, ItemHead, ItemKind};
use std::alloc::Global;

/// The objects of a tree, and the names that its directories give.
#[derive(Drop)]
pub struct Objects {
    map: IndexMap<ObjectKey, Object>,
    pub namings: Vec<Naming>,
    pub save_link: Option<u32>,
    pub leaves: LeafList,
}

impl Objects {
    /// No objects.
    pub fn new(alloc: Global) -> Objects
        ensures { HasNoted result [] }
    {
        Objects {
            map: IndexMap::new(alloc),
            namings: Vec::new(alloc),
            save_link: None,
            leaves: LeafList::new(alloc),
        }
    }

    /// Notes one more item of the tree, which stands in a leaf.
    pub fn note(
        &mut self,
        alloc: Global,
        leaf: BlockNo,
        head: &ItemHead,
        body: &[u8],
    ) -> Result<(), Memory>
        ensures { (items : List ReiserItem) → HasNoted self.old items
            → IsBehind items (record { leaf = leaf; head = head.now; body = body.now })
            → OnOk result (HasNoted self.new (items ++ record { leaf = leaf; head = head.now; body = body.now } ∷ [])) }
    {
        let key = ObjectKey {
            dir: head.dir,
            object: head.object,
        };
        let place = self.leaves.add(leaf)?;
        let object = object_at(&self.map, key, place).with(leaf, head, body);
        self.map.insert(key, object)?;
        note_entries(&mut self.namings, alloc, leaf, head, body)?;
        self.save_link = self.save_link.or(save_link_in(head));
        Ok(())
    }

    /// The stat data of an object, if it has any.
    pub fn stat(&self, key: ObjectKey) -> Option<ObjectStat>
        ensures { (items : List ReiserItem) → HasNoted self.now items → result ≡ stat_of_object items key }
    {
        self.object_or_new(key).stat
    }

    /// Whether an object is a directory.
    pub fn is_directory(&self, key: ObjectKey) -> bool
        ensures { (items : List ReiserItem) → HasNoted self.now items → result ≡ is_directory_at items key }
    {
        match self.stat(key) {
            Some(stat) => is_directory_mode(stat.fields.mode),
            None => false,
        }
    }

    /// What is kept of an object, if anything is.
    pub fn object_or_new(&self, key: ObjectKey) -> Object
        ensures { (items : List ReiserItem) → HasNoted self.now items → Summarises result (items_of key items) }
    {
        object_at(&self.map, key, 0)
    }

    /// The number in `leaves` of the leaf that holds the first item of an object; None where it has no item.
    ///
    /// Where the items ascend by their keys, those of the object are all in this leaf and in some that follow it.
    pub fn first_leaf(&self, key: ObjectKey) -> Option<usize>
        ensures { (items : List ReiserItem) → HasNoted self.now items → MatchOption result (items_of key items ≡ []) (IsFirstLeaf key items) }
    {
        match self.map.get(&key) {
            Some(object) => Some(object.first),
            None => None,
        }
    }
}

/// What is kept of an object; where nothing is, one without items, whose first is to stand in the leaf of this number.
fn object_at(map: &IndexMap<ObjectKey, Object>, key: ObjectKey, place: usize) -> Object
    ensures summary { (items : List ReiserItem) → TellsItems (get same_key map.now key) items → Summarises result items }
    ensures first { result.first ≡ option_map_or (λ o. o.first) (get same_key map.now key) place }
{
    match map.get(&key) {
        Some(object) => *object,
        None => Object::new(place),
    }
}

/// The object of a save link.
fn save_link_in(head: &ItemHead) -> Option<u32>
    ensures { (leaf : ℕ) (body : List ℕ) → result ≡ first_save_link (record { leaf = leaf; head = head.now; body = body } ∷ []) }
{
    if head.dir == 0xFFFF_FFFF {
        Some(head.object)
    } else {
        None
    }
}

/// Notes the entries that count of a directory item; of another item, or one off the grammar of entries, none.
fn note_entries(
    namings: &mut Vec<Naming>,
    alloc: Global,
    leaf: BlockNo,
    head: &ItemHead,
    body: &[u8],
) -> Result<(), Memory>
    ensures { OnOk result (namings.new.items ≡ namings.old.items ++ namings_in (record { leaf = leaf; head = head.now; body = body.now })) }
{
    match head.kind {
        ItemKind::Directory => {}
        ItemKind::Stat | ItemKind::Indirect | ItemKind::Direct => return Ok(()),
    }
    let Some(entries) = Entries::read(body, head.count) else {
        return Ok(());
    };
    let dir = ObjectKey {
        dir: head.dir,
        object: head.object,
    };
    note_all(namings, alloc, leaf, dir, &entries)
}

/// Notes those entries of a directory that count.
fn note_all(
    namings: &mut Vec<Naming>,
    alloc: Global,
    leaf: BlockNo,
    dir: ObjectKey,
    entries: &Entries<'_>,
) -> Result<(), Memory>
    ensures { OnOk result (namings.new.items ≡ namings.old.items ++ map (naming_by leaf dir) (filter is_listed entries.now)) }
{
    for i in 0..entries.len() {
        note_entry(namings, alloc, leaf, dir, &entries.get(i))?;
    }
    Ok(())
}

/// Notes an entry of a directory, if it counts.
fn note_entry(
    namings: &mut Vec<Naming>,
    alloc: Global,
    leaf: BlockNo,
    dir: ObjectKey,
    entry: &Entry<'_>,
) -> Result<(), Memory>
    ensures { OnOk result (namings.new.items ≡ namings.old.items ++ (if is_listed (entry_value entry.now) then naming_by leaf dir (entry_value entry.now) ∷ [] else [])) }
{
    if !entry.visible || entry.offset == 1 || entry.offset == 2 {
        return Ok(());
    }
    namings.push(Naming {
        leaf,
        dir,
        target: ObjectKey {
            dir: entry.dir,
            object: entry.object,
        },
        name: Name::new(alloc, entry.name)?,
    })?;
    Ok(())
}
