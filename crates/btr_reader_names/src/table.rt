ghost use Rattle.std.specs.Prelude.{◌≡◌, ◌++◌, ◌∷◌, [], ℕ, List, Some, IfOk, OnOk, nat_eq, unwrap_or, if◌then◌else◌};
ghost use Rattle.indexmap.specs.IndexMap.{get};
ghost use Rattle.btr_reader_walk.specs.btr_keys.DirEntry.{dir_entry_value};
ghost use Rattle.btr_reader_walk.specs.Events.{TreeItem};
ghost use Rattle.btr_reader_names.specs.Inodes.{inode_on};
ghost use Rattle.btr_reader_names.specs.Links.{naming_of, own_naming};
ghost use Rattle.btr_reader_names.specs.Table.{AreNoted, HasNotedNames, own_off_form, told, kind_told, kind_found, is_dir};

use crate::dir_index::{DirIndex, OffForm};
use crate::entry::index_entry;
use crate::inodes::{InodeFound, kind_of_mode};
use btr_reader_walk::btrfs_format::key::{DIR_INDEX, INODE_ITEM};
use btr_reader_walk::{DirEntry, Inode, Key, Memory, Notes};
use fs_paths::fs_rows::{Kind, Name};
use indexmap::IndexMap;
use std::alloc::Global;

/// The inodes of a file tree, and the entries of its directories.
#[derive(Drop)]
pub struct NameTable {
    inodes: IndexMap<u64, InodeFound>,
    pub namings: Vec<DirIndex>,
    pub off_form: Vec<OffForm>,
}

impl NameTable {
    /// No names.
    pub fn new(alloc: Global) -> NameTable
        ensures { HasNotedNames result [] }
    {
        NameTable {
            inodes: IndexMap::new(alloc),
            namings: Vec::new(alloc),
            off_form: Vec::new(alloc),
        }
    }

    /// The inode item with this number, if there is one; of several the first.
    pub fn found(&self, ino: u64) -> Option<InodeFound>
        ensures { result ≡ told self.now ino }
    {
        self.inodes.get(&ino).copied()
    }

    /// The inode with this number, where its item is there and on the grammar.
    pub fn inode(&self, ino: u64) -> Option<Inode>
        ensures { (items : List TreeItem) → HasNotedNames self.now items → result ≡ inode_on items ino }
    {
        match self.found(ino) {
            Some(found) => found.inode,
            None => None,
        }
    }

    /// What the inode with this number is.
    pub fn kind(&self, ino: u64) -> Option<Kind>
        ensures { result ≡ kind_told self.now ino }
    {
        match self.found(ino) {
            Some(found) => kind_found(&found),
            None => None,
        }
    }

    pub fn is_directory(&self, ino: u64) -> bool
        ensures { result ≡ is_dir self.now ino }
    {
        match self.kind(ino) {
            Some(kind) => kind.is_directory(),
            None => false,
        }
    }
}

impl Notes for NameTable {
    ghost use Rattle.btr_reader_names.specs.Table.{HasNotedNames};

    ghost holds = { λ begun names items. HasNotedNames names items };

    /// Notes one more item of the tree. Items of other kinds are passed over.
    fn note(&mut self, alloc: Global, key: &Key, body: &[u8], leaf: u64) -> Result<(), Memory> {
        note_inode(&mut self.inodes, key, body, leaf)?;
        note_index(
            &mut self.namings,
            &mut self.off_form,
            alloc,
            key,
            body,
            leaf,
        )?;
        Ok(())
    }
}

/// What an inode item says.
pub fn kind_found(found: &InodeFound) -> Option<Kind>
    ensures { result ≡ kind_found found.now }
{
    match &found.inode {
        Some(inode) => kind_of_mode(inode.mode),
        None => None,
    }
}

/// Notes an item, if it is the first of an inode.
fn note_inode(
    inodes: &mut IndexMap<u64, InodeFound>,
    key: &Key,
    body: &[u8],
    leaf: u64,
) -> Result<(), Memory>
    ensures { (items : List TreeItem) (i : TreeItem) → i.key ≡ key.now → i.body ≡ body.now → i.leaf ≡ leaf → AreNoted (λ ino. get nat_eq inodes.old ino) items
        → OnOk result (AreNoted (λ ino. get nat_eq inodes.new ino) (items ++ i ∷ [])) }
{
    if key.kind != INODE_ITEM {
        return Ok(());
    }
    if key.offset != 0 {
        return Ok(());
    }
    let found = InodeFound {
        leaf,
        inode: Inode::read(body),
    };
    note_first(inodes, key.objectid, found)?;
    Ok(())
}

/// Keeps the first item of an inode.
fn note_first(
    inodes: &mut IndexMap<u64, InodeFound>,
    number: u64,
    found: InodeFound,
) -> Result<(), Memory>
    ensures { OnOk result ((ino : ℕ) → get nat_eq inodes.new ino ≡ (if nat_eq number ino then Some (unwrap_or (get nat_eq inodes.old number) found) else get nat_eq inodes.old ino)) }
{
    let first = inodes.get(&number).copied().unwrap_or(found);
    inodes.insert(number, first)?;
    Ok(())
}

/// Notes an item, if it is a directory index.
fn note_index(
    namings: &mut Vec<DirIndex>,
    off_form: &mut Vec<OffForm>,
    alloc: Global,
    key: &Key,
    body: &[u8],
    leaf: u64,
) -> Result<(), Memory>
    ensures namings { (i : TreeItem) → i.key ≡ key.now → i.body ≡ body.now → i.leaf ≡ leaf → OnOk result (namings.new.items ≡ namings.old.items ++ own_naming i) }
    ensures off_form { (i : TreeItem) → i.key ≡ key.now → i.body ≡ body.now → i.leaf ≡ leaf → OnOk result (off_form.new.items ≡ off_form.old.items ++ own_off_form i) }
{
    if key.kind != DIR_INDEX {
        return Ok(());
    }
    match index_entry(body) {
        Some(entry) => note_entry(namings, alloc, key, &entry, leaf),
        None => {
            off_form.push(OffForm {
                leaf,
                dir: key.objectid,
            })?;
            Ok(())
        }
    }
}

/// Notes an entry of a directory.
fn note_entry(
    namings: &mut Vec<DirIndex>,
    alloc: Global,
    key: &Key,
    entry: &DirEntry<'_>,
    leaf: u64,
) -> Result<(), Memory>
    ensures { (i : TreeItem) → i.key ≡ key.now → i.leaf ≡ leaf → OnOk result (namings.new.items ≡ namings.old.items ++ naming_of i (dir_entry_value entry.now) ∷ []) }
{
    let naming = naming_of(alloc, key, entry, leaf)?;
    namings.push(naming)?;
    Ok(())
}

/// The entry of a directory index with this key, which stands in the leaf at this address.
pub fn naming_of(
    alloc: Global,
    key: &Key,
    entry: &DirEntry<'_>,
    leaf: u64,
) -> Result<DirIndex, Memory>
    ensures { (i : TreeItem) → i.key ≡ key.now → i.leaf ≡ leaf → IfOk result (λ n. n ≡ naming_of i (dir_entry_value entry.now)) }
{
    Ok(DirIndex {
        leaf,
        dir: key.objectid,
        index: key.offset,
        location: entry.location,
        name: Name::new(alloc, entry.name)?,
    })
}
