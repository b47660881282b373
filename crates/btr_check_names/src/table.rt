// The names of a tree, and which of them were met again.
ghost use Rattle.std.specs.Prelude.{◌≡◌, ◌≢◌, ◌<◌, ◌&&◌, ◌==◌, ℕ, true, false, List, [], length, replicate, slice_get, AllPairs, IfOk, Some};
ghost use Rattle.std.specs.Bool.{Decides};
ghost use Rattle.std.specs.List.Sorted.{IsPermutation};
ghost use Rattle.std.specs.Option.{MatchOption};
ghost use Rattle.btr_check_rules.specs.btr_reader.btr_keys.DirEntry.{dir_entry_value};
ghost use Rattle.btr_check_names.specs.Lists.{entry_by};
ghost use Rattle.btr_check_names.specs.Marks.{Notes};
ghost use Rattle.btr_check_rules.specs.Recount.{PairsAt};
ghost use Rattle.btr_check_rules.specs.Names.{BackName, DifferInName, IndexEntry, NamedEntry, dir_of, entries_in, names_inode_item, names_of, own_name};
ghost use Rattle.btr_check_names.specs.Table.{AreNames, HasName, IsNamedAt, NamesMet, NoneNamedBut, given, hashed_of, named, told_of, unmet};

use crate::hashes::HashIndex;
use crate::name_list::NameList;
use btr_check_rules::btr_reader::btr_reader_walk::Memory;
use btr_check_rules::btr_reader::btr_reader_walk::btr_keys::btrfs_format::key::INODE_ITEM;
use btr_check_rules::btr_reader::btr_reader_walk::btr_keys::btrfs_format::object::FIRST_FREE_OBJECTID;
use btr_check_rules::btr_reader::btr_reader_walk::btr_keys::{DirEntry, Key};
use castagnoli::extref_hash;
use std::alloc::Global;
use std::marker::Model;

/// The entries of the directory indexes of a tree, and which of them were met again: among the dir items, and among the
/// references of inodes. Beside its list it takes 10 bytes for each.
#[derive(Drop)]
pub struct NameTable {
    list: NameList,
    index: HashIndex,
    hashed: Vec<bool>,
    told: Vec<bool>,
    own: bool,
}

impl Model for NameTable {
    ghost use Rattle.btr_check_names.specs.Table.{IsIndexed, NamesMet};

    ghost Value = { NamesMet };

    ghost view = { λ t. record { entries = t.list; hashed = t.hashed.items; told = t.told.items; own = t.own } };

    ghost invariant = { λ t. IsIndexed t.list t.index t.hashed.items t.told.items };
}

impl NameTable {
    /// A table of these entries, none of which was met again.
    pub fn new(alloc: Global, list: NameList) -> Result<NameTable, Memory>
        ensures { IfOk result (λ table. table ≡ unmet list) }
    {
        let index = HashIndex::of(alloc, &list)?;
        let hashed = no_marks(alloc, list.len())?;
        let told = no_marks(alloc, list.len())?;
        Ok(NameTable {
            list,
            index,
            hashed,
            told,
            own: false,
        })
    }

    /// The entries.
    pub fn list(&self) -> &NameList
        ensures { result.now ≡ self.now.entries }
    {
        &self.list
    }

    /// Whether entry `i` has this name in this directory.
    fn has_name(&self, i: usize, dir: u64, name: &[u8]) -> bool
        requires { i < length self.now.entries }
        ensures { (e : IndexEntry) → slice_get self.now.entries i ≡ Some e → Decides result (HasName dir name.now e) }
    {
        self.list.head(i).dir == dir && self.list.name(i) == name
    }

    /// Whether entry `i` names this, as being of this kind.
    fn tells(&self, i: usize, e: &DirEntry<'_>) -> bool
        requires { i < length self.now.entries }
        ensures { (x : IndexEntry) → slice_get self.now.entries i ≡ Some x → Decides result ((x.entry.location ≡ e.now.location) × (x.entry.kind ≡ e.now.kind)) }
    {
        let n = self.list.head(i);
        same_key(&n.location, &e.location) && n.kind == e.kind
    }

    /// Whether entry `i` names this inode under this index.
    fn names(&self, i: usize, inode: u64, index: u64) -> bool
        requires { i < length self.now.entries }
        ensures { (x : IndexEntry) → slice_get self.now.entries i ≡ Some x → Decides result ((names_inode_item x ≡ true) × (x.entry.location.objectid ≡ inode) × (x.index ≡ index)) }
    {
        let n = self.list.head(i);
        names_inode(&n.location) && n.location.objectid == inode && n.index == index
    }

    /// The number of an entry with this name in this directory, but not that of the number `but`.
    fn find_but(&self, but: usize, dir: u64, name: &[u8]) -> Option<usize>
        ensures { MatchOption result (NoneNamedBut self.now.entries but dir name.now) (λ i. (i ≢ but) × IsNamedAt self.now.entries dir name.now i) }
    {
        for k in self.index.under(extref_hash(dir, name)) {
            let i = k.number as usize;
            if i != but && self.has_name(i, dir, name) {
                return Some(i);
            }
        }
        None
    }

    /// A directory in which a name stands twice, if there is one.
    pub fn repeated(&self) -> Option<u64>
        ensures { MatchOption result (AllPairs DifferInName self.now.entries) (λ dir. ¬ PairsAt dir_of dir DifferInName self.now.entries) }
    {
        for i in 0..self.list.len() {
            let dir = self.list.head(i).dir;
            if self.find_but(i, dir, self.list.name(i)).is_some() {
                return Some(dir);
            }
        }
        None
    }

    /// Notes an entry of a dir item in this directory. False where no directory index tells the same, or where it was
    /// noted before.
    pub fn note_hashed(&mut self, dir: u64, e: &DirEntry<'_>) -> bool
        ensures entries { self.new.entries ≡ self.old.entries }
        ensures told { told_of self.new ≡ told_of self.old }
        ensures noted { AreNames self.old.entries → (met : List NamedEntry) → IsPermutation (hashed_of self.old) met
            → Notes (named self.old.entries) (hashed_of self.new) met (entry_by dir (dir_entry_value e.now)) result }
    {
        match self.find_but(self.list.len(), dir, e.name) {
            Some(i) => self.mark_hashed(i, e),
            None => false,
        }
    }

    /// Notes a name that a reference of an inode tells. False where no directory index tells the same, or where it was
    /// noted before.
    pub fn note_told(&mut self, inode: u64, dir: u64, index: u64, name: &[u8]) -> bool
        ensures entries { self.new.entries ≡ self.old.entries }
        ensures hashed { hashed_of self.new ≡ hashed_of self.old }
        ensures noted { AreNames self.old.entries → (met : List BackName) → IsPermutation (told_of self.old) met
            → Notes (given self.old.entries) (told_of self.new) met (record { inode = inode; dir = dir; index = index; name = name.now }) result }
    {
        if is_own_name(inode, dir, index, name) {
            return self.note_own();
        }
        match self.find_but(self.list.len(), dir, name) {
            Some(i) => self.mark_told(i, inode, index),
            None => false,
        }
    }

    /// Notes the name of the root directory in itself.
    fn note_own(&mut self) -> bool
        ensures entries { self.new.entries ≡ self.old.entries }
        ensures hashed { hashed_of self.new ≡ hashed_of self.old }
        ensures noted { AreNames self.old.entries → (met : List BackName) → IsPermutation (told_of self.old) met
            → Notes (given self.old.entries) (told_of self.new) met own_name result }
    {
        if self.own {
            return false;
        }
        self.own = true;
        true
    }

    /// Marks entry `i` as met among the dir items, if it tells what this one does, and was not met before.
    fn mark_hashed(&mut self, i: usize, e: &DirEntry<'_>) -> bool
        requires { i < length self.old.entries }
        ensures entries { self.new.entries ≡ self.old.entries }
        ensures told { told_of self.new ≡ told_of self.old }
        ensures noted { AreNames self.old.entries → (dir : ℕ) → IsNamedAt self.old.entries dir e.now.name.now i → (met : List NamedEntry) → IsPermutation (hashed_of self.old) met
            → Notes (named self.old.entries) (hashed_of self.new) met (entry_by dir (dir_entry_value e.now)) result }
    {
        if !self.tells(i, e) || self.hashed[i] {
            return false;
        }
        self.hashed[i] = true;
        true
    }

    /// Marks entry `i` as met among the references of inodes, if it names this inode under this index, and was not met
    /// before.
    fn mark_told(&mut self, i: usize, inode: u64, index: u64) -> bool
        requires { i < length self.old.entries }
        ensures entries { self.new.entries ≡ self.old.entries }
        ensures hashed { hashed_of self.new ≡ hashed_of self.old }
        ensures noted { AreNames self.old.entries → (dir : ℕ) (name : List ℕ) → IsNamedAt self.old.entries dir name i → record { inode = inode; dir = dir; index = index; name = name } ≢ own_name → (met : List BackName) → IsPermutation (told_of self.old) met
            → Notes (given self.old.entries) (told_of self.new) met (record { inode = inode; dir = dir; index = index; name = name }) result }
    {
        if !self.names(i, inode, index) || self.told[i] {
            return false;
        }
        self.told[i] = true;
        true
    }

    /// A directory with an entry that was not met among the dir items, if there is one.
    pub fn without_item(&self) -> Option<u64>
        ensures { (met : List NamedEntry) → IsPermutation (hashed_of self.now) met
            → MatchOption result (IsPermutation (named self.now.entries) met) (λ dir. ¬ IsPermutation (entries_in dir (named self.now.entries)) (entries_in dir met)) }
    {
        for i in 0..self.list.len() {
            if !self.hashed[i] {
                return Some(self.list.head(i).dir);
            }
        }
        None
    }

    /// An inode with a name that was not met among the references of inodes, if there is one.
    pub fn without_ref(&self) -> Option<u64>
        ensures { (met : List BackName) → IsPermutation (told_of self.now) met
            → MatchOption result (IsPermutation (given self.now.entries) met) (λ ino. ¬ IsPermutation (names_of ino (given self.now.entries)) (names_of ino met)) }
    {
        if !self.own {
            return Some(FIRST_FREE_OBJECTID);
        }
        for i in 0..self.list.len() {
            let location = self.list.head(i).location;
            if names_inode(&location) && !self.told[i] {
                return Some(location.objectid);
            }
        }
        None
    }
}

/// So many marks that are not set.
fn no_marks(alloc: Global, count: usize) -> Result<Vec<bool>, Memory>
    ensures { IfOk result (λ marks. marks.items ≡ replicate count false) }
{
    let mut marks = Vec::new(alloc);
    marks.resize(count, false)?;
    Ok(marks)
}

/// Whether two keys are the same.
fn same_key(a: &Key, b: &Key) -> bool
    ensures { Decides result (a.now ≡ b.now) }
{
    a.objectid == b.objectid && a.kind == b.kind && a.offset == b.offset
}

/// Whether a key is that of an inode.
pub fn names_inode(location: &Key) -> bool
    ensures { result ≡ ((location.now.kind == INODE_ITEM) && (location.now.offset == 0)) }
{
    location.kind == INODE_ITEM && location.offset == 0
}

/// Whether a name is that of the root directory in itself.
fn is_own_name(inode: u64, dir: u64, index: u64, name: &[u8]) -> bool
    ensures { Decides result (record { inode = inode; dir = dir; index = index; name = name.now } ≡ own_name) }
{
    inode == FIRST_FREE_OBJECTID
        && dir == FIRST_FREE_OBJECTID
        && index == 0
        && name == b"..".as_slice()
}
