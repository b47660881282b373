// The entries of directory indexes, in memory.
ghost use Rattle.std.specs.Prelude.{◌≡◌, ◌<◌, ◌++◌, ◌∷◌, [], length, slice_get, OnOk, Some};
ghost use Rattle.btr_check_rules.specs.btr_reader.btr_keys.DirEntry.{dir_entry_value};
ghost use Rattle.btr_check_names.specs.Lists.{entry_by};
ghost use Rattle.btr_check_rules.specs.Names.{IndexEntry};

use btr_check_rules::btr_reader::btr_reader_walk::Memory;
use btr_check_rules::btr_reader::btr_reader_walk::btr_keys::{DirEntry, Key};
use std::alloc::Global;
use std::marker::Model;

/// An entry, and where its letters stand among those of all.
#[derive(Clone, Copy, Debug)]
pub(crate) struct NameAt {
    pub dir: u64,
    pub index: u64,
    pub location: Key,
    pub start: usize,
    pub length: u8,
    pub kind: u8,
}

/// Entries of directory indexes, in the order in which they were added. Each takes 56 bytes and those of its name.
#[derive(Drop)]
pub struct NameList {
    names: Vec<NameAt>,
    letters: Vec<u8>,
}

impl Model for NameList {
    ghost use Rattle.std.specs.Prelude.{List, map, length, All};
    ghost use Rattle.btr_check_names.specs.Lists.{IsWithin, entry_in};
    ghost use Rattle.btr_check_rules.specs.Names.{IndexEntry};

    ghost Value = { List IndexEntry };

    ghost view = { λ l. map (entry_in l.letters.items) l.names.items };

    ghost invariant = { λ l. All (IsWithin (length l.letters.items)) l.names.items };
}

impl NameList {
    /// No entries.
    pub fn new(alloc: Global) -> NameList
        ensures { result ≡ [] }
    {
        NameList {
            names: Vec::new(alloc),
            letters: Vec::new(alloc),
        }
    }

    /// Adds an entry of a directory under an index, whose name has at most 255 bytes.
    pub fn add(&mut self, dir: u64, index: u64, e: &DirEntry<'_>) -> Result<(), Memory>
        requires short { length e.now.name.now < 256 }
        ensures { OnOk result (self.new ≡ self.old ++ record { entry = entry_by dir (dir_entry_value e.now); index = index } ∷ []) }
    {
        let start = self.letters.len();
        self.letters.extend_from_slice(e.name)?;
        let name = NameAt {
            dir,
            index,
            location: e.location,
            start,
            length: e.name.len() as u8,
            kind: e.kind,
        };
        self.names.push(name)?;
        Ok(())
    }

    /// How many entries there are.
    pub fn len(&self) -> usize
        ensures { result ≡ length self.now }
    {
        self.names.len()
    }

    /// Entry `i` but for its name.
    pub(crate) fn head(&self, i: usize) -> NameAt
        requires { i < length self.now }
        ensures dir { (e : IndexEntry) → slice_get self.now i ≡ Some e → result.dir ≡ e.entry.dir }
        ensures index { (e : IndexEntry) → slice_get self.now i ≡ Some e → result.index ≡ e.index }
        ensures location { (e : IndexEntry) → slice_get self.now i ≡ Some e → result.location ≡ e.entry.location }
        ensures kind { (e : IndexEntry) → slice_get self.now i ≡ Some e → result.kind ≡ e.entry.kind }
    {
        self.names[i]
    }

    /// The name of entry `i`.
    pub fn name(&self, i: usize) -> &[u8]
        requires { i < length self.now }
        ensures { (e : IndexEntry) → slice_get self.now i ≡ Some e → result.now ≡ e.entry.name }
    {
        let n = &self.names[i];
        &self.letters[n.start..n.start + n.length as usize]
    }
}
