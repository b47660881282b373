// The second walk over a file tree: dir items and the references of inodes, beside its dir indexes.
ghost use Rattle.std.specs.Prelude.{◌≡◌, ◌++◌, ℕ, List, [], map, IfErr, IfOk, MatchResult};
ghost use Rattle.std.specs.List.Sorted.{IsPermutation};
ghost use Rattle.std.specs.Option.{MatchOption};
ghost use Rattle.btr_check_rules.specs.btr_reader.btr_keys.DirEntry.{dir_items_of};
ghost use Rattle.btr_check_rules.specs.btr_reader.btr_keys.Extref.{extrefs_of};
ghost use Rattle.btr_check_rules.specs.btr_reader.btr_keys.InodeRef.{inode_refs_of};
ghost use Rattle.btr_check_rules.specs.btr_reader.btr_reader_walk.Events.{TreeItem};
ghost use Rattle.btr_check_rules.specs.Names.{BackName, NamedEntry, or_none};
ghost use Rattle.btr_check_rules.specs.Sound.{Files, part_number};
ghost use Rattle.btr_check_names.specs.Lists.{entry_by};
ghost use Rattle.btr_check_names.specs.Table.{AreNames, NamesMet, hashed_of, told_of};
ghost use Rattle.btr_check_walk.specs.Parts.{IsVisitAnswer, TellsPart};
ghost use Rattle.btr_check_walk.specs.command_answers.declared.answer.Answer.TheVariants as answers;
ghost use Rattle.btr_check_files.specs.Pass.{HasNoted, NotesBoth, NotesEntries, NotesNames, TellOther, TellSame, TellsOther};
ghost use Rattle.btr_check_files.specs.Told.{extref_name, hashed_by, ref_name, told_by};

use btr_check_names::{NameList, NameTable};
use btr_check_rules::btr_reader::btr_reader_walk::btr_keys::btrfs_format::key::{
    DIR_ITEM, INODE_EXTREF, INODE_REF,
};
use btr_check_rules::btr_reader::btr_reader_walk::btr_keys::{DirItems, Extrefs, InodeRefs};
use btr_check_rules::btr_reader::btr_reader_walk::{Key, Memory};
use btr_check_walk::{Answer, ItemVisitor, SoundPart};
use std::alloc::Global;

/// Notes the entries of a dir item of this directory. False where one of them is told by no directory index, or was noted
/// before.
fn note_entries(table: &mut NameTable, dir: u64, entries: &DirItems<'_>) -> bool
    ensures entries { table.new.entries ≡ table.old.entries }
    ensures told { told_of table.new ≡ told_of table.old }
    ensures noted { AreNames table.old.entries → (met : List NamedEntry) → IsPermutation (hashed_of table.old) met
        → NotesEntries table.old.entries table.new (met ++ map (entry_by dir) entries.now) dir result }
{
    for i in 0..entries.len() {
        if !table.note_hashed(dir, &entries.get(i)) {
            return false;
        }
    }
    true
}

/// Notes the names that an inode has in a directory. False where one of them is told by no directory index, or was noted
/// before.
fn note_refs(table: &mut NameTable, inode: u64, dir: u64, names: &InodeRefs<'_>) -> bool
    ensures entries { table.new.entries ≡ table.old.entries }
    ensures hashed { hashed_of table.new ≡ hashed_of table.old }
    ensures noted { AreNames table.old.entries → (met : List BackName) → IsPermutation (told_of table.old) met
        → NotesNames table.old.entries table.new (met ++ map (ref_name inode dir) names.now) inode result }
{
    for i in 0..names.len() {
        let name = names.get(i);
        if !table.note_told(inode, dir, name.index, name.name) {
            return false;
        }
    }
    true
}

/// The same of names in any directories.
fn note_extrefs(table: &mut NameTable, inode: u64, names: &Extrefs<'_>) -> bool
    ensures entries { table.new.entries ≡ table.old.entries }
    ensures hashed { hashed_of table.new ≡ hashed_of table.old }
    ensures noted { AreNames table.old.entries → (met : List BackName) → IsPermutation (told_of table.old) met
        → NotesNames table.old.entries table.new (met ++ map (extref_name inode) names.now) inode result }
{
    for i in 0..names.len() {
        let name = names.get(i);
        if !table.note_told(inode, name.parent, name.index, name.name) {
            return false;
        }
    }
    true
}

/// Notes what the body of a dir item tells. One off its grammar tells nothing.
fn note_dir_item(table: &mut NameTable, dir: u64, body: &[u8]) -> bool
    ensures entries { table.new.entries ≡ table.old.entries }
    ensures told { told_of table.new ≡ told_of table.old }
    ensures noted { AreNames table.old.entries → (met : List NamedEntry) → IsPermutation (hashed_of table.old) met
        → NotesEntries table.old.entries table.new (met ++ map (entry_by dir) (or_none (dir_items_of body.now))) dir result }
{
    match DirItems::read(body) {
        Some(entries) => note_entries(table, dir, &entries),
        None => true,
    }
}

/// The same of an inode ref.
fn note_inode_ref(table: &mut NameTable, inode: u64, dir: u64, body: &[u8]) -> bool
    ensures entries { table.new.entries ≡ table.old.entries }
    ensures hashed { hashed_of table.new ≡ hashed_of table.old }
    ensures noted { AreNames table.old.entries → (met : List BackName) → IsPermutation (told_of table.old) met
        → NotesNames table.old.entries table.new (met ++ map (ref_name inode dir) (or_none (inode_refs_of body.now))) inode result }
{
    match InodeRefs::read(body) {
        Some(names) => note_refs(table, inode, dir, &names),
        None => true,
    }
}

/// The same of an extref.
fn note_extref(table: &mut NameTable, inode: u64, body: &[u8]) -> bool
    ensures entries { table.new.entries ≡ table.old.entries }
    ensures hashed { hashed_of table.new ≡ hashed_of table.old }
    ensures noted { AreNames table.old.entries → (met : List BackName) → IsPermutation (told_of table.old) met
        → NotesNames table.old.entries table.new (met ++ map (extref_name inode) (or_none (extrefs_of body.now))) inode result }
{
    match Extrefs::read(body) {
        Some(names) => note_extrefs(table, inode, &names),
        None => true,
    }
}

/// Notes what an item tells of names: an entry of a directory, or a name of an inode. Others tell nothing.
fn note_item(table: &mut NameTable, key: &Key, body: &[u8]) -> bool
    ensures entries { table.new.entries ≡ table.old.entries }
    ensures noted { AreNames table.old.entries → (hashed : List NamedEntry) (told : List BackName) → IsPermutation (hashed_of table.old) hashed → IsPermutation (told_of table.old) told
        → NotesBoth table.old.entries table.new (hashed ++ hashed_by (key.now, body.now)) (told ++ told_by (key.now, body.now)) key.now.objectid result }
{
    if key.kind == DIR_ITEM {
        note_dir_item(table, key.objectid, body)
    } else if key.kind == INODE_REF {
        note_inode_ref(table, key.objectid, key.offset, body)
    } else if key.kind == INODE_EXTREF {
        note_extref(table, key.objectid, body)
    } else {
        true
    }
}

/// The names of a file tree, as its dir items and the references of its inodes tell them once more.
///
/// It is given all items of the tree, and then tells whether each entry was met again. No two entries of the table have
/// one name in a directory, and each has an index of 1 or more.
#[derive(Drop)]
pub struct NamePass {
    table: NameTable,
}

impl NamePass {
    /// Nothing of these entries was met once more. It takes 10 bytes for each.
    pub fn new(alloc: Global, list: NameList) -> Result<NamePass, Memory>
        ensures begun { IfOk result (λ pass. AreNames list → HasNoted pass.table pass.table []) }
        ensures entries { IfOk result (λ pass. pass.table.entries ≡ list) }
    {
        let table = NameTable::new(alloc, list)?;
        Ok(NamePass { table })
    }

    /// The entries.
    pub fn list(&self) -> &NameList
        ensures { result.now ≡ self.now.table.entries }
    {
        self.table.list()
    }

    /// An inode with an entry or a name that was not met again, behind the last item of the tree.
    fn unmet(&self) -> Option<u64>
        ensures { (begun : NamesMet) (items : List TreeItem) → HasNoted begun self.now.table items
            → MatchOption result (TellSame begun.entries items) (TellOther begun.entries items (part_number Files)) }
    {
        match self.table.without_item() {
            Some(dir) => Some(dir),
            None => self.table.without_ref(),
        }
    }

    /// Goes on where all was met again, behind the last item of the tree; else part 2 fails at an inode.
    pub fn finish(&self) -> Result<(), Answer>
        ensures told { (begun : NamesMet) (items : List TreeItem) → HasNoted begun self.now.table items
            → MatchResult result (λ _. TellSame begun.entries items) (TellsPart (TellOther begun.entries items)) }
        ensures answers { IfErr result (λ e. (ino : ℕ) × (e ≡ answers.NotSound (part_number Files) ino)) }
    {
        SoundPart::Files.ask_none(self.unmet())
    }
}

impl ItemVisitor for NamePass {
    ghost holds = { λ begun now items. HasNoted begun.table now.table items };

    ghost refuses = { λ begun items part ino. TellsOther begun.table.entries items part ino };

    fn visit(&mut self, _alloc: Global, key: &Key, body: &[u8], _leaf: u64) -> Result<(), Answer> {
        SoundPart::Files.ask(note_item(&mut self.table, key, body), key.objectid)
    }
}
