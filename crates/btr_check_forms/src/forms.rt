// The items of file trees, on their grammars.
ghost use Rattle.std.specs.Prelude.{◌≡◌, ◌≢◌, ◌∷◌, [], All, IsTrue, false, is_some, length};
ghost use Rattle.btr_check_rules.specs.btr_reader.btr_keys.FileExtent.{file_extent_of};
ghost use Rattle.btr_check_rules.specs.btr_reader.btr_keys.Inode.{inode_of};
ghost use Rattle.btr_check_rules.specs.btr_reader.btr_keys.InodeRef.{inode_refs_of};
ghost use Rattle.std.specs.Bool.{Decides};
ghost use Rattle.btr_check_rules.specs.btr_reader.btr_keys.DirEntry.{DirEntryValue, dir_entry_value};
ghost use Rattle.btr_check_rules.specs.btr_reader.btr_keys.Extref.{extref_value};
ghost use Rattle.btr_check_rules.specs.Names.{IsEntry, IsInodeNumber, IsOnForm};
ghost use Rattle.btr_check_forms.specs.Forms.{IsDirIndex, IsDirItem, IsExtref, IsHashed, IsTarget, IsTold};

use crate::attributes::are_attributes;
use btr_check_rules::btr_reader::btr_reader_walk::btr_keys::btrfs_format::flag::FT_SYMLINK;
use btr_check_rules::btr_reader::btr_reader_walk::btr_keys::btrfs_format::key::{
    DIR_INDEX, DIR_ITEM, EXTENT_DATA, INODE_EXTREF, INODE_ITEM, INODE_REF, ORPHAN_ITEM, ROOT_ITEM,
    XATTR_ITEM,
};
use btr_check_rules::btr_reader::btr_reader_walk::btr_keys::btrfs_format::object::FIRST_FREE_OBJECTID;
use btr_check_rules::btr_reader::btr_reader_walk::btr_keys::{
    DirEntry, DirItems, Extref, Extrefs, FileExtent, Inode, InodeRefs,
};
use btr_check_rules::btr_reader::btr_reader_walk::{Key, is_file_tree};
use castagnoli::{extref_hash, name_hash};

/// Whether an inode may have this number.
pub fn is_inode_number(ino: u64) -> bool
    ensures { Decides result (IsInodeNumber ino) }
{
    FIRST_FREE_OBJECTID <= ino && ino as u128 + FIRST_FREE_OBJECTID as u128 <= 1 << 64
}

/// Whether a key is that of an inode.
fn names_inode(location: &Key) -> bool
    ensures { Decides result ((location.now.kind ≡ INODE_ITEM) × (location.now.offset ≡ 0)) }
{
    location.kind == INODE_ITEM && location.offset == 0
}

/// Whether an entry names something that may be there: an inode, or a subvolume.
fn names_target(location: &Key) -> bool
    ensures { Decides result (IsTarget location.now) }
{
    if names_inode(location) {
        is_inode_number(location.objectid)
    } else {
        location.kind == ROOT_ITEM && is_file_tree(location.objectid)
    }
}

/// Whether an entry has no data, and names an inode or a subvolume with a type of these.
fn is_entry(e: &DirEntry<'_>) -> bool
    ensures { Decides result (IsEntry (dir_entry_value e.now)) }
{
    let names_target = names_target(&e.location);
    e.data_length == 0 && 1 <= e.kind && e.kind <= FT_SYMLINK && names_target
}

/// The same of one under the hash of its name.
fn is_hashed(hash: u64, e: &DirEntry<'_>) -> bool
    ensures { Decides result (IsHashed hash (dir_entry_value e.now)) }
{
    let is_entry = is_entry(e);
    name_hash(e.name) as u64 == hash && is_entry
}

/// Whether all entries of a dir item stand under the hash of their names.
fn are_hashed(hash: u64, entries: &DirItems<'_>) -> bool
    ensures { Decides result (All (IsHashed hash) entries.now) }
{
    for i in 0..entries.len() {
        if !is_hashed(hash, &entries.get(i)) {
            return false;
        }
    }
    true
}

/// Whether the body of a dir item is on its grammar, under the hash of its names.
fn is_dir_item(hash: u64, body: &[u8]) -> bool
    ensures { Decides result (IsDirItem hash body.now) }
{
    match DirItems::read(body) {
        Some(entries) => are_hashed(hash, &entries),
        None => false,
    }
}

/// Whether there is one entry alone.
fn is_one(entries: &DirItems<'_>) -> bool
    ensures one { length entries.now ≢ 1 → result ≡ false }
    ensures entry { (e : DirEntryValue) → entries.now ≡ e ∷ [] → Decides result (IsEntry e) }
{
    if entries.len() != 1 {
        return false;
    }
    is_entry(&entries.get(0))
}

/// Whether the body of a dir index is one entry.
fn is_dir_index(body: &[u8]) -> bool
    ensures { Decides result (IsDirIndex body.now) }
{
    match DirItems::read(body) {
        Some(entries) => is_one(&entries),
        None => false,
    }
}

/// Whether a name of an extref stands under its hash.
fn is_told(hash: u64, e: &Extref<'_>) -> bool
    ensures { Decides result (IsTold hash (extref_value e.now)) }
{
    extref_hash(e.parent, e.name) as u64 == hash
}

/// Whether all names of an extref stand under their hash.
fn are_told(hash: u64, names: &Extrefs<'_>) -> bool
    ensures { Decides result (All (IsTold hash) names.now) }
{
    for i in 0..names.len() {
        if !is_told(hash, &names.get(i)) {
            return false;
        }
    }
    true
}

/// Whether the body of an extref is on its grammar, under the hash of its names.
fn is_extref(hash: u64, body: &[u8]) -> bool
    ensures { Decides result (IsExtref hash body.now) }
{
    match Extrefs::read(body) {
        Some(names) => are_told(hash, &names),
        None => false,
    }
}

/// Whether an inode item is on its grammar.
fn is_inode_item(offset: u64, body: &[u8]) -> bool
    ensures { Decides result ((offset ≡ 0) × IsTrue (is_some (inode_of body.now))) }
{
    offset == 0 && Inode::read(body).is_some()
}

/// Whether an inode ref is on its grammar.
fn is_inode_ref(body: &[u8]) -> bool
    ensures { Decides result (IsTrue (is_some (inode_refs_of body.now))) }
{
    InodeRefs::read(body).is_some()
}

/// Whether a file extent is on its grammar.
fn is_extent(body: &[u8]) -> bool
    ensures { Decides result (IsTrue (is_some (file_extent_of body.now))) }
{
    FileExtent::read(body).is_some()
}

/// Whether an item of a file tree is of a kind that inodes have, and on the grammar of its kind.
pub fn is_on_form(key: &Key, body: &[u8]) -> bool
    ensures { Decides result (IsOnForm (key.now, body.now)) }
{
    if key.kind == INODE_ITEM {
        is_inode_item(key.offset, body)
    } else if key.kind == INODE_REF {
        is_inode_ref(body)
    } else if key.kind == INODE_EXTREF {
        is_extref(key.offset, body)
    } else if key.kind == XATTR_ITEM {
        are_attributes(key.offset, body)
    } else if key.kind == DIR_ITEM {
        is_dir_item(key.offset, body)
    } else if key.kind == DIR_INDEX {
        is_dir_index(body)
    } else if key.kind == EXTENT_DATA {
        is_extent(body)
    } else {
        key.kind == ORPHAN_ITEM
    }
}
