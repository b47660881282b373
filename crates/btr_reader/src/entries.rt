ghost use Rattle.std.specs.Prelude.{◌≡◌, ◌≤◌, ◌++◌, ◌∷◌, [], List, true, if◌then◌else◌, Some, None, IfOk, IfErr, OnOk};
ghost use Rattle.btr_reader_walk.specs.outside.Fault.{HasCauseOf};
ghost use Rattle.btr_reader_walk.specs.outside.History.{OverTold};
ghost use Rattle.btr_reader_walk.specs.btr_node.NodeSize.{IsNodeSize};
ghost use Rattle.btr_reader_walk.specs.Events.{TreeItem};
ghost use Rattle.btr_reader_walk.specs.Walks.{LieOn, found};
ghost use Rattle.btr_reader.specs.Image.{first_key, entry_named, is_called, own_index_refusals, naming_refusals, is_root_directory, twice_refusals, entry_refusals};
ghost use Rattle.btr_reader_names.specs.declared.dir_index.DirIndex.{DirIndex as DirIndexOf};
ghost use Rattle.btr_reader_names.specs.Links.{own_naming, dir_indexes};
ghost use Rattle.btr_reader_names.specs.Passes.{HasSeen};
ghost use Rattle.btr_reader_names.specs.Refuses.{IsNoFault};
ghost use Rattle.btr_reader.specs.Opening.{IsAmong, NamesNoLogTree};

use crate::refusal::refused;
use btr_reader_names::{
    DirIndex, NameIn, index_entry, is_name, names_inode, names_tree, naming_of, see_name,
};
use btr_reader_walk::{
    BlockSource, BtrAnswer, BtrRule, DirEntry, Key, MapRange, Notes, Tree, TreeWalker,
};
use btr_space_items::btrfs_format::key::DIR_INDEX;
use btr_space_items::btrfs_format::object::FIRST_FREE_OBJECTID;
use indexmap::IndexSet;
use std::alloc::Global;

/// The location of an entry that is called so, unless one came before.
fn first_called(first: Option<Key>, name: &[u8], entry: &DirEntry<'_>) -> Option<Key>
    ensures { result ≡ first_key first (if is_called name.now entry.now.name.now then Some entry.now.location else None) }
{
    match first {
        Some(key) => Some(key),
        None => {
            if entry.name == name {
                Some(entry.location)
            } else {
                None
            }
        }
    }
}

/// Adds an entry of the root directory to those that were seen, if it keeps the rules of names.
fn see_entry(seen: &mut IndexSet<NameIn>, alloc: Global, naming: &DirIndex) -> Result<(), BtrAnswer>
    ensures seen { (before : List DirIndexOf) → is_root_directory naming.now.dir ≡ true → HasSeen is_root_directory seen.old before
        → OnOk result (HasSeen is_root_directory seen.new (before ++ naming.now ∷ [])) }
    ensures ok { OnOk result (naming_refusals naming.now ≡ []) }
    ensures err { (before : List DirIndexOf) → is_root_directory naming.now.dir ≡ true → HasSeen is_root_directory seen.old before
        → IfErr result (IsAmong (naming_refusals naming.now ++ twice_refusals (before ++ naming.now ∷ []))) }
    ensures known { IfErr result NamesNoLogTree }
    ensures cause { IfErr result IsNoFault }
{
    if !is_name(naming.name.bytes()) {
        return Err(refused(naming.leaf, BtrRule::NameForm));
    }
    if !names_inode(naming) && !names_tree(naming) {
        return Err(refused(naming.leaf, BtrRule::Body));
    }
    see_name(seen, alloc, naming)
}

/// The location of the first entry of inode 256 that is called so, after one more item of the tree. `seen` are the names
/// of that directory so far.
fn seek_entry(
    seen: &mut IndexSet<NameIn>,
    alloc: Global,
    first: Option<Key>,
    name: &[u8],
    key: &Key,
    body: &[u8],
    leaf: u64,
) -> Result<Option<Key>, BtrAnswer>
    ensures found { (i : TreeItem) → i.key ≡ key.now → i.body ≡ body.now → IfOk result (λ o. o ≡ first_key first (entry_named (is_called name.now) (own_naming i))) }
    ensures seen { (i : TreeItem) (given : List TreeItem) → i.key ≡ key.now → i.body ≡ body.now → i.leaf ≡ leaf → HasSeen is_root_directory seen.old (dir_indexes given)
        → OnOk result (HasSeen is_root_directory seen.new (dir_indexes (given ++ i ∷ []))) }
    ensures ok { (i : TreeItem) → i.key ≡ key.now → i.body ≡ body.now → i.leaf ≡ leaf → OnOk result (own_index_refusals i ≡ []) }
    ensures err { (i : TreeItem) (given : List TreeItem) → i.key ≡ key.now → i.body ≡ body.now → i.leaf ≡ leaf → HasSeen is_root_directory seen.old (dir_indexes given)
        → IfErr result (IsAmong (own_index_refusals i ++ twice_refusals (dir_indexes (given ++ i ∷ [])))) }
    ensures known { IfErr result NamesNoLogTree }
    ensures cause { IfErr result IsNoFault }
{
    if key.kind != DIR_INDEX || key.objectid != FIRST_FREE_OBJECTID {
        return Ok(first);
    }
    let entry = match index_entry(body) {
        Some(entry) => entry,
        None => return Err(refused(leaf, BtrRule::Body)),
    };
    let naming = naming_of(alloc, key, &entry, leaf)?;
    see_entry(seen, alloc, &naming)?;
    Ok(first_called(first, name, &entry))
}

/// The location of the first entry of inode 256 of a tree that is called so. The entries of that directory keep the rules
/// of names: each has a name, its location is an inode or another tree, and no name is there twice. All items of the tree
/// are noted by the way, in both notes.
pub fn find_entry<S: BlockSource, N: Notes, M: Notes>(
    alloc: Global,
    src: &mut S,
    tree: Tree,
    ranges: &[MapRange],
    name: &[u8],
    notes: &mut N,
    others: &mut M,
) -> Result<Option<Key>, BtrAnswer>
    requires size { IsNodeSize tree.form.nodesize }
    requires high { tree.root.level ≤ 7 }
    requires inside { LieOn (S.size src.old) ranges.now }
    requires begun { N.holds notes.old notes.old [] }
    requires begun_others { M.holds others.old others.old [] }
    ensures kept { S.kept src.old src.new }
    ensures cause { HasCauseOf BtrAnswer.Fault (S.faults src.old) (S.faults src.new) result }
    ensures known { IfErr result NamesNoLogTree }
    ensures entry { OverTold S.tells (S.blocks src.old) (λ image. IfOk result (λ o. o ≡ entry_named (is_called name.now) (dir_indexes (found image ranges.now tree)))) }
    ensures noted { OverTold S.tells (S.blocks src.old) (λ image. OnOk result (N.holds notes.old notes.new (found image ranges.now tree))) }
    ensures noted_others { OverTold S.tells (S.blocks src.old) (λ image. OnOk result (M.holds others.old others.new (found image ranges.now tree))) }
    ensures ok { OverTold S.tells (S.blocks src.old) (λ image. OnOk result (entry_refusals image ranges.now tree ≡ [])) }
    ensures err { OverTold S.tells (S.blocks src.old) (λ image. IfErr result (IsAmong (entry_refusals image ranges.now tree))) }
{
    let mut first = None;
    let mut seen = IndexSet::new(alloc);
    let mut walker = TreeWalker::new(alloc, tree)?;
    while walker.advance(src, ranges)? {
        first = seek_entry(
            &mut seen,
            alloc,
            first,
            name,
            &walker.key(),
            walker.body(),
            walker.leaf(),
        )?;
        notes.note(alloc, &walker.key(), walker.body(), walker.leaf())?;
        others.note(alloc, &walker.key(), walker.body(), walker.leaf())?;
    }
    Ok(first)
}
