ghost use Rattle.std.specs.Prelude.{◌≡◌, ◌≤◌, ◌||◌, [], ℕ, Option, if◌then◌else◌, Some, None, nat_eq, IfOk, IfErr, OnOk};
ghost use Rattle.indexmap.specs.IndexMap.{get};
ghost use Rattle.indexmap.specs.IndexSet.{contains};
ghost use Rattle.btr_reader_walk.specs.outside.Fault.{HasCauseOf};
ghost use Rattle.btr_reader_walk.specs.outside.History.{OverTold};
ghost use Rattle.btr_reader_walk.specs.btr_node.NodeSize.{IsNodeSize};
ghost use Rattle.btr_reader_walk.specs.Walks.{LieOn, found, wrong};
ghost use Rattle.btr_reader.specs.Opening.{IsAmong, NamesNoLogTree};
ghost use Rattle.btr_reader.specs.Roots.{pointer_of, root_pointer, HasRoots, found_root};

use btr_reader_walk::{
    BlockSource, BtrAnswer, Key, MapRange, Memory, NodePointer, Notes, Tree, note_items,
};
use btr_space_items::RootItem;
use btr_space_items::btrfs_format::key::ROOT_ITEM;
use indexmap::{IndexMap, IndexSet};
use std::alloc::Global;

/// A root item: the leaf that it stands in, and the pointer to the root of its tree; None where its body is off the
/// grammar.
#[derive(Clone, Copy, Debug)]
pub struct RootFound {
    pub leaf: u64,
    pub pointer: Option<NodePointer>,
}

/// The pointer to a tree's root; None where its level is above 7.
fn root_pointer(root: &RootItem) -> Option<NodePointer>
    ensures { result ≡ root_pointer root.now }
{
    if root.level > 7 {
        return None;
    }
    Some(NodePointer {
        address: root.bytenr,
        level: root.level,
        generation: root.generation,
    })
}

/// The pointer that the body of a root item gives.
fn pointer_of(body: &[u8]) -> Option<NodePointer>
    ensures { result ≡ pointer_of body.now }
{
    match RootItem::read(body) {
        Some(root) => root_pointer(&root),
        None => None,
    }
}

/// The root items of the trees of a volume: of each tree the last one.
#[derive(Drop)]
pub struct RootItems {
    found: IndexMap<u64, RootFound>,
    /// The numbers of the trees that have one.
    pub numbers: IndexSet<u64>,
}

impl RootItems {
    /// No root items.
    fn new(alloc: Global) -> RootItems
        ensures { HasRoots result [] }
    {
        RootItems {
            found: IndexMap::new(alloc),
            numbers: IndexSet::new(alloc),
        }
    }

    /// The root item of the tree with this number.
    pub fn of(&self, number: u64) -> Option<RootFound>
        ensures { result ≡ found_root self.now number }
    {
        self.found.get(&number).copied()
    }
}

impl Notes for RootItems {
    ghost use Rattle.btr_reader.specs.Roots.{HasRoots};

    ghost holds = { λ begun roots items. HasRoots roots items };

    /// Notes one more item of the root tree. Items of other kinds are passed over.
    fn note(&mut self, _: Global, key: &Key, body: &[u8], leaf: u64) -> Result<(), Memory> {
        if key.kind != ROOT_ITEM {
            return Ok(());
        }
        let root = RootFound {
            leaf,
            pointer: pointer_of(body),
        };
        note_last(&mut self.found, key.objectid, root)?;
        note_number(&mut self.numbers, key.objectid)?;
        Ok(())
    }
}

/// Keeps the last root item of a tree.
fn note_last(
    roots: &mut IndexMap<u64, RootFound>,
    number: u64,
    root: RootFound,
) -> Result<(), Memory>
    ensures { OnOk result ((other : ℕ) → get nat_eq roots.new other ≡ (if nat_eq number other then Some root else get nat_eq roots.old other)) }
{
    roots.insert(number, root)?;
    Ok(())
}

/// Adds the number of a tree.
fn note_number(numbers: &mut IndexSet<u64>, number: u64) -> Result<(), Memory>
    ensures { OnOk result ((other : ℕ) → contains nat_eq numbers.new other ≡ (nat_eq number other || contains nat_eq numbers.old other)) }
{
    numbers.insert(number)?;
    Ok(())
}

/// The root items of a root tree: one walk.
pub fn read_roots<S: BlockSource>(
    alloc: Global,
    src: &mut S,
    tree: Tree,
    ranges: &[MapRange],
) -> Result<RootItems, BtrAnswer>
    requires size { IsNodeSize tree.form.nodesize }
    requires high { tree.root.level ≤ 7 }
    requires inside { LieOn (S.size src.old) ranges.now }
    ensures kept { S.kept src.old src.new }
    ensures cause { HasCauseOf BtrAnswer.Fault (S.faults src.old) (S.faults src.new) result }
    ensures known { IfErr result NamesNoLogTree }
    ensures roots { OverTold S.tells (S.blocks src.old) (λ image. IfOk result (λ roots. HasRoots roots (found image ranges.now tree))) }
    ensures ok { OverTold S.tells (S.blocks src.old) (λ image. OnOk result (wrong image ranges.now tree ≡ [])) }
    ensures err { OverTold S.tells (S.blocks src.old) (λ image. IfErr result (IsAmong (wrong image ranges.now tree))) }
{
    let mut roots = RootItems::new(alloc);
    note_items(alloc, src, tree, ranges, &mut roots)?;
    Ok(roots)
}
