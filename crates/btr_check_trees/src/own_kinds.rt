// Kinds of items that stand in one tree each.
ghost use Rattle.std.specs.Prelude.{◌≡◌, [], ℕ, List};
ghost use Rattle.btr_check_rules.specs.Trees.{has_own_tree};
ghost use Rattle.btr_check_trees.specs.Kinds.{HoldsKinds, is_own_kind};

use btr_check_rules::btr_reader::btr_reader_walk::Key;
use btr_check_rules::btr_reader::btrfs_format::key::{
    BLOCK_GROUP_ITEM, CHUNK_ITEM, DEV_EXTENT, DEV_ITEM, EXTENT_CSUM, EXTENT_ITEM, METADATA_ITEM,
    ROOT_ITEM,
};
use btr_check_rules::btr_reader::btrfs_format::object::{
    CHUNK_TREE, CSUM_TREE, DEV_TREE, EXTENT_TREE, ROOT_TREE,
};
use btr_check_walk::{Answer, ItemVisitor, SoundPart};
use std::alloc::Global;

/// Whether an item of this kind may stand in the tree with this number.
fn stands_in(number: u64, kind: u8) -> bool
    ensures { result ≡ is_own_kind number kind }
{
    (kind != CHUNK_ITEM || number == CHUNK_TREE)
        && (kind != DEV_ITEM || number == CHUNK_TREE)
        && (kind != EXTENT_ITEM || number == EXTENT_TREE)
        && (kind != METADATA_ITEM || number == EXTENT_TREE)
        && (kind != BLOCK_GROUP_ITEM || number == EXTENT_TREE)
        && (kind != ROOT_ITEM || number == ROOT_TREE)
        && (kind != DEV_EXTENT || number == DEV_TREE)
        && (kind != EXTENT_CSUM || number == CSUM_TREE)
}

/// Whether an item with this key may stand in the tree with this number.
pub fn has_own_tree(number: u64, key: &Key) -> bool
    ensures { (body : List ℕ) → result ≡ has_own_tree number (key.now, body) }
{
    stands_in(number, key.kind)
}

/// The kinds of the items of a tree, as they go by.
#[derive(Drop)]
pub struct OwnKinds {
    /// The number of the tree.
    pub number: u64,
}

impl OwnKinds {
    /// No items so far of the tree with this number.
    pub fn new(number: u64) -> OwnKinds
        ensures number { result.number ≡ number }
        ensures begun { HoldsKinds result result [] }
    {
        OwnKinds { number }
    }
}

impl ItemVisitor for OwnKinds {
    ghost use Rattle.btr_check_trees.specs.Kinds.{HoldsKinds, RefusesKinds};

    ghost holds = { λ begun now items. HoldsKinds begun now items };

    ghost refuses = { λ begun items part address. RefusesKinds begun items part address };

    /// Takes the next item: of a kind that stands in this tree, or part 1 fails at its number.
    fn visit(&mut self, _: Global, key: &Key, _: &[u8], _: u64) -> Result<(), Answer> {
        SoundPart::Trees.ask(has_own_tree(self.number, key), self.number)
    }
}
