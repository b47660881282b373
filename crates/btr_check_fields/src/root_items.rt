// Root items.
ghost use Rattle.std.specs.Prelude.{◌≡◌};
ghost use Rattle.std.specs.Bool.{Decides};
ghost use Rattle.btr_check_rules.specs.Recount.{holds_files};
ghost use Rattle.btr_check_rules.specs.Trees.{IsRootItem};
ghost use Rattle.btr_check_fields.specs.Roots.{has_files_root, is_whole, keeps_root, keeps_some_root};

use btr_check_rules::btr_reader::btr_reader_walk::{Key, is_file_tree};
use btr_check_rules::btr_reader::btr_space_items::RootItem;
use btr_check_rules::btr_reader::btr_space_items::btrfs_format::flag::ROOT_SUBVOL_RDONLY;
use btr_check_rules::btr_reader::btr_space_items::btrfs_format::object::{
    DATA_RELOC_TREE, FIRST_FREE_OBJECTID, TREE_RELOC,
};
use btr_check_rules::btr_reader::btr_super::Super;

/// Whether the tree with this number has files: it is one that users see, or the tree that a balance of data uses.
pub fn holds_files(number: u64) -> bool
    ensures { result ≡ holds_files number }
{
    is_file_tree(number) || number == DATA_RELOC_TREE
}

/// Whether no removal of a tree has begun.
fn is_whole(root: &RootItem) -> bool
    ensures { result ≡ is_whole root.now }
{
    root.drop_progress.objectid == 0
        && root.drop_progress.kind == 0
        && root.drop_progress.offset == 0
        && root.drop_level == 0
}

/// Whether a tree that has files is in use, and begins with the directory 256.
fn has_files_root(number: u64, root: &RootItem) -> bool
    ensures { result ≡ has_files_root number root.now }
{
    !holds_files(number) || (root.refs == 1 && root.root_dirid == FIRST_FREE_OBJECTID)
}

/// Whether Linux takes a root item under a key.
fn keeps_root(sup: &Super, key: &Key, root: &RootItem) -> bool
    ensures { result ≡ keeps_root sup.now key.now root.now }
{
    root.generation <= sup.generation
        && root.generation_v2 <= sup.generation
        && root.last_snapshot <= sup.generation
        && root.bytenr % 4096 == 0
        && root.level < 8
        && root.flags <= ROOT_SUBVOL_RDONLY
        && is_whole(root)
        && key.objectid != TREE_RELOC
        && (key.offset == 0 || is_file_tree(key.objectid))
        && has_files_root(key.objectid, root)
}

/// The same of what was read of a body.
fn keeps_some_root(sup: &Super, key: &Key, root: &Option<RootItem>) -> bool
    ensures { result ≡ keeps_some_root sup.now key.now root.now }
{
    match root {
        Some(root) => keeps_root(sup, key, root),
        None => false,
    }
}

/// Whether an item of the root tree is a root item that Linux takes.
pub fn is_root_item(sup: &Super, key: &Key, body: &[u8]) -> bool
    ensures { Decides result (IsRootItem sup.now (key.now, body.now)) }
{
    keeps_some_root(sup, key, &RootItem::read(body))
}
