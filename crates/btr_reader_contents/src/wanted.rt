ghost use Rattle.std.specs.Prelude.{◌≡◌, ◌≤◌, true, List, IfSome};
ghost use Rattle.indexmap.specs.IndexSet.{contains};
ghost use Rattle.btr_reader_walk.specs.Events.{TreeItem};
ghost use Rattle.fs_rows.specs.declared.row.Kind.TheVariants.{Symlink};
ghost use Rattle.btr_reader_names.specs.Table.{HasNotedNames};
ghost use Rattle.fs_paths.specs.Links.{same_node};
ghost use Rattle.btr_reader_contents.specs.Contents.{wanted_by, wanted_inode, wanted_at};
ghost use Rattle.btr_reader_contents.specs.Gathering.{item_wanted};

use btr_reader_names::{NameTable, inode_node, kind_of_mode};
use btr_reader_walk::btrfs_format::key::EXTENT_DATA;
use btr_reader_walk::{Inode, Key};
use fs_paths::NodeId;
use fs_rows::Kind;
use indexmap::IndexSet;

/// The longest target of a symlink, in bytes.
const LONGEST_TARGET: u64 = 4095;

/// A file or symlink whose content is kept.
#[derive(Clone, Copy, Debug)]
pub struct Wanted {
    /// Whether it is a symlink.
    pub link: bool,
    /// Its size in bytes.
    pub size: u64,
}

/// The content of an inode of this size and kind that is kept, if any.
fn wanted_by(size: u64, kind: Kind) -> Option<Wanted>
    ensures wanted { result ≡ wanted_by size kind }
    ensures short { IfSome result (λ w. w.link ≡ true → w.size ≤ 4095) }
{
    match kind {
        Kind::File => Some(Wanted { link: false, size }),
        Kind::Symlink => wanted_link(size),
        Kind::Directory
        | Kind::Character
        | Kind::Block
        | Kind::Fifo
        | Kind::Socket
        | Kind::Subvolume => None,
    }
}

fn wanted_link(size: u64) -> Option<Wanted>
    ensures wanted { result ≡ wanted_by size Symlink }
    ensures short { IfSome result (λ w. w.link ≡ true → w.size ≤ 4095) }
{
    if size <= LONGEST_TARGET {
        Some(Wanted { link: true, size })
    } else {
        None
    }
}

/// What is kept of an inode: the mark of a file, or the target of a symlink of at most 4095 bytes.
pub fn wanted_inode(own: &Inode) -> Option<Wanted>
    ensures wanted { result ≡ wanted_inode own.now }
    ensures short { IfSome result (λ w. w.link ≡ true → w.size ≤ 4095) }
{
    match kind_of_mode(own.mode) {
        Some(kind) => wanted_by(own.size, kind),
        None => None,
    }
}

/// The same of an inode that is named.
fn wanted_at(names: &NameTable, named: &IndexSet<NodeId>, ino: u64) -> Option<Wanted>
    ensures wanted { (items : List TreeItem) → HasNotedNames names.now items → result ≡ wanted_at (contains same_node named.now) items ino }
    ensures short { IfSome result (λ w. w.link ≡ true → w.size ≤ 4095) }
{
    if !named.contains(&inode_node(ino)) {
        return None;
    }
    match names.inode(ino) {
        Some(own) => wanted_inode(&own),
        None => None,
    }
}

/// The same of the inode that an item is an extent of.
pub fn item_wanted(names: &NameTable, named: &IndexSet<NodeId>, key: &Key) -> Option<Wanted>
    ensures wanted { (items : List TreeItem) → HasNotedNames names.now items → result ≡ item_wanted (wanted_at (contains same_node named.now) items) key.now }
    ensures short { IfSome result (λ w. w.link ≡ true → w.size ≤ 4095) }
{
    if key.kind == EXTENT_DATA {
        wanted_at(names, named, key.objectid)
    } else {
        None
    }
}
