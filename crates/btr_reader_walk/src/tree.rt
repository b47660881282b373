ghost use Rattle.std.specs.Prelude.{◌≡◌};
ghost use Rattle.btr_reader_walk.specs.Events.{may_be_bare};
ghost use Rattle.btr_reader_walk.specs.Node.{want};
ghost use Rattle.btr_reader_walk.specs.Nodes.{is_file_tree, owner_asked};

use btr_node::btrfs_format::object::{FIRST_FREE_OBJECTID, FS_TREE};
use btr_node::{Expect, Key, SumKind};

/// What the nodes of a volume share.
#[derive(Clone, Copy, Debug, PartialEq, Eq)]
pub struct Form {
    /// The file system's identifier.
    pub fsid: [u8; 16],
    /// The size of a node in bytes: 4096, 8192, 16384, 32768 or 65536.
    pub nodesize: u32,
    /// The kind of checksum.
    pub sums: SumKind,
}

/// What is said of a node where it is named: by its parent, or of a root by the superblock or a root item.
#[derive(Clone, Copy, Debug, PartialEq, Eq)]
pub struct NodePointer {
    /// The node's address, in bytes.
    pub address: u64,
    /// 0 for a leaf, and one more than its children's level for an inner node.
    pub level: u8,
    /// The transaction that wrote the node.
    pub generation: u64,
}

/// A node as its tree tells it.
#[derive(Clone, Copy, Debug, PartialEq, Eq)]
pub struct NodeEntry {
    /// The pointer to it.
    pub pointer: NodePointer,
    /// The key that its parent has for it. The root has no parent.
    pub key: Option<Key>,
}

/// Whose nodes a tree may have.
#[derive(Clone, Copy, Debug, PartialEq, Eq)]
pub enum Owners {
    /// Its own alone.
    Own,
    /// Its own, and those of any tree of files: trees of files share nodes once there are snapshots.
    Files,
}

impl Owners {
    /// The owner that a node of the tree with this number has to tell, where it tells `told`.
    pub fn asked(self, number: u64, told: u64) -> u64
        ensures { result ≡ owner_asked self number told }
    {
        match self {
            Owners::Own => number,
            Owners::Files => { if is_file_tree(told) { told } else { number } }
        }
    }
}

/// Whether a tree with this number is one of files that users see: the first one, or a subvolume.
pub fn is_file_tree(number: u64) -> bool
    ensures { result ≡ is_file_tree number }
{
    number == FS_TREE || FIRST_FREE_OBJECTID <= number && number < 1 << 48
}

/// A tree of a volume.
#[derive(Clone, Copy, Debug, PartialEq, Eq)]
pub struct Tree {
    /// What its nodes share with all others of the volume.
    pub form: Form,
    /// The pointer to its root.
    pub root: NodePointer,
    /// Its number.
    pub owner: u64,
}

impl Tree {
    /// What is known of a node of the tree by the pointer to it.
    pub fn want(&self, p: &NodePointer) -> Expect
        ensures { result ≡ want self.now.form self.now.owner p.now }
    {
        Expect {
            address: p.address,
            fsid: self.form.fsid,
            owner: self.owner,
            level: p.level,
            generation: p.generation,
            sums: self.form.sums,
        }
    }

    /// Whether a leaf may be empty: only one that is the root.
    pub fn may_be_bare(&self) -> bool
        ensures { result ≡ may_be_bare self.now.root }
    {
        self.root.level == 0
    }
}
