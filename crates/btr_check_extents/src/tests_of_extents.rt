// Tests of single extents.
ghost use Rattle.std.specs.Prelude.{◌≡◌, ◌⊎◌, ◌+◌, ◌≤◌, true};
ghost use Rattle.std.specs.Bool.{Decides};
ghost use Rattle.btr_check_rules.specs.Places.{IsUncrossed, kind_alone, node_kind};
ghost use Rattle.btr_check_rules.specs.btr_reader.Chunks.{is_read_kind};

use btr_check_rules::btr_reader::btrfs_format::flag::{
    BLOCK_FLAG_FULL_BACKREF, BLOCK_GROUP_DUP, BLOCK_GROUP_METADATA, BLOCK_GROUP_SYSTEM,
    EXTENT_FLAG_DATA, EXTENT_FLAG_TREE_BLOCK,
};
use btr_check_rules::btr_reader::btrfs_format::object::CHUNK_TREE;

/// Whether the flags of an extent are those of data, or of a node, which may be full.
pub fn are_flags(flags: u64) -> bool
    ensures { Decides result ((flags ≡ EXTENT_FLAG_DATA) ⊎ ((flags ≡ EXTENT_FLAG_TREE_BLOCK) ⊎ (flags ≡ EXTENT_FLAG_TREE_BLOCK + BLOCK_FLAG_FULL_BACKREF))) }
{
    flags == EXTENT_FLAG_DATA
        || flags == EXTENT_FLAG_TREE_BLOCK
        || flags == EXTENT_FLAG_TREE_BLOCK + BLOCK_FLAG_FULL_BACKREF
}

/// Whether a node lies between two multiples of 64 KiB.
pub fn is_uncrossed(address: u64, nodesize: u32) -> bool
    requires { 1 ≤ nodesize }
    ensures { Decides result (IsUncrossed (record { start = address; length = nodesize })) }
{
    address as u128 / 65536 == (address as u128 + nodesize as u128 - 1) / 65536
}

/// The kind of the chunks that hold the nodes of the tree with this number.
pub fn node_kind(number: u64) -> u64
    ensures { result ≡ node_kind number }
{
    if number == CHUNK_TREE {
        BLOCK_GROUP_SYSTEM
    } else {
        BLOCK_GROUP_METADATA
    }
}

/// What a chunk of a kind that is read is for, in one copy or in two.
pub fn kind_alone(kind: u64) -> u64
    requires { is_read_kind kind ≡ true }
    ensures { result ≡ kind_alone kind }
{
    if kind > BLOCK_GROUP_DUP {
        kind - BLOCK_GROUP_DUP
    } else {
        kind
    }
}
