// Block groups and the chunks that they are of.
ghost use Rattle.std.specs.Prelude.{◌≡◌, ℕ, List, All, map, true};
ghost use Rattle.btr_check_rules.specs.btr_reader.btr_node.Leaf.{Item};
ghost use Rattle.btr_check_rules.specs.btr_reader.declared.chunk.ChunkAt.{ChunkAt as Chunk};
ghost use Rattle.btr_check_rules.specs.Groups.{AreGroupsOf};
ghost use Rattle.btr_check_fields.specs.Failing.{Answers, FailsTest};
ghost use Rattle.btr_check_fields.specs.Read.{AreReadOf, chunk_of, group_at, group_of, has_group, is_group_of};
ghost use Rattle.btr_check_fields.specs.declared.found.ChunkUse.{ChunkUse as Use};
ghost use Rattle.btr_check_fields.specs.declared.found.GroupAt.{GroupAt as Group};

use crate::found::{ChunkUse, GroupAt};
use btr_check_rules::btr_reader::btr_space_items::btrfs_format::object::FIRST_CHUNK_TREE_OBJECTID;

/// Whether a block group is that of a chunk, and tells what is used of it.
fn is_group_of(u: &ChunkUse, g: &GroupAt) -> bool
    ensures { result ≡ is_group_of u.now g.now }
{
    g.start == u.chunk.logical
        && g.length == u.chunk.chunk.length
        && g.group.used == u.used
        && g.group.chunk_objectid == FIRST_CHUNK_TREE_OBJECTID
        && g.group.flags == u.chunk.chunk.kind
}

/// Whether one of these is the block group of a chunk.
fn has_group(groups: &[GroupAt], u: &ChunkUse) -> bool
    ensures { result ≡ has_group groups.now u.now }
{
    for g in groups {
        if is_group_of(u, g) {
            return true;
        }
    }
    false
}

/// Whether a block group is that of one of these chunks.
fn group_of(chunks: &[ChunkUse], g: &GroupAt) -> bool
    ensures { result ≡ group_of chunks.now g.now }
{
    for u in chunks {
        if is_group_of(u, g) {
            return true;
        }
    }
    false
}

/// The address of the first chunk without its block group.
fn without_group(chunks: &[ChunkUse], groups: &[GroupAt]) -> Option<u64>
    ensures { Answers (All (λ u. has_group groups.now u ≡ true) chunks.now) (FailsTest (λ (u : Use). u.chunk.logical) (has_group groups.now) chunks.now) result }
{
    for u in chunks {
        if !has_group(groups, u) {
            return Some(u.chunk.logical);
        }
    }
    None
}

/// The address of the first block group that is of no chunk.
fn without_chunk(chunks: &[ChunkUse], groups: &[GroupAt]) -> Option<u64>
    ensures { Answers (All (λ g. group_of chunks.now g ≡ true) groups.now) (FailsTest (λ (g : Group). g.start) (group_of chunks.now) groups.now) result }
{
    for g in groups {
        if !group_of(chunks, g) {
            return Some(g.start);
        }
    }
    None
}

/// The address of a chunk without its block group, or of a block group that is of no chunk; None where there are
/// neither.
pub fn wrong_group(chunks: &[ChunkUse], groups: &[GroupAt]) -> Option<u64>
    ensures { (used : Chunk → ℕ) (items : List Item) → All (λ (u : Use). u.used ≡ used u.chunk) chunks.now → AreReadOf group_at items groups.now
        → Answers ((a : ℕ) → AreGroupsOf used (map chunk_of chunks.now) items a) (λ a. ¬ AreGroupsOf used (map chunk_of chunks.now) items a) result }
{
    match without_group(chunks, groups) {
        Some(address) => Some(address),
        None => without_chunk(chunks, groups),
    }
}
