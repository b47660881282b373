// Device extents and the stripes that they are of.
ghost use Rattle.std.specs.Prelude.{◌≡◌, ℕ, List, All, true};
ghost use Rattle.btr_check_rules.specs.btr_reader.btr_node.Leaf.{Item};
ghost use Rattle.btr_check_rules.specs.btr_reader.declared.chunk.ChunkAt.{ChunkAt as Chunk};
ghost use Rattle.btr_check_rules.specs.Groups.{AreExtentsOf};
ghost use Rattle.btr_check_fields.specs.Failing.{Answers, FailsTest};
ghost use Rattle.btr_check_fields.specs.Read.{AreReadOf, extent_at, has_extent, has_extents, has_second, is_extent_of, is_of_chunk, is_of_second, extent_of};
ghost use Rattle.btr_check_fields.specs.declared.found.ExtentAt.{ExtentAt as Extent};

use crate::found::ExtentAt;
use btr_check_rules::btr_reader::ChunkAt;
use btr_check_rules::btr_reader::btr_space_items::Stripe;
use btr_check_rules::btr_reader::btr_space_items::btrfs_format::object::{
    CHUNK_TREE, FIRST_CHUNK_TREE_OBJECTID,
};

/// Whether a device extent is that of a stripe of a chunk.
fn is_extent_of(c: &ChunkAt, s: &Stripe, e: &ExtentAt) -> bool
    ensures { result ≡ is_extent_of c.now s.now e.now }
{
    e.devid == s.devid
        && e.offset == s.offset
        && e.extent.chunk_tree == CHUNK_TREE
        && e.extent.chunk_objectid == FIRST_CHUNK_TREE_OBJECTID
        && e.extent.chunk_offset == c.logical
        && e.extent.length == c.chunk.length
}

/// The same of a second stripe; there may be none.
fn is_of_second(c: &ChunkAt, s: &Option<Stripe>, e: &ExtentAt) -> bool
    ensures { result ≡ is_of_second c.now s.now e.now }
{
    match s {
        Some(s) => is_extent_of(c, s, e),
        None => false,
    }
}

/// Whether a device extent is that of one of the stripes of a chunk.
fn is_of_chunk(c: &ChunkAt, e: &ExtentAt) -> bool
    ensures { result ≡ is_of_chunk c.now e.now }
{
    is_extent_of(c, &c.chunk.stripe, e) || is_of_second(c, &c.mirror, e)
}

/// Whether one of these is the device extent of a stripe.
fn has_extent(extents: &[ExtentAt], c: &ChunkAt, s: &Stripe) -> bool
    ensures { result ≡ has_extent extents.now c.now s.now }
{
    for e in extents {
        if is_extent_of(c, s, e) {
            return true;
        }
    }
    false
}

/// The same of a second stripe; there may be none.
fn has_second(extents: &[ExtentAt], c: &ChunkAt, s: &Option<Stripe>) -> bool
    ensures { result ≡ has_second extents.now c.now s.now }
{
    match s {
        Some(s) => has_extent(extents, c, s),
        None => true,
    }
}

/// Whether each stripe of a chunk has its device extent.
fn has_extents(extents: &[ExtentAt], c: &ChunkAt) -> bool
    ensures { result ≡ has_extents extents.now c.now }
{
    has_extent(extents, c, &c.chunk.stripe) && has_second(extents, c, &c.mirror)
}

/// Whether a device extent is that of one of these chunks.
fn extent_of(chunks: &[ChunkAt], e: &ExtentAt) -> bool
    ensures { result ≡ extent_of chunks.now e.now }
{
    for c in chunks {
        if is_of_chunk(c, e) {
            return true;
        }
    }
    false
}

/// The address of the first chunk a stripe of which has no device extent.
fn without_extents(chunks: &[ChunkAt], extents: &[ExtentAt]) -> Option<u64>
    ensures { Answers (All (λ c. has_extents extents.now c ≡ true) chunks.now) (FailsTest (λ (c : Chunk). c.logical) (has_extents extents.now) chunks.now) result }
{
    for c in chunks {
        if !has_extents(extents, c) {
            return Some(c.logical);
        }
    }
    None
}

/// Where the first device extent begins that is of no chunk.
fn without_chunk(chunks: &[ChunkAt], extents: &[ExtentAt]) -> Option<u64>
    ensures { Answers (All (λ e. extent_of chunks.now e ≡ true) extents.now) (FailsTest (λ (e : Extent). e.offset) (extent_of chunks.now) extents.now) result }
{
    for e in extents {
        if !extent_of(chunks, e) {
            return Some(e.offset);
        }
    }
    None
}

/// The address of a chunk a stripe of which has no device extent, or the place of a device extent that is of no chunk;
/// None where there are neither.
pub fn wrong_extent(chunks: &[ChunkAt], extents: &[ExtentAt]) -> Option<u64>
    ensures { (items : List Item) → AreReadOf extent_at items extents.now
        → Answers ((a : ℕ) → AreExtentsOf chunks.now items a) (λ a. ¬ AreExtentsOf chunks.now items a) result }
{
    match without_extents(chunks, extents) {
        Some(address) => Some(address),
        None => without_chunk(chunks, extents),
    }
}
