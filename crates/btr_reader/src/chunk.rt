ghost use Rattle.std.specs.Prelude.{◌≡◌, ◌++◌, ◌∷◌, [], map, true, OnOk, OnErr, IfErr, IfOk, Contains};
ghost use Rattle.std.specs.List.{list_any};
ghost use Rattle.btr_reader.specs.Chunks.{
  placed_chunk,
  second_stripe,
  range_of,
  offset_of,
  is_single_kind,
  is_dup_kind,
  is_read_kind,
  stripes_of,
  stripe_lies_on,
  mirror_lies_on,
  lies_on,
  overlap,
  same_stripe,
  same_body,
  same_mirror,
  same_chunk,
  beside_refusals,
  chunks_refusals,
  is_chunk_key,
};
ghost use Rattle.btr_reader_names.specs.Refuses.{IsNoFault};
ghost use Rattle.btr_reader.specs.Opening.{IsAmong, NamesNoLogTree};
ghost use Rattle.btr_super.specs.Rules.{NamesNoLog};
ghost use Rattle.btr_reader_walk.specs.Walks.{LieOn};

use btr_reader_walk::{BtrAnswer, BtrRefusal, BtrRule, Feature, Key, MapRange, Memory};
use btr_space_items::btrfs_format::flag::{
    BLOCK_GROUP_DATA, BLOCK_GROUP_DUP, BLOCK_GROUP_METADATA, BLOCK_GROUP_SYSTEM,
};
use btr_space_items::btrfs_format::key::CHUNK_ITEM;
use btr_space_items::btrfs_format::object::FIRST_CHUNK_TREE_OBJECTID;
use btr_space_items::{Chunk, Stripe};
use std::alloc::Global;

/// A chunk, and its logical address in bytes.
#[derive(Clone, Copy, Debug, PartialEq, Eq)]
pub struct ChunkAt {
    pub logical: u64,
    pub chunk: Chunk,
    /// The second stripe of a chunk that has two.
    pub mirror: Option<Stripe>,
}

impl ChunkAt {
    /// The chunk at an address whose body this is. None exactly where it is no body of a chunk.
    pub fn read(logical: u64, body: &[u8]) -> Option<ChunkAt>
        ensures { result ≡ placed_chunk logical body.now }
    {
        match Chunk::read(body) {
            Some(chunk) => Some(ChunkAt {
                logical,
                chunk,
                mirror: second_stripe(body),
            }),
            None => None,
        }
    }
}

/// The second stripe in the body of a chunk with two.
fn second_stripe(body: &[u8]) -> Option<Stripe>
    ensures { result ≡ second_stripe body.now }
{
    if body.len() == Chunk::SIZE + Stripe::SIZE {
        Some(Stripe::at(body, Chunk::SIZE))
    } else {
        None
    }
}

/// Whether a key is that of a chunk.
pub fn is_chunk_key(key: &Key) -> bool
    ensures { result ≡ is_chunk_key key.now }
{
    key.objectid == FIRST_CHUNK_TREE_OBJECTID && key.kind == CHUNK_ITEM
}

/// The range of addresses that a chunk maps.
pub fn range_of(c: &ChunkAt) -> MapRange
    ensures { result ≡ range_of c.now }
{
    MapRange {
        logical: c.logical,
        length: c.chunk.length,
        physical: c.chunk.stripe.offset,
        mirror: offset_of(&c.mirror),
    }
}

/// Where a stripe begins, if there is one.
fn offset_of(stripe: &Option<Stripe>) -> Option<u64>
    ensures { result ≡ offset_of stripe.now }
{
    match stripe {
        Some(stripe) => Some(stripe.offset),
        None => None,
    }
}

/// Whether a stripe begins with a block, and so many bytes from there on end within a device of `device` blocks.
fn stripe_lies_on(device: u64, length: u64, stripe: &Stripe) -> bool
    ensures { result ≡ stripe_lies_on device length stripe.now }
{
    stripe.offset % 4096 == 0 && stripe.offset as u128 + length as u128 <= 4096 * device as u128
}

/// The same of the second stripe of a chunk, which is on the device of the first one.
fn mirror_lies_on(device: u64, chunk: &Chunk, mirror: &Option<Stripe>) -> bool
    ensures { result ≡ mirror_lies_on device chunk.now mirror.now }
{
    match mirror {
        Some(stripe) => {
            stripe.devid == chunk.stripe.devid && stripe_lies_on(device, chunk.length, stripe)
        }
        None => true,
    }
}

/// Whether the address, the length and the places of a chunk are whole blocks, and each of its stripes ends within a
/// device of `device` blocks.
fn lies_on(device: u64, c: &ChunkAt) -> bool
    ensures { result ≡ lies_on device c.now }
{
    c.logical % 4096 == 0
        && c.chunk.length % 4096 == 0
        && stripe_lies_on(device, c.chunk.length, &c.chunk.stripe)
        && mirror_lies_on(device, &c.chunk, &c.mirror)
}

/// Whether there is an address in both ranges.
fn overlap(a: &MapRange, b: &MapRange) -> bool
    ensures { result ≡ overlap a.now b.now }
{
    let low = a.logical.max(b.logical) as u128;
    let a_end = a.logical as u128 + a.length as u128;
    let b_end = b.logical as u128 + b.length as u128;
    low < a_end.min(b_end)
}

/// Whether a range shares an address with one of others.
fn overlaps(range: &MapRange, others: &[MapRange]) -> bool
    ensures { result ≡ list_any (overlap range.now) others.now }
{
    for other in others {
        if overlap(range, other) {
            return true;
        }
    }
    false
}

/// Whether all fields of two stripes are the same.
fn same_stripe(a: &Stripe, b: &Stripe) -> bool
    ensures { result ≡ same_stripe a.now b.now }
{
    a.devid == b.devid && a.offset == b.offset && a.device_uuid == b.device_uuid
}

/// Whether all fields of two chunks are the same.
fn same_body(a: &Chunk, b: &Chunk) -> bool
    ensures { result ≡ same_body a.now b.now }
{
    a.length == b.length
        && a.owner == b.owner
        && a.stripe_len == b.stripe_len
        && a.kind == b.kind
        && a.io_align == b.io_align
        && a.io_width == b.io_width
        && a.sector_size == b.sector_size
        && a.num_stripes == b.num_stripes
        && a.sub_stripes == b.sub_stripes
        && same_stripe(&a.stripe, &b.stripe)
}

/// Whether the second stripes of two chunks are the same, or both have none.
fn same_mirror(a: &Option<Stripe>, b: &Option<Stripe>) -> bool
    ensures { result ≡ same_mirror a.now b.now }
{
    match a {
        Some(a) => match b {
            Some(b) => same_stripe(a, b),
            None => false,
        },
        None => b.is_none(),
    }
}

/// Whether all fields of two chunks are the same, with their addresses and second stripes.
fn same_chunk(a: &ChunkAt, b: &ChunkAt) -> bool
    ensures { result ≡ same_chunk a.now b.now }
{
    a.logical == b.logical && same_body(&a.chunk, &b.chunk) && same_mirror(&a.mirror, &b.mirror)
}

/// Whether a chunk is one of these.
pub fn is_among(c: &ChunkAt, others: &[ChunkAt]) -> bool
    ensures { result ≡ list_any (same_chunk c.now) others.now }
{
    for other in others {
        if same_chunk(c, other) {
            return true;
        }
    }
    false
}

/// Whether a chunk's kind is data, system or metadata alone, in one copy.
fn is_single_kind(kind: u64) -> bool
    ensures { result ≡ is_single_kind kind }
{
    kind == BLOCK_GROUP_DATA || kind == BLOCK_GROUP_SYSTEM || kind == BLOCK_GROUP_METADATA
}

/// The same in two copies on one device.
fn is_dup_kind(kind: u64) -> bool
    ensures { result ≡ is_dup_kind kind }
{
    kind == BLOCK_GROUP_DATA | BLOCK_GROUP_DUP
        || kind == BLOCK_GROUP_SYSTEM | BLOCK_GROUP_DUP
        || kind == BLOCK_GROUP_METADATA | BLOCK_GROUP_DUP
}

/// Whether chunks of this kind are read.
fn is_read_kind(kind: u64) -> bool
    ensures { result ≡ is_read_kind kind }
{
    is_single_kind(kind) || is_dup_kind(kind)
}

/// How many stripes a chunk of a kind that is read has.
fn stripes_of(kind: u64) -> u16
    ensures { result ≡ stripes_of kind }
{
    if is_dup_kind(kind) { 2 } else { 1 }
}

/// What is wrong with a chunk beside others, on a device of `device` blocks.
fn check_chunk(device: u64, others: &[MapRange], c: &ChunkAt) -> Result<(), BtrRefusal>
    ensures ok { OnOk result (beside_refusals device others.now c.now ≡ []) }
    ensures lies { OnOk result (lies_on device c.now ≡ true) }
    ensures err { IfErr result (λ r. Contains (beside_refusals device others.now c.now) r) }
    ensures known { IfErr result NamesNoLog }
{
    if !is_read_kind(c.chunk.kind) {
        return Err(BtrRefusal::Unsupported {
            feature: Feature::ChunkType,
            value: c.chunk.kind,
        });
    }
    if c.chunk.num_stripes != stripes_of(c.chunk.kind) {
        return Err(BtrRefusal::Unsupported {
            feature: Feature::ChunkType,
            value: c.chunk.num_stripes as u64,
        });
    }
    if !lies_on(device, c) || overlaps(&range_of(c), others) {
        return Err(BtrRefusal::BadBtrfs {
            address: c.logical,
            rule: BtrRule::ChunkForm,
        });
    }
    Ok(())
}

/// Adds a chunk to a map of addresses on a device of `device` blocks, unless something is wrong with it.
pub fn add_chunk(ranges: &mut Vec<MapRange>, device: u64, c: &ChunkAt) -> Result<(), BtrAnswer>
    requires inside { LieOn device ranges.old.items }
    ensures inside { LieOn device ranges.new.items }
    ensures added { OnOk result (ranges.new.items ≡ ranges.old.items ++ range_of c.now ∷ []) }
    ensures ok { OnOk result (beside_refusals device ranges.old.items c.now ≡ []) }
    ensures err { IfErr result (IsAmong (beside_refusals device ranges.old.items c.now)) }
    ensures known { IfErr result NamesNoLogTree }
    ensures cause { IfErr result IsNoFault }
{
    check_chunk(device, ranges.as_slice(), c)?;
    push_range(ranges, range_of(c))?;
    Ok(())
}

fn push_range(ranges: &mut Vec<MapRange>, range: MapRange) -> Result<(), Memory>
    ensures ok { OnOk result (ranges.new.items ≡ ranges.old.items ++ range ∷ []) }
    ensures err { OnErr result (ranges.new.items ≡ ranges.old.items) }
{
    ranges.push(range)?;
    Ok(())
}

/// A map of addresses once more.
pub fn copy_of(alloc: Global, ranges: &[MapRange]) -> Result<Vec<MapRange>, Memory>
    ensures { IfOk result (λ copy. copy.items ≡ ranges.now) }
{
    let mut copy = Vec::new(alloc);
    copy.extend_from_slice(ranges)?;
    Ok(copy)
}

/// Adds the chunks of a bootstrap array, one after the other, to an empty map.
pub fn add_chunks(
    ranges: &mut Vec<MapRange>,
    device: u64,
    chunks: &[ChunkAt],
) -> Result<(), BtrAnswer>
    requires empty { ranges.old.items ≡ [] }
    ensures inside { OnOk result (LieOn device ranges.new.items) }
    ensures added { OnOk result (ranges.new.items ≡ map range_of chunks.now) }
    ensures ok { OnOk result (chunks_refusals device [] chunks.now ≡ []) }
    ensures err { IfErr result (IsAmong (chunks_refusals device [] chunks.now)) }
    ensures known { IfErr result NamesNoLogTree }
    ensures cause { IfErr result IsNoFault }
{
    for c in chunks {
        add_chunk(ranges, device, c)?;
    }
    Ok(())
}
