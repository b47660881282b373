// What Linux asks of each chunk by itself.
ghost use Rattle.std.specs.Prelude.{◌≡◌, ℕ, All, AllPairs, IfOk, map};
ghost use Rattle.std.specs.List.{flat_map};
ghost use Rattle.btr_check_rules.specs.Groups.{Apart, AreChunksApart, IsChunkOn, chunk_span, stripe_spans};
ghost use Rattle.btr_check_fields.specs.Failing.{Answers, FailsOf, Overlaps, first_found};
ghost use Rattle.btr_check_fields.specs.Tests.{is_chunk, is_second, is_stripe};
ghost use Rattle.btr_check_rules.specs.btr_reader.declared.chunk.ChunkAt.{ChunkAt as Chunk};

use crate::overlap::overlap;
use crate::stripes::{chunk_spans, device_spans};
use btr_check_rules::btr_reader::ChunkAt;
use btr_check_rules::btr_reader::btr_reader_walk::Memory;
use btr_check_rules::btr_reader::btr_space_items::Stripe;
use btr_check_rules::btr_reader::btr_super::Super;
use std::alloc::Global;

/// Whether a stripe of so many bytes is on the volume's device, and lies within its bytes.
fn is_stripe(sup: &Super, length: u64, stripe: &Stripe) -> bool
    ensures { result ≡ is_stripe sup.now length stripe.now }
{
    stripe.devid == sup.dev_item.devid
        && stripe.device_uuid == sup.dev_item.uuid
        && stripe.offset % 4096 == 0
        && stripe.offset as u128 + length as u128 <= sup.total_bytes as u128
}

/// The same of a second stripe, if there is one.
fn is_second(sup: &Super, length: u64, stripe: &Option<Stripe>) -> bool
    ensures { result ≡ is_second sup.now length stripe.now }
{
    match stripe {
        Some(stripe) => is_stripe(sup, length, stripe),
        None => true,
    }
}

/// Whether Linux takes a chunk: by its sizes, and by where its stripes lie.
fn is_chunk(sup: &Super, c: &ChunkAt) -> bool
    ensures { result ≡ is_chunk sup.now c.now }
{
    c.chunk.sector_size == 4096
        && c.chunk.stripe_len == 65536
        && c.chunk.length != 0
        && c.logical % 4096 == 0
        && c.chunk.length % 4096 == 0
        && c.logical as u128 + c.chunk.length as u128 <= u64::MAX as u128
        && is_stripe(sup, c.chunk.length, &c.chunk.stripe)
        && is_second(sup, c.chunk.length, &c.mirror)
}

/// The address of the first chunk that Linux would not take; None where there is none.
pub fn invalid_chunk(sup: &Super, chunks: &[ChunkAt]) -> Option<u64>
    ensures { Answers (All (IsChunkOn sup.now) chunks.now) (FailsOf (λ (c : Chunk). c.logical) (IsChunkOn sup.now) chunks.now) result }
{
    for c in chunks {
        if !is_chunk(sup, c) {
            return Some(c.logical);
        }
    }
    None
}

/// The first of two answers, or the second where that is none.
fn first_found(first: Option<u64>, second: Option<u64>) -> Option<u64>
    ensures { result ≡ first_found first second }
{
    match first {
        Some(address) => Some(address),
        None => second,
    }
}

/// Where two chunks overlap, by their addresses or on the device; None where no two do.
fn overlapping(alloc: Global, chunks: &[ChunkAt]) -> Result<Option<u64>, Memory>
    ensures { IfOk result (Answers (AllPairs Apart (map chunk_span chunks.now) × AllPairs Apart (flat_map stripe_spans chunks.now)) (Overlaps chunks.now)) }
{
    let addresses = chunk_spans(alloc, chunks)?;
    let places = device_spans(alloc, chunks)?;
    let by_address = overlap(addresses.as_slice());
    let on_device = overlap(places.as_slice());
    Ok(first_found(by_address, on_device))
}

/// The address of a chunk that Linux would not take, or that overlaps another one; or a place of the device where two
/// overlap. None where there is none.
pub fn wrong_chunk(alloc: Global, sup: &Super, chunks: &[ChunkAt]) -> Result<Option<u64>, Memory>
    ensures { IfOk result (Answers ((a : ℕ) → AreChunksApart sup.now chunks.now a) (λ a. ¬ AreChunksApart sup.now chunks.now a)) }
{
    match invalid_chunk(sup, chunks) {
        Some(address) => Ok(Some(address)),
        None => overlapping(alloc, chunks),
    }
}
