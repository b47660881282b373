// The ranges that chunks take: of addresses, and of the device.
ghost use Rattle.std.specs.Prelude.{◌≡◌, ◌++◌, map, IfOk, OnOk};
ghost use Rattle.std.specs.List.{flat_map};
ghost use Rattle.btr_check_rules.specs.Groups.{chunk_span, stripe_span, stripe_spans};

use btr_check_rules::Span;
use btr_check_rules::btr_reader::ChunkAt;
use btr_check_rules::btr_reader::btr_reader_walk::Memory;
use std::alloc::Global;

/// The range of addresses of a chunk.
fn chunk_span(c: &ChunkAt) -> Span
    ensures { result ≡ chunk_span c.now }
{
    Span {
        start: c.logical,
        length: c.chunk.length,
    }
}

/// Adds the ranges of the device of a chunk: of its one stripe, or of two.
fn push_stripes(spans: &mut Vec<Span>, c: &ChunkAt) -> Result<(), Memory>
    ensures { OnOk result (spans.new.items ≡ spans.old.items ++ stripe_spans c.now) }
{
    spans.push(Span {
        start: c.chunk.stripe.offset,
        length: c.chunk.length,
    })?;
    if let Some(mirror) = &c.mirror {
        spans.push(Span {
            start: mirror.offset,
            length: c.chunk.length,
        })?;
    }
    Ok(())
}

/// The ranges of addresses of chunks.
pub fn chunk_spans(alloc: Global, chunks: &[ChunkAt]) -> Result<Vec<Span>, Memory>
    ensures { IfOk result (λ spans. spans.items ≡ map chunk_span chunks.now) }
{
    let mut spans = Vec::new(alloc);
    for c in chunks {
        spans.push(chunk_span(c))?;
    }
    Ok(spans)
}

/// The ranges of the device on which chunks lie.
pub fn device_spans(alloc: Global, chunks: &[ChunkAt]) -> Result<Vec<Span>, Memory>
    ensures { IfOk result (λ spans. spans.items ≡ flat_map stripe_spans chunks.now) }
{
    let mut spans = Vec::new(alloc);
    for c in chunks {
        push_stripes(&mut spans, c)?;
    }
    Ok(spans)
}
