ghost use Rattle.std.specs.Prelude.{◌≡◌, ◌↔◌, length, sum_by, IfOk, IsTrue};
ghost use Rattle.reiser_volume.specs.Opened.{links_in};
ghost use Rattle.unit_plan.specs.Needed.{AreSmall};
ghost use Rattle.extent_pieces.specs.Parts.{capped};
ghost use Rattle.extent_pieces.specs.Tallies.{TellsCounts};

use crate::parts::FileParts;
use reiser_bitmap::Memory;
use reiser_volume::Volume;
use unit_plan::{Counts, Piece};

/// Each count is below this.
const BOUND: u64 = 1 << 50;

/// The counts of a volume of which these are the pieces, so many of them kept. A sum that is too large is capped.
pub fn counts_of(
    volume: &Volume,
    parts: &FileParts,
    items: &[Piece],
    kept: usize,
) -> Result<Counts, Memory>
    ensures { IfOk result (TellsCounts volume.now parts.now items.now kept) }
{
    let map = volume.bitmap();
    let tails = parts.tails.len();
    Ok(Counts {
        blocks: map.len(),
        runs: map.free_runs()?.len() as u64,
        pieces: items.len() as u64,
        piece_blocks: block_count(items),
        copies: items.len().saturating_sub(kept).saturating_sub(tails) as u64,
        tails: tails as u64,
        objects: volume.count() as u64,
        names: volume.link_count() as u64,
        letters: letter_count(volume),
        inlines: parts.inlines,
        inline_bytes: parts.inline_bytes,
    })
}

/// The blocks of all pieces, capped.
fn block_count(items: &[Piece]) -> u64
    ensures { result ≡ capped (sum_by (λ p. p.count) items.now) }
{
    let mut count: u64 = 0;
    for piece in items {
        count = count.saturating_add(piece.count);
    }
    count
}

/// The bytes of the names of all links, capped.
fn letter_count(volume: &Volume) -> u64
    ensures { result ≡ capped (sum_by (λ n. length n.name) (links_in volume.now)) }
{
    let mut count: u64 = 0;
    for i in 0..volume.link_count() {
        count = count.saturating_add(volume.link(i).name.len() as u64);
    }
    count
}

/// Whether each count is below 2^50, so that the space that is needed can be counted.
pub fn are_small(counts: &Counts) -> bool
    ensures { IsTrue result ↔ AreSmall counts.now }
{
    counts.blocks < BOUND
        && counts.runs < BOUND
        && counts.pieces < BOUND
        && counts.piece_blocks < BOUND
        && counts.copies < BOUND
        && counts.tails < BOUND
        && counts.objects < BOUND
        && counts.names < BOUND
        && counts.letters < BOUND
        && counts.inlines < BOUND
        && counts.inline_bytes < BOUND
}
