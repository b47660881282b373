ghost use Rattle.std.specs.Prelude.{◌≡◌, ◌≤◌, ◌++◌, [], IfOk, IfErr, OnOk};
ghost use Rattle.btr_reader_walk.specs.outside.Fault.{HasCauseOf};
ghost use Rattle.btr_reader_walk.specs.outside.History.{OverTold};
ghost use Rattle.btr_reader_walk.specs.btr_node.NodeSize.{IsNodeSize};
ghost use Rattle.btr_reader_walk.specs.Walks.{LieOn, found, wrong};
ghost use Rattle.btr_reader.specs.Chunks.{chunk_in, with_chunk, with_items, chunk_item_refusals, items_refusals};
ghost use Rattle.btr_reader_names.specs.Refuses.{IsNoFault};
ghost use Rattle.btr_reader.specs.Opening.{IsAmong, NamesNoLogTree};

use crate::chunk::{ChunkAt, add_chunk, copy_of, is_among, is_chunk_key};
use crate::refusal::refused;
use btr_reader_walk::{BlockSource, BtrAnswer, BtrRule, Key, MapRange, Tree, TreeWalker};
use std::alloc::Global;

/// Adds what an item of the chunk tree adds to the map, where `boot` are the chunks of the bootstrap array.
fn add_item(
    ranges: &mut Vec<MapRange>,
    boot: &[ChunkAt],
    device: u64,
    key: &Key,
    body: &[u8],
) -> Result<(), BtrAnswer>
    requires inside { LieOn device ranges.old.items }
    ensures inside { LieOn device ranges.new.items }
    ensures added { OnOk result (ranges.new.items ≡ with_chunk ranges.old.items (chunk_in boot.now key.now body.now)) }
    ensures ok { OnOk result (chunk_item_refusals device ranges.old.items key.now.offset (chunk_in boot.now key.now body.now) ≡ []) }
    ensures err { IfErr result (IsAmong (chunk_item_refusals device ranges.old.items key.now.offset (chunk_in boot.now key.now body.now))) }
    ensures known { IfErr result NamesNoLogTree }
    ensures cause { IfErr result IsNoFault }
{
    if !is_chunk_key(key) {
        return Ok(());
    }
    let c = match ChunkAt::read(key.offset, body) {
        Some(c) => c,
        None => return Err(refused(key.offset, BtrRule::ChunkForm)),
    };
    if is_among(&c, boot) {
        return Ok(());
    }
    add_chunk(ranges, device, &c)
}

/// The map of addresses that a chunk tree makes beside the bootstrap array, whose chunks are `boot` and whose map is `first`.
/// The nodes of the tree lie by the array alone.
pub fn read_chunks<S: BlockSource>(
    alloc: Global,
    src: &mut S,
    tree: Tree,
    device: u64,
    boot: &[ChunkAt],
    first: &[MapRange],
) -> Result<Vec<MapRange>, BtrAnswer>
    requires size { IsNodeSize tree.form.nodesize }
    requires high { tree.root.level ≤ 7 }
    requires device { device ≡ S.size src.old }
    requires inside { LieOn device first.now }
    ensures kept { S.kept src.old src.new }
    ensures cause { HasCauseOf BtrAnswer.Fault (S.faults src.old) (S.faults src.new) result }
    ensures known { IfErr result NamesNoLogTree }
    ensures inside { IfOk result (λ ranges. LieOn device ranges.items) }
    ensures ok { OverTold S.tells (S.blocks src.old) (λ image. OnOk result (wrong image first.now tree ++ items_refusals device boot.now first.now (found image first.now tree) ≡ [])) }
    ensures map { OverTold S.tells (S.blocks src.old) (λ image. IfOk result (λ ranges. ranges.items ≡ with_items boot.now first.now (found image first.now tree))) }
    ensures err { OverTold S.tells (S.blocks src.old) (λ image. IfErr result (IsAmong (wrong image first.now tree ++ items_refusals device boot.now first.now (found image first.now tree)))) }
{
    let mut ranges = copy_of(alloc, first)?;
    let mut walker = TreeWalker::new(alloc, tree)?;
    while walker.advance(src, first)? {
        add_item(&mut ranges, boot, device, &walker.key(), walker.body())?;
    }
    Ok(ranges)
}
