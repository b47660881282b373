// The nodes of a tree, by its inner nodes alone.
ghost use Rattle.std.specs.Prelude.{IfErr};
ghost use Rattle.std.specs.Result.{MatchResult};
ghost use Rattle.reiser_bitmap.specs.outside.Fault.{HasCauseOf};
ghost use Rattle.reiser_bitmap.specs.outside.History.{OverTold};
ghost use Rattle.btr_reader.specs.Reading.{IsWalkable};
ghost use Rattle.btr_reader_walk.specs.Walks.{IsAmong, IsBadOrFailed, LieOn, wrong};
ghost use Rattle.volume_state.specs.Reserved.{IsMapApart};
ghost use Rattle.volume_state.specs.Using.{HoldsNodeOf, TellsReserved};

use crate::reserved::reserved_in;
use btr_reader_walk::{MapRange, NodeWalker, Owners, Tree};
use reiser_bitmap::{BlockNo, BlockSource, BtrAnswer};
use std::alloc::Global;

/// A reserved block of a volume of so many blocks in which a node of a tree lies. None exactly where there is none.
///
/// The inner nodes are read. Of a leaf only its address is looked at, so nothing is said of whether its bytes are right.
pub fn reserved_node<S: BlockSource>(
    alloc: Global,
    src: &mut S,
    tree: &Tree,
    ranges: &[MapRange],
    blocks: u64,
) -> Result<Option<BlockNo>, BtrAnswer>
    requires walkable { IsWalkable tree.now }
    requires inside { LieOn (S.size src.old) ranges.now }
    ensures kept { S.kept src.old src.new }
    ensures cause { HasCauseOf BtrAnswer.Fault (S.faults src.old) (S.faults src.new) result }
    ensures answers { IfErr result IsBadOrFailed }
    ensures told { OverTold S.tells (S.blocks src.old) (λ image. IsMapApart ranges.now → MatchResult result (TellsReserved (HoldsNodeOf image ranges.now tree.now) blocks) (IsAmong (wrong image ranges.now tree.now))) }
{
    let nodesize = tree.form.nodesize as u64;
    let mut walker = NodeWalker::new(alloc, *tree, Owners::Own)?;
    while let Some(entry) = walker.take() {
        let address = entry.pointer.address as u128;
        if let Some(block) = reserved_in(ranges, address, nodesize, blocks) {
            return Ok(Some(block));
        }
        if entry.pointer.level > 0 {
            walker.open(src, ranges, &entry)?;
        }
    }
    Ok(None)
}
