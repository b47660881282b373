ghost use Rattle.std.specs.Prelude.{◌≤◌, IsSome, IsTrue};
ghost use Rattle.btr_reader_walk.specs.Stack.{is_node_size};
ghost use Rattle.btr_reader_walk.specs.Walks.{LieOn};
ghost use Rattle.btr_super.specs.Sums.{known_kind};

use crate::roots::RootItems;
use btr_reader_walk::MapRange;
use btr_super::Super;

/// An opened Btrfs volume: its superblock, the map of its addresses, and the root items of its trees.
#[derive(Drop)]
pub struct Btrfs {
    pub sup: Super,
    /// How many blocks the device had.
    pub device: u64,
    pub ranges: Vec<MapRange>,
    pub roots: RootItems,
    ghost size: { IsTrue (is_node_size sup.nodesize) },
    ghost high: { sup.root_level ≤ 7 },
    ghost chunks_high: { sup.chunk_root_level ≤ 7 },
    ghost kind: { IsSome (known_kind sup.csum_type) },
    ghost inside: { LieOn device ranges.items },
}
