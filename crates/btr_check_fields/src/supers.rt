// The fields of the superblock that only Linux looks at.
ghost use Rattle.std.specs.Bool.{Decides};
ghost use Rattle.btr_check_rules.specs.Trees.{KeepsSuper};

use btr_check_rules::btr_reader::btr_space_items::btrfs_format::size::SYSTEM_CHUNK_SIZE;
use btr_check_rules::btr_reader::btr_super::Super;

/// Whether Linux takes the superblock: its flags, the places of roots, its sizes, and that neither its array nor the volume
/// is empty.
pub fn keeps_super(sup: &Super) -> bool
    ensures { Decides result (KeepsSuper sup.now) }
{
    sup.flags < 4
        && sup.root % 4096 == 0
        && sup.chunk_root % 4096 == 0
        && sup.leafsize == sup.nodesize
        && sup.stripesize == 4096
        && sup.sys_chunk_array_size as usize >= SYSTEM_CHUNK_SIZE
        && sup.total_bytes != 0
        && sup.chunk_root_generation <= sup.generation
}
