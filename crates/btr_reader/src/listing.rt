ghost use Rattle.std.specs.Prelude.{◌≡◌};
ghost use Rattle.std.specs.Result.{MatchResult};
ghost use Rattle.btr_reader_walk.specs.outside.Fault.{HasCauseOf};
ghost use Rattle.btr_reader_walk.specs.outside.History.{OverTold, block_at};
ghost use Rattle.btr_reader.specs.Parts.{ListsBtrfs, RefusesBtrfsRows};

use crate::open::super_by;
use crate::volume::Btrfs;
use btr_reader_walk::{Block, BlockSource, BtrAnswer, BtrRefusal};
use btr_space_items::btrfs_format::block::SUPER_BLOCK;
use fs_paths::fs_rows::Rows;
use std::alloc::Global;

impl Btrfs {
    /// The rows of the volume of a source whose block 16 was read; that is read no second time.
    ///
    /// A log tree is answered before all that is wrong but with the superblock, and what is wrong with the superblock, the
    /// chunks or the root tree before what is wrong with the file tree.
    pub fn list<S: BlockSource>(
        alloc: Global,
        src: &mut S,
        block: &Block,
    ) -> Result<Rows, BtrAnswer>
        ensures kept { S.kept src.old src.new }
        ensures cause { HasCauseOf BtrAnswer.Fault (S.faults src.old) (S.faults src.new) result }
        ensures rows { OverTold S.tells (S.blocks src.old) (λ image. block.now.bytes ≡ block_at image SUPER_BLOCK → MatchResult result (ListsBtrfs image) (RefusesBtrfsRows image)) }
    {
        let sup = super_by(block, src.len())?;
        if sup.log_root != 0 {
            return Err(BtrAnswer::Refused(BtrRefusal::LogPending {
                address: sup.log_root,
            }));
        }
        let volume = Btrfs::open_with(alloc, src, sup)?;
        volume.rows(alloc, src)
    }
}
