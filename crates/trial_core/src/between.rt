// The rows of the Btrfs volume in between.
ghost use Rattle.std.specs.Prelude.{◌<◌, IfErr};
ghost use Rattle.std.specs.Result.{MatchResult};
ghost use Rattle.reiser_bitmap.specs.outside.Fault.{HasCauseOf};
ghost use Rattle.reiser_bitmap.specs.outside.History.{OverTold};
ghost use Rattle.btr_reader.specs.Parts.{HasBtrfsRows, ListsBtrfs};
ghost use Rattle.trial_core.specs.Answers.{IsTrialReadAnswer, StopsUnless};

use crate::answers::step_answer;
use btr_reader::Btrfs;
use btr_reader::btrfs_format::block::SUPER_BLOCK;
use convert_core::Answer;
use reiser_bitmap::{Block, BlockSource};
use reiser_volume::fs_rows::Rows;
use std::alloc::Global;

/// The rows of the Btrfs volume of a source.
pub fn read_btrfs_rows<S: BlockSource>(alloc: Global, src: &mut S) -> Result<Rows, Answer>
    requires inside { 16 < S.size src.old }
    ensures kept { S.kept src.old src.new }
    ensures told { OverTold S.tells (S.blocks src.old) (λ image. MatchResult result (ListsBtrfs image) (StopsUnless (HasBtrfsRows image))) }
    ensures cause { HasCauseOf Answer.Fault (S.faults src.old) (S.faults src.new) result }
    ensures answers { IfErr result IsTrialReadAnswer }
{
    let mut block = Block::zero();
    src.read(SUPER_BLOCK, &mut block)?;
    match Btrfs::list(alloc, src, &block) {
        Ok(rows) => Ok(rows),
        Err(answer) => Err(step_answer(Answer::from(answer))),
    }
}
