ghost use Rattle.std.specs.Prelude.{◌≡◌, ◌≤◌, IfErr, IfOk, length};
ghost use Rattle.std.specs.Result.{MatchResult};
ghost use Rattle.reiser_bitmap.specs.outside.Fault.{HasCauseOf};
ghost use Rattle.reiser_bitmap.specs.outside.History.{OverTold};
ghost use Rattle.reiser_volume.specs.Volume.{IsAccepted, used_of};
ghost use Rattle.trial_core.specs.Answers.{IsTrialReadAnswer, IsStop, StopsUnless};
ghost use Rattle.trial_core.specs.Round.{AreReiser, IsKnownVolume};
ghost use Rattle.trial_core.specs.Parts.{used_mark};

use crate::answers::{changed, step_answer};
use crate::read_mark;
use convert_core::Answer;
use reiser_bitmap::{Bitmap, BlockSource};
use reiser_volume::fs_rows::Rows;
use reiser_volume::{Front, Volume, fronts_are_judged, refusals_break_rules};
use std::alloc::Global;

/// What is known of the ReiserFS volume before its conversion.
#[derive(Drop)]
pub struct KnownVolume {
    /// Its rows.
    pub rows: Rows,
    /// Its used blocks.
    pub used: Bitmap,
    /// The mark of these.
    pub mark: [u8; 32],
}

impl KnownVolume {
    /// Reads rows and used blocks of an accepted volume.
    pub fn read<S: BlockSource>(alloc: Global, src: &mut S) -> Result<KnownVolume, Answer>
        ensures kept { S.kept src.old src.new }
        ensures inside { IfOk result (λ known. length known.used ≤ S.size src.old) }
        ensures told { OverTold S.tells (S.blocks src.old) (λ image. IsAccepted image → MatchResult result (IsKnownVolume image) IsStop) }
        ensures cause { HasCauseOf Answer.Fault (S.faults src.old) (S.faults src.new) result }
        ensures answers { IfErr result IsTrialReadAnswer }
    {
        let used = read_used(alloc, src)?;
        let rows = read_rows(alloc, src)?;
        let mark = read_mark(&used, src)?;
        Ok(KnownVolume { rows, used, mark })
    }

    /// Whether the used blocks still have their mark.
    pub fn check_blocks<S: BlockSource>(&self, src: &mut S) -> Result<(), Answer>
        requires inside { length self.now.used ≤ S.size src.old }
        ensures kept { S.kept src.old src.new }
        ensures told { OverTold S.tells (S.blocks src.old) (λ image.
            MatchResult result (λ _. used_mark self.now.used image ≡ self.now.mark) (StopsUnless (used_mark self.now.used image ≡ self.now.mark))) }
        ensures cause { HasCauseOf Answer.Fault (S.faults src.old) (S.faults src.new) result }
        ensures answers { IfErr result IsTrialReadAnswer }
    {
        let mark = read_mark(&self.used, src)?;
        if mark == self.mark {
            Ok(())
        } else {
            Err(changed())
        }
    }
}

/// The used blocks of an accepted volume.
fn read_used<S: BlockSource>(alloc: Global, src: &mut S) -> Result<Bitmap, Answer>
    ensures kept { S.kept src.old src.new }
    ensures inside { IfOk result (λ used. length used ≤ S.size src.old) }
    ensures told { OverTold S.tells (S.blocks src.old) (λ image. IsAccepted image → MatchResult result (λ used. used ≡ used_of image) IsStop) }
    ensures cause { HasCauseOf Answer.Fault (S.faults src.old) (S.faults src.new) result }
    ensures answers { IfErr result IsTrialReadAnswer }
{
    fronts_are_judged();
    match Front::open(alloc, src) {
        Ok(front) => Ok(front.bitmap),
        Err(answer) => Err(step_answer(Answer::from(answer))),
    }
}

/// The rows of an accepted volume.
fn read_rows<S: BlockSource>(alloc: Global, src: &mut S) -> Result<Rows, Answer>
    ensures kept { S.kept src.old src.new }
    ensures told { OverTold S.tells (S.blocks src.old) (λ image. IsAccepted image → MatchResult result (AreReiser image) IsStop) }
    ensures cause { HasCauseOf Answer.Fault (S.faults src.old) (S.faults src.new) result }
    ensures answers { IfErr result IsTrialReadAnswer }
{
    refusals_break_rules();
    let volume = match Volume::open(alloc, src) {
        Ok(volume) => volume,
        Err(answer) => return Err(step_answer(Answer::from(answer))),
    };
    match volume.rows(alloc, src) {
        Ok(rows) => Ok(rows),
        Err(answer) => Err(step_answer(Answer::from(answer))),
    }
}
