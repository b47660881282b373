// Whether a device is one for a trial.
ghost use Rattle.std.specs.Prelude.{◌≡◌, ◌≤◌, IfErr, OnOk};
ghost use Rattle.std.specs.Result.{MatchResult};
ghost use Rattle.reiser_bitmap.specs.outside.Fault.{HasCauseOf};
ghost use Rattle.reiser_bitmap.specs.outside.History.{OverTold};
ghost use Rattle.trial_core.specs.Answers.{IsScratchAnswer, RefusesScratch};
ghost use Rattle.trial_core.specs.Trial.{IsScratch};

use convert_core::{Answer, find_format};
use reiser_bitmap::{BlockSource, Format, VolumeRefusal};

/// How many blocks the sample's volume has: 256 MiB.
pub const BLOCKS: u64 = 65536;

/// Checks that a device has no volume, which would be overwritten, and then that it has blocks enough.
pub fn check_scratch<S: BlockSource>(src: &mut S) -> Result<(), Answer>
    ensures kept { S.kept src.old src.new }
    ensures long { OnOk result (65536 ≤ S.size src.old) }
    ensures found { OverTold S.tells (S.blocks src.old) (λ disk. MatchResult result (λ _. IsScratch disk) (RefusesScratch disk)) }
    ensures cause { HasCauseOf Answer.Fault (S.faults src.old) (S.faults src.new) result }
    ensures answers { IfErr result IsScratchAnswer }
{
    let found = find_format(src)?;
    if found.format != Format::Neither {
        return Err(Answer::WrongFormat);
    }
    let device = src.len();
    if device < BLOCKS {
        return Err(Answer::Volume(VolumeRefusal::Short {
            volume: BLOCKS,
            device,
        }));
    }
    Ok(())
}
