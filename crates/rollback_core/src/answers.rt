// The answers of the steps as those of a rollback.
ghost use Rattle.std.specs.Prelude.{◌≡◌};
ghost use Rattle.reiser_bitmap.specs.refusals.declared.refusal.VolumeRefusal.TheVariants.{Damaged};
ghost use Rattle.rollback_core.specs.Prepared.{by_image};

use btr_reader::btrfs_format::block::SUPER_BLOCK;
use convert_steps::Answer;
use reiser_bitmap::{Rule, VolAnswer, VolumeRefusal};

/// The answer by that of the volume in the saved image.
pub fn image_answer(answer: VolAnswer) -> Answer
    ensures { result ≡ by_image answer }
{
    match answer {
        VolAnswer::Refused(refusal) => Answer::ImageDamaged(refusal),
        VolAnswer::Fault => Answer::Fault,
        VolAnswer::Memory => Answer::Memory,
    }
}

/// The answer where the old volume doesn't fit its image: a block reads otherwise than before.
pub fn changed() -> Answer
    ensures { result ≡ Answer.ImageDamaged (Damaged SUPER_BLOCK Rule.Reread) }
{
    Answer::ImageDamaged(VolumeRefusal::Damaged {
        block: SUPER_BLOCK,
        rule: Rule::Reread,
    })
}
