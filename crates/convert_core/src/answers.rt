// The answers of the steps as those of the conversion.
ghost use Rattle.std.specs.Prelude.{◌≡◌};
ghost use Rattle.convert_core.specs.Answers.{by_writer};

use btr_tree_writer::WriteAnswer;
use convert_steps::Answer;
use reiser_volume::{BlockNo, Rule, VolumeRefusal};

/// The answer where a tree was not written, of a volume whose tree begins at this block. A misfit tells that blocks read
/// otherwise than before.
pub fn write_answer(answer: WriteAnswer, root: BlockNo) -> Answer
    ensures { result ≡ by_writer root answer }
{
    match answer {
        WriteAnswer::Refused(refusal) => Answer::Volume(refusal),
        WriteAnswer::Misfit => changed(root),
        WriteAnswer::Fault => Answer::Fault,
        WriteAnswer::Memory => Answer::Memory,
    }
}

/// The answer where what is read of the volume does not fit together: a block reads otherwise than before.
pub fn changed(root: BlockNo) -> Answer
    ensures { result ≡ by_writer root WriteAnswer.Misfit }
{
    Answer::Volume(VolumeRefusal::Damaged {
        block: root,
        rule: Rule::Reread,
    })
}
