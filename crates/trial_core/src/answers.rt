// The answers of the steps as those of a trial.
ghost use Rattle.std.specs.Prelude.{◌≡◌};
ghost use Rattle.trial_core.specs.Answers.{by_maker, by_step, changed as change};

use convert_core::Answer;
use reiser_bitmap::{Rule, VolumeRefusal};
use reiser_make::MakeAnswer;

/// The answer where what is read is not what was written: the device doesn't keep its blocks.
pub fn changed() -> Answer
    ensures { result ≡ change }
{
    Answer::Volume(VolumeRefusal::Damaged {
        block: 16,
        rule: Rule::Reread,
    })
}

/// The answer where a step was not done. A volume is refused only where a device doesn't keep its blocks.
pub fn step_answer(answer: Answer) -> Answer
    ensures { result ≡ by_step answer }
{
    match answer {
        Answer::NoSpace { .. } | Answer::Fault | Answer::Memory => answer,
        _ => changed(),
    }
}

/// The answer where the sample was not made.
pub fn make_answer(answer: MakeAnswer) -> Answer
    ensures { result ≡ by_maker answer }
{
    match answer {
        MakeAnswer::Full { needed, blocks } => Answer::NoSpace {
            needed,
            free: blocks,
            run_needed: 0,
            longest_run: 0,
        },
        MakeAnswer::Fault => Answer::Fault,
        MakeAnswer::Memory => Answer::Memory,
    }
}
