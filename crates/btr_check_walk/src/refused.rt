// What is wrong with the nodes of a tree, as an answer of the check.
ghost use Rattle.std.specs.Prelude.{◌≡◌};
ghost use Rattle.btr_check_rules.specs.Trees.{refused_at};
ghost use Rattle.btr_check_walk.specs.Parts.{tree_answer};

use crate::parts::SoundPart;
use btr_check_rules::btr_reader::btr_reader_walk::{BtrAnswer, BtrRefusal};
use btr_check_rules::btr_reader::btrfs_format::block::SUPER_INFO_OFFSET;
use command_answers::Answer;

/// Where something is wrong, in bytes.
fn refused_at(refusal: &BtrRefusal) -> u64
    ensures { result ≡ refused_at refusal.now }
{
    match refusal {
        BtrRefusal::BadBtrfs { address, .. } => *address,
        BtrRefusal::LogPending { address } => *address,
        BtrRefusal::Unsupported { .. } => SUPER_INFO_OFFSET,
    }
}

/// The answer where a call on the nodes of a tree ended so: what is wrong with them breaks part 1.
pub fn tree_answer(answer: BtrAnswer) -> Answer
    ensures { result ≡ tree_answer answer }
{
    match answer {
        BtrAnswer::Refused(refusal) => SoundPart::Trees.fails_at(refused_at(&refusal)),
        BtrAnswer::Fault => Answer::Fault,
        BtrAnswer::Memory => Answer::Memory,
    }
}
