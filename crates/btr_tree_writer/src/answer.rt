use btr_tree::{Memory, TreeAnswer, VolAnswer, VolumeRefusal};
use thiserror::Error;

/// Why a tree was not written.
#[derive(Clone, Copy, Debug, PartialEq, Eq, Error)]
pub enum WriteAnswer {
    /// The volume that the items are read from is refused: a block reads otherwise than before.
    #[error("{0}")]
    Refused(VolumeRefusal),
    /// The items don't ascend, one is too long for a node, or they take more nodes than there are slots. Sources that tell
    /// such items only over blocks that read otherwise than before.
    #[error("the items are not those of a tree")]
    Misfit,
    /// A call of the device failed.
    #[error("device fault")]
    Fault,
    /// There was no memory.
    #[error("out of memory")]
    Memory,
}

impl From<VolAnswer> for WriteAnswer {
    ghost use Rattle.std.specs.Prelude.{◌≡◌};
    ghost use Rattle.btr_tree_writer.specs.Answers.{of_source};

    ghost from_gives = { λ a e. e ≡ of_source a };

    fn from(answer: VolAnswer) -> Self {
        match answer {
            VolAnswer::Refused(refusal) => WriteAnswer::Refused(refusal),
            VolAnswer::Fault => WriteAnswer::Fault,
            VolAnswer::Memory => WriteAnswer::Memory,
        }
    }
}

impl From<TreeAnswer> for WriteAnswer {
    ghost use Rattle.std.specs.Prelude.{◌≡◌};
    ghost use Rattle.btr_tree_writer.specs.Answers.{of_builder};

    ghost from_gives = { λ a e. e ≡ of_builder a };

    fn from(answer: TreeAnswer) -> Self {
        match answer {
            TreeAnswer::OutOfSlots => WriteAnswer::Misfit,
            TreeAnswer::Fault => WriteAnswer::Fault,
            TreeAnswer::Memory => WriteAnswer::Memory,
        }
    }
}

impl From<Memory> for WriteAnswer {
    ghost use Rattle.std.specs.Prelude.{◌≡◌};
    ghost use Rattle.btr_tree_writer.specs.declared.answer.WriteAnswer.TheVariants as answer;

    ghost from_gives = { λ _ e. e ≡ answer.Memory };

    fn from(_: Memory) -> Self {
        WriteAnswer::Memory
    }
}
