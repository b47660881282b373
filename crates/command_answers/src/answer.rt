use refusals::{BlockNo, BtrAnswer, BtrRefusal, Fault, Memory, VolAnswer, VolumeRefusal};
use thiserror::Error;

/// Why a command was not done.
#[derive(Clone, Copy, Debug, PartialEq, Eq, Error)]
pub enum Answer {
    /// The ReiserFS volume is refused.
    #[error("refused: {0}")]
    Volume(VolumeRefusal),
    /// The Btrfs volume is refused.
    #[error("refused: {0}")]
    Btr(BtrRefusal),
    /// There is too little room: units of 256 blocks that are needed and free, and the longest run that is needed
    /// and there.
    #[error("needs {needed} of {free} free units, and a run of {run_needed} where {longest_run} is the longest")]
    NoSpace {
        needed: u64,
        free: u64,
        run_needed: u64,
        longest_run: u64,
    },
    /// The volume has the format that the command does not take.
    #[error("wrong format")]
    WrongFormat,
    /// The saved image is not there.
    #[error("no saved image")]
    ImageMissing,
    /// This block of the saved image was moved.
    #[error("block {block} of the image was moved")]
    ImageMoved {
        block: BlockNo,
    },
    /// The saved image is refused as a ReiserFS volume.
    #[error("saved image: {0}")]
    ImageDamaged(VolumeRefusal),
    /// This reserved block is in use.
    #[error("reserved block {block} is in use")]
    ReservedUsed {
        block: BlockNo,
    },
    /// The Btrfs volume is not sound: this part of what a sound volume is does not hold at this address. No command
    /// answers it yet.
    #[error("part {part} of a sound volume does not hold at {address}")]
    NotSound {
        part: u8,
        address: u64,
    },
    /// The subvolume of the saved image is shared with this tree. No command answers it yet.
    #[error("the image is shared with tree {tree}")]
    ImageShared {
        tree: u64,
    },
    /// A call of the device failed.
    #[error("device fault")]
    Fault,
    /// There was no memory.
    #[error("out of memory")]
    Memory,
}

impl From<VolumeRefusal> for Answer {
    ghost use Rattle.std.specs.Prelude.{◌≡◌};
    ghost use Rattle.command_answers.specs.declared.answer.Answer.TheVariants as answers;

    ghost from_gives = { λ refusal e. e ≡ answers.Volume refusal };

    fn from(refusal: VolumeRefusal) -> Self {
        Answer::Volume(refusal)
    }
}

impl From<BtrRefusal> for Answer {
    ghost use Rattle.std.specs.Prelude.{◌≡◌};
    ghost use Rattle.command_answers.specs.declared.answer.Answer.TheVariants as answers;

    ghost from_gives = { λ refusal e. e ≡ answers.Btr refusal };

    fn from(refusal: BtrRefusal) -> Self {
        Answer::Btr(refusal)
    }
}

impl From<Fault> for Answer {
    ghost use Rattle.std.specs.Prelude.{◌≡◌};
    ghost use Rattle.command_answers.specs.declared.answer.Answer.TheVariants as answers;

    ghost from_gives = { λ _ e. e ≡ answers.Fault };

    fn from(_: Fault) -> Self {
        Answer::Fault
    }
}

impl From<Memory> for Answer {
    ghost use Rattle.std.specs.Prelude.{◌≡◌};
    ghost use Rattle.command_answers.specs.declared.answer.Answer.TheVariants as answers;

    ghost from_gives = { λ _ e. e ≡ answers.Memory };

    fn from(_: Memory) -> Self {
        Answer::Memory
    }
}

impl From<VolAnswer> for Answer {
    ghost use Rattle.std.specs.Prelude.{◌≡◌};
    ghost use Rattle.command_answers.specs.Answers.{of_volume};

    ghost from_gives = { λ a e. e ≡ of_volume a };

    fn from(answer: VolAnswer) -> Self {
        match answer {
            VolAnswer::Refused(refusal) => Answer::Volume(refusal),
            VolAnswer::Fault => Answer::Fault,
            VolAnswer::Memory => Answer::Memory,
        }
    }
}

impl From<BtrAnswer> for Answer {
    ghost use Rattle.std.specs.Prelude.{◌≡◌};
    ghost use Rattle.command_answers.specs.Answers.{of_btrfs};

    ghost from_gives = { λ a e. e ≡ of_btrfs a };

    fn from(answer: BtrAnswer) -> Self {
        match answer {
            BtrAnswer::Refused(refusal) => Answer::Btr(refusal),
            BtrAnswer::Fault => Answer::Fault,
            BtrAnswer::Memory => Answer::Memory,
        }
    }
}
