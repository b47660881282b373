use crate::{BtrRefusal, VolumeRefusal};
use outside::{Fault, Memory};
use thiserror::Error;

/// Why a call on a ReiserFS volume gave nothing.
#[derive(Clone, Copy, Debug, PartialEq, Eq, Error)]
pub enum VolAnswer {
    /// The volume is refused.
    #[error("refused: {0}")]
    Refused(VolumeRefusal),
    /// A call of the device failed.
    #[error("device fault")]
    Fault,
    /// There was no memory.
    #[error("out of memory")]
    Memory,
}

/// Why a call on a Btrfs volume gave nothing.
#[derive(Clone, Copy, Debug, PartialEq, Eq, Error)]
pub enum BtrAnswer {
    /// The volume is refused.
    #[error("refused: {0}")]
    Refused(BtrRefusal),
    /// A call of the device failed.
    #[error("device fault")]
    Fault,
    /// There was no memory.
    #[error("out of memory")]
    Memory,
}

impl From<VolumeRefusal> for VolAnswer {
    ghost use Rattle.std.specs.Prelude.{◌≡◌};
    ghost use Rattle.refusals.specs.declared.answer.VolAnswer.TheVariants.{Refused};

    ghost from_gives = { λ refusal e. e ≡ Refused refusal };

    fn from(refusal: VolumeRefusal) -> Self {
        VolAnswer::Refused(refusal)
    }
}

impl From<Fault> for VolAnswer {
    ghost use Rattle.std.specs.Prelude.{◌≡◌};
    ghost use Rattle.refusals.specs.declared.answer.VolAnswer.TheVariants.{Fault};

    ghost from_gives = { λ _ e. e ≡ Fault };

    fn from(_: Fault) -> Self {
        VolAnswer::Fault
    }
}

impl From<Memory> for VolAnswer {
    ghost use Rattle.std.specs.Prelude.{◌≡◌};
    ghost use Rattle.refusals.specs.declared.answer.VolAnswer.TheVariants.{Memory};

    ghost from_gives = { λ _ e. e ≡ Memory };

    fn from(_: Memory) -> Self {
        VolAnswer::Memory
    }
}

impl From<BtrRefusal> for BtrAnswer {
    ghost use Rattle.std.specs.Prelude.{◌≡◌};
    ghost use Rattle.refusals.specs.declared.answer.BtrAnswer.TheVariants.{Refused};

    ghost from_gives = { λ refusal e. e ≡ Refused refusal };

    fn from(refusal: BtrRefusal) -> Self {
        BtrAnswer::Refused(refusal)
    }
}

impl From<Fault> for BtrAnswer {
    ghost use Rattle.std.specs.Prelude.{◌≡◌};
    ghost use Rattle.refusals.specs.declared.answer.BtrAnswer.TheVariants.{Fault};

    ghost from_gives = { λ _ e. e ≡ Fault };

    fn from(_: Fault) -> Self {
        BtrAnswer::Fault
    }
}

impl From<Memory> for BtrAnswer {
    ghost use Rattle.std.specs.Prelude.{◌≡◌};
    ghost use Rattle.refusals.specs.declared.answer.BtrAnswer.TheVariants.{Memory};

    ghost from_gives = { λ _ e. e ≡ Memory };

    fn from(_: Memory) -> Self {
        BtrAnswer::Memory
    }
}
