use btr_node::{Fault as DeviceFault, Memory as NoMemory};
use thiserror::Error;

/// Why a tree was not written.
#[derive(Clone, Copy, Debug, PartialEq, Eq, Error)]
pub enum TreeAnswer {
    /// The next node finds no slot.
    #[error("no slot is left")]
    OutOfSlots,
    /// A call of the device failed.
    #[error("device fault")]
    Fault,
    /// There was no memory.
    #[error("out of memory")]
    Memory,
}

impl From<DeviceFault> for TreeAnswer {
    ghost use Rattle.std.specs.Prelude.{◌≡◌};
    ghost use Rattle.btr_tree.specs.declared.answer.TreeAnswer.TheVariants.{Fault};

    ghost from_gives = { λ _ e. e ≡ Fault };

    fn from(_: DeviceFault) -> Self {
        TreeAnswer::Fault
    }
}

impl From<NoMemory> for TreeAnswer {
    ghost use Rattle.std.specs.Prelude.{◌≡◌};
    ghost use Rattle.btr_tree.specs.declared.answer.TreeAnswer.TheVariants.{Memory};

    ghost from_gives = { λ _ e. e ≡ Memory };

    fn from(_: NoMemory) -> Self {
        TreeAnswer::Memory
    }
}

/// Why a node was not made.
#[derive(Clone, Copy, Debug, PartialEq, Eq)]
pub enum NodeAnswer {
    /// The node finds no slot.
    OutOfSlots,
    /// There was no memory.
    Memory,
}

impl From<NoMemory> for NodeAnswer {
    ghost use Rattle.std.specs.Prelude.{◌≡◌};
    ghost use Rattle.btr_tree.specs.declared.answer.NodeAnswer.TheVariants.{Memory};

    ghost from_gives = { λ _ e. e ≡ Memory };

    fn from(_: NoMemory) -> Self {
        NodeAnswer::Memory
    }
}

impl From<NodeAnswer> for TreeAnswer {
    ghost use Rattle.std.specs.Prelude.{◌≡◌};
    ghost use Rattle.btr_tree.specs.Answers.{tree_answer};

    ghost from_gives = { λ a e. e ≡ tree_answer a };

    fn from(answer: NodeAnswer) -> Self {
        match answer {
            NodeAnswer::OutOfSlots => TreeAnswer::OutOfSlots,
            NodeAnswer::Memory => TreeAnswer::Memory,
        }
    }
}
