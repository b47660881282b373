// What a command is doing right now, and how far it is with that.

/// What a command does with a disk, as far as it matters to somebody who waits.
#[derive(Clone, Copy, Debug, PartialEq, Eq)]
pub enum Task {
    /// It goes through the tree of a volume, and then once more through the files in it.
    Inspect,
    /// It does that once more for something else, the how-manyth time of how many, from 0 on.
    InspectAgain { time: u64, of: u64 },
    /// It goes through the tree of a volume, and then reads all that is in use, each block about once.
    List,
    /// It does what it does to inspect. Then it writes, and reads all that is in use, each block about once, and what it looked through once more.
    Convert,
    /// It reads what stands before the tree of a volume.
    Recover,
    /// It reads a Btrfs volume, goes through the tree of the volume of ReiserFS in it, and then it writes a part of that.
    Rollback,
    /// It writes a volume of ReiserFS, makes Btrfs of it, makes ReiserFS of that again, and reads it.
    Trial,
}

/// A step of a command.
#[derive(Clone, Copy, Debug, PartialEq, Eq)]
pub struct Step {
    pub name: &'static str,
    pub number: u64,
    /// How many steps there are. One alone has no number for a person.
    pub of: u64,
}

impl Step {
    /// A step with this name, the how-manyth of how many.
    pub fn new(name: &'static str, number: u64, of: u64) -> Step {
        Step { name, number, of }
    }
}

/// How far a command is with a step.
#[derive(Clone, Copy, Debug, PartialEq, Eq)]
pub struct Stage {
    pub step: Step,
    /// The blocks that are done.
    pub done: u64,
    /// How many it will be, where that is known.
    pub known: Option<u64>,
}

impl Stage {
    /// So many blocks are done of a number that nothing tells.
    pub fn unknown(step: Step, done: u64) -> Stage {
        Stage {
            step,
            done,
            known: None,
        }
    }
}
