// Command lines one behind the other.
use crate::broken::Broken;
use crate::old::Old;
use crate::run::{Ended, Trouble, ran};
use outside_mem::MemDisk;
use std::alloc::Global;

/// What a run meets, and how it ends.
#[derive(Clone, Copy)]
pub enum End {
    /// It is done, and prints this.
    Done(&'static str),
    /// It is done and prints this, and writes nothing.
    Kept(&'static str),
    /// It is done, and what it prints begins so.
    Begins(&'static str),
    /// It is done, and what it prints ends so.
    Closes(&'static str),
    /// It is refused with this status and line, and writes nothing.
    Refused(u8, &'static str),
    /// The first call of the disk would fail. It is done, and what it prints begins so.
    Unopened(&'static str),
    /// The call of the disk of this number fails, counted from 0, and it ends with that.
    Faulty(u64),
    /// The output fails, and it ends with that. The output has the beginning of this text, or nothing.
    Unprinted(&'static str),
}

impl End {
    /// What the run meets.
    fn trouble(self) -> Trouble {
        match self {
            End::Unopened(_) => Trouble::Call(0),
            End::Faulty(call) => Trouble::Call(call),
            End::Unprinted(_) => Trouble::Output,
            _ => Trouble::Nothing,
        }
    }

    /// Whether a run that wrote so many blocks ended so.
    fn is_of(self, ended: &Ended, writes: u64) -> bool {
        match self {
            End::Done(out) => ended.is(0, out, ""),
            End::Kept(out) => ended.is(0, out, "") && writes == 0,
            End::Begins(out) | End::Unopened(out) => ended.is_done(
                ended.out.starts_with(out.as_bytes()),
            ),
            End::Closes(out) => ended.is_done(ended.out.ends_with(out.as_bytes())),
            End::Refused(status, err) => ended.is(status, "", err) && writes == 0,
            End::Faulty(_) => ended.is(3, "", "device fault\n"),
            End::Unprinted(out) => ended.is_unprinted(out),
        }
    }

    /// The text of it.
    fn text(self) -> &'static str {
        match self {
            End::Done(text)
            | End::Kept(text)
            | End::Begins(text)
            | End::Closes(text)
            | End::Refused(_, text)
            | End::Unopened(text)
            | End::Unprinted(text) => text,
            End::Faulty(_) => "device fault\n",
        }
    }
}

/// A command line, and how it has to end.
#[derive(Clone, Copy)]
pub struct Step(pub &'static str, pub End);

impl Step {
    /// Sees that the command ends so over a disk.
    fn follow(self, alloc: Global, disk: &mut MemDisk) -> Result<(), Broken> {
        let ended = ran(alloc, self.0, disk, self.1.trouble())?;
        if self.1.is_of(&ended, disk.writes()) {
            Ok(())
        } else {
            Err(Broken::Step(self.0, self.1.text()))
        }
    }
}

/// Sees that these commands end so over a disk, one behind the other.
pub fn follow(alloc: Global, disk: &mut MemDisk, steps: &[Step]) -> Result<(), Broken> {
    for step in steps {
        step.follow(alloc, disk)?;
    }
    Ok(())
}

impl Old {
    /// Sees that these commands end so over a copy of the volume, that each of them leaves its rows, and all of them the volume itself.
    pub fn goes_and_comes(&self, steps: &[Step]) -> Result<(), Broken> {
        let mut disk = self.copy()?;
        for step in steps {
            step.follow(self.alloc, &mut disk)?;
            self.has_rows(&mut disk)?;
        }
        self.is_back(&mut disk)
    }
}
