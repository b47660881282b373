ghost use Rattle.std.specs.Prelude.{◌≡◌, IsTrue};
ghost use Rattle.reiser_volume.specs.outside.Fault.{HasCause, Takes};
ghost use Rattle.volume_app.specs.Ending.{status, error_line};
ghost use Rattle.volume_app.specs.Outcome.{ending_of};

use crate::texts::USAGE;
use convert_core::Answer;
use program_words::{answer_status, write_answer};
use reiser_volume::{Fault, Sink};

/// How a run ended.
#[derive(Clone, Copy, Debug, PartialEq, Eq)]
pub enum Ending {
    /// The command was done and its text printed.
    Done,
    /// The words are no command: the usage line is printed to the error sink, and nothing is opened.
    Usage,
    /// The command was not done.
    Failed(Answer),
    /// The command was done, and its text was not printed whole.
    OutputFault,
}

impl Ending {
    /// The status of the program.
    pub fn status(&self) -> u8
        ensures { result ≡ status self.now }
    {
        match self {
            Ending::Done => 0,
            Ending::Usage => 2,
            Ending::Failed(answer) => answer_status(answer),
            Ending::OutputFault => 5,
        }
    }

    /// Writes the line for the error sink.
    pub fn write_line<E: Sink>(&self, err: &mut E) -> Result<(), Fault>
        ensures taken { IsTrue E.tells → Takes (E.taken err.old) (error_line self.now) result (E.taken err.new) }
        ensures cause { HasCause (E.faults err.old) (E.faults err.new) result }
    {
        match self {
            Ending::Done => Ok(()),
            Ending::Usage => err.write(USAGE),
            Ending::Failed(answer) => write_answer(answer, err),
            Ending::OutputFault => err.write(b"output fault\n"),
        }
    }
}

/// How a run ends that has printed its text.
pub fn printed(written: Result<(), Fault>) -> Ending
    ensures { result ≡ ending_of written }
{
    match written {
        Ok(()) => Ending::Done,
        Err(Fault) => Ending::OutputFault,
    }
}
