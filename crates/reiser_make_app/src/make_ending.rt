ghost use Rattle.std.specs.Prelude.{◌≡◌, IsTrue};
ghost use Rattle.sink_text.specs.outside.Fault.{HasCause, Takes};
ghost use Rattle.reiser_make_app.specs.Ending.{status, error_line, short_line, full_line};

use program_words::{Answer, VolumeRefusal, write_answer};
use sink_text::TextPart::{Decimal, Plain};
use sink_text::{Fault, Sink, write_pieces};

/// How the program is called.
const USAGE: &[u8] = b"usage: sample_volume [--old] NUMBER BLOCKS PATH\n";

/// How a run ended.
#[derive(Clone, Copy, Debug, PartialEq, Eq)]
pub enum MakeEnding {
    /// The volume was made, and has reached the device.
    Made,
    /// The words order nothing.
    Usage,
    /// The device has fewer blocks than were ordered. Nothing was written.
    Short { blocks: u64, device: u64 },
    /// The sample takes more blocks than were ordered. Nothing was written.
    Full { needed: u64, blocks: u64 },
    /// A call of the device failed. Blocks that the sample uses may have been written.
    Fault,
    /// There was no memory. Nothing was written.
    Memory,
}

impl MakeEnding {
    /// The status of the program. Those of `reiserconv` mean the same.
    pub fn status(&self) -> u8
        ensures { result ≡ status self.now }
    {
        match self {
            MakeEnding::Made => 0,
            MakeEnding::Usage => 2,
            MakeEnding::Short { .. } => 1,
            MakeEnding::Full { .. } => 6,
            MakeEnding::Fault => 3,
            MakeEnding::Memory => 4,
        }
    }

    /// Writes the line for the error sink.
    pub fn write_line<E: Sink>(&self, err: &mut E) -> Result<(), Fault>
        ensures taken { IsTrue E.tells → Takes (E.taken err.old) (error_line self.now) result (E.taken err.new) }
        ensures cause { HasCause (E.faults err.old) (E.faults err.new) result }
    {
        match self {
            MakeEnding::Made => Ok(()),
            MakeEnding::Usage => err.write(USAGE),
            MakeEnding::Short { blocks, device } => write_short(*blocks, *device, err),
            MakeEnding::Full { needed, blocks } => write_full(*needed, *blocks, err),
            MakeEnding::Fault => write_answer(&Answer::Fault, err),
            MakeEnding::Memory => write_answer(&Answer::Memory, err),
        }
    }
}

fn write_short<E: Sink>(blocks: u64, device: u64, err: &mut E) -> Result<(), Fault>
    ensures taken { IsTrue E.tells → Takes (E.taken err.old) (short_line blocks device) result (E.taken err.new) }
    ensures cause { HasCause (E.faults err.old) (E.faults err.new) result }
{
    let refusal = VolumeRefusal::Short {
        volume: blocks,
        device,
    };
    write_answer(&Answer::Volume(refusal), err)
}

fn write_full<E: Sink>(needed: u64, blocks: u64, err: &mut E) -> Result<(), Fault>
    ensures taken { IsTrue E.tells → Takes (E.taken err.old) (full_line needed blocks) result (E.taken err.new) }
    ensures cause { HasCause (E.faults err.old) (E.faults err.new) result }
{
    write_pieces(
        &[
            Plain(b"refused 15 space "),
            Decimal(needed),
            Plain(b" "),
            Decimal(blocks),
            Plain(b"\n"),
        ],
        err,
    )
}
