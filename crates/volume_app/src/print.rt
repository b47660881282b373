ghost use Rattle.std.specs.Prelude.{◌≡◌, IsTrue};
ghost use Rattle.reiser_volume.specs.outside.Fault.{HasCause, Takes};
ghost use Rattle.sink_text.specs.Text.{piece_text};
ghost use Rattle.volume_app.specs.Text.{image_text, summary_text};

use crate::summary::Summary;
use reiser_volume::{Fault, Sink};
use sink_text::TextPart::{Decimal, Hyphenated, Plain};
use sink_text::{TextPart, label_piece, write_pieces};

impl Summary {
    /// Prints the seven lines `format`, `fsid`, `blocks`, `generation`, `nodesize`, `label` and `image`. After a fault the
    /// sink gained a first part of them.
    pub fn print<O: Sink>(&self, out: &mut O) -> Result<(), Fault>
        ensures taken { IsTrue O.tells → Takes (O.taken out.old) (summary_text self.now) result (O.taken out.new) }
        ensures cause { HasCause (O.faults out.old) (O.faults out.new) result }
    {
        let pieces = [
            Plain(b"format btrfs\nfsid "),
            Hyphenated(self.fsid),
            Plain(b"\nblocks "),
            Decimal(self.blocks),
            Plain(b"\ngeneration "),
            Decimal(self.generation),
            Plain(b"\nnodesize "),
            Decimal(u64::from(self.nodesize)),
            Plain(b"\nlabel "),
            label_piece(&self.label),
            Plain(b"\nimage "),
            image_piece(self.image),
            Plain(b"\n"),
        ];
        write_pieces(&pieces, out)
    }
}

/// How the length of the saved image is printed: a dash where it is missing.
fn image_piece(blocks: Option<u64>) -> TextPart<'static>
    ensures { piece_text result ≡ image_text blocks }
{
    match blocks {
        Some(blocks) => Decimal(blocks),
        None => Plain(b"-"),
    }
}
