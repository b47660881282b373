ghost use Rattle.std.specs.Prelude.{◌≡◌, nat_eq, position};
ghost use Rattle.sink_text.specs.Label.{label_of, label_text};
ghost use Rattle.sink_text.specs.Text.{piece_text};

use crate::TextPart;
use crate::TextPart::{Escaped, Plain};

/// How the label of a volume is printed: its bytes before the first zero, or a dash where there is none.
pub fn label_piece(label: &[u8]) -> TextPart<'_>
    ensures { piece_text result ≡ label_text (label_of label.now) }
{
    match label_of(label) {
        [] => Plain(b"-"),
        bytes => Escaped(bytes),
    }
}

/// A label without the zeros that fill it up.
fn label_of(label: &[u8]) -> &[u8]
    ensures { result.now ≡ label_of label.now }
{
    match first_zero(label) {
        Some(end) => &label[..end],
        None => label,
    }
}

/// The place of the first zero.
fn first_zero(label: &[u8]) -> Option<usize>
    ensures { result ≡ position (λ c. nat_eq c 0) label.now }
{
    label.iter().position(|byte| *byte == 0)
}
