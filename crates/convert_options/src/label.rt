ghost use Rattle.std.specs.Prelude.{◌≡◌, ◌≤◌, Some, None, if◌then◌else◌, length, take};
ghost use Rattle.std.specs.Cmp as Cmp;
ghost use Rattle.std.specs.Cmp.Lexicographic.{pointwise, lists_per, nat_list_eq_equiv};
ghost use Rattle.std.specs.Prelude.{nat_eq};
ghost use Rattle.convert_options.specs.Label.{is_label};

use std::marker::Model;

/// The most bytes of a label.
const LONGEST: usize = 255;

/// The label of a volume: at most 255 bytes, none of them zero or a line feed. A contract sees the bytes.
#[derive(Drop, Debug)]
pub struct Label {
    bytes: [u8; LONGEST],
    count: u8,
}

impl Model for Label {
    ghost use Rattle.std.specs.Prelude.{ℕ, List, take};

    ghost Value = { List ℕ };

    ghost view = { λ l. take l.count l.bytes };
}

impl Label {
    /// The label of these bytes. There is none where there are more than 255 bytes, or a zero byte or a line feed is
    /// among them.
    pub fn new(bytes: &[u8]) -> Option<Label>
        ensures { result ≡ (if is_label bytes.now then Some bytes.now else None) }
    {
        if bytes.len() > LONGEST || bytes.contains(&0) || bytes.contains(&b'\n') {
            return None;
        }
        Some(Label {
            bytes: filled_up(bytes),
            count: bytes.len() as u8,
        })
    }

    /// The bytes of the label.
    pub fn bytes(&self) -> &[u8]
        ensures { result.now ≡ self.now }
    {
        &self.bytes[..self.count as usize]
    }
}

/// The bytes, and zeros behind them.
fn filled_up(bytes: &[u8]) -> [u8; LONGEST]
    requires { length bytes.now ≤ 255 }
    ensures { take (length bytes.now) result ≡ bytes.now }
{
    let mut field = [0; LONGEST];
    field[..bytes.len()].copy_from_slice(bytes);
    field
}

impl PartialEq for Label {
    ghost eq = { λ x y. pointwise nat_eq x y };

    ghost laws = { Cmp.partial_equiv_from_equiv nat_list_eq_equiv };

    /// Whether the bytes are the same.
    fn eq(&self, other: &Self) -> bool {
        self.bytes() == other.bytes()
    }
}
