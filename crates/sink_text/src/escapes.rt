ghost use Rattle.std.specs.Prelude.{◌≡◌, ◌≤◌, take};
ghost use Rattle.sink_text.specs.Escape.{escape};

use crate::digits::hex_digit;

/// How one byte of a name is printed: the first `len` of these bytes.
#[derive(Clone, Copy, Debug)]
pub struct Spelling {
    /// The bytes; those at `len` and past it mean nothing.
    pub bytes: [u8; 4],
    /// 1 or 4.
    pub len: usize,
    ghost within: { len ≤ 4 },
}

/// The spelling of one byte: itself where it is 0x21 to 0x7E and no backslash, else `\x` and two lower-case
/// hexadecimal digits.
pub fn escape(byte: u8) -> Spelling
    ensures { take result.len result.bytes ≡ escape byte }
{
    if (0x21..=0x7e).contains(&byte) && byte != b'\\' {
        Spelling {
            bytes: [byte, 0, 0, 0],
            len: 1,
        }
    } else {
        Spelling {
            bytes: [b'\\', b'x', hex_digit(byte / 16), hex_digit(byte % 16)],
            len: 4,
        }
    }
}
