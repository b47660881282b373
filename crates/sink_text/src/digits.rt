ghost use Rattle.std.specs.Prelude.{◌≡◌, ◌-◌, ◌<◌, ◌∷◌, replicate};
ghost use Rattle.sink_text.specs.Digits.{hex_pair, octal_four};
ghost use Rattle.sink_text.specs.Escape.{hex_digit};

/// A digit of sixteen, in lower case.
pub fn hex_digit(digit: u8) -> u8
    requires { digit < 16 }
    ensures { result ≡ hex_digit digit }
{
    if digit < 10 {
        b'0' + digit
    } else {
        b'a' - 10 + digit
    }
}

/// A byte in two digits of sixteen.
pub fn hex_pair(byte: u8) -> [u8; 2]
    ensures { result ≡ hex_pair byte }
{
    [hex_digit(byte / 16), hex_digit(byte % 16)]
}

/// The low twelve bits in four octal digits.
pub fn octal_four(number: u16) -> [u8; 4]
    ensures { result ≡ octal_four number }
{
    [
        b'0' + (number / 512 % 8) as u8,
        b'0' + (number / 64 % 8) as u8,
        b'0' + (number / 8 % 8) as u8,
        b'0' + (number % 8) as u8,
    ]
}

/// The point and the zeros that stand before this many digits, so that there are nine digits at least.
pub fn point_and_zeros(digits: usize) -> &'static [u8]
    ensures { result.now ≡ 46 ∷ replicate (9 - digits) 48 }
{
    let start: &'static [u8; 10] = b".000000000";
    if digits < 9 {
        &start[..10 - digits]
    } else {
        &start[..1]
    }
}
