// A field is the number that its bytes spell, the low byte first, as both formats have it.
ghost use Rattle.std.specs.Prelude.{◌≡◌, ◌≤◌, ◌+◌, length};
ghost use Rattle.vol_block.specs.Volume.{field, put_field};

use byteorder::{ByteOrder, LittleEndian};

/// The number in the two bytes from byte `at` on.
pub fn u16_at(bytes: &[u8], at: usize) -> u16
    requires { at + 2 ≤ length bytes.now }
    ensures { result ≡ field 2 bytes.now at }
{
    LittleEndian::read_u16(&bytes[at..])
}

/// The number in the four bytes from byte `at` on.
pub fn u32_at(bytes: &[u8], at: usize) -> u32
    requires { at + 4 ≤ length bytes.now }
    ensures { result ≡ field 4 bytes.now at }
{
    LittleEndian::read_u32(&bytes[at..])
}

/// The number in the eight bytes from byte `at` on.
pub fn u64_at(bytes: &[u8], at: usize) -> u64
    requires { at + 8 ≤ length bytes.now }
    ensures { result ≡ field 8 bytes.now at }
{
    LittleEndian::read_u64(&bytes[at..])
}

/// Writes a number into the two bytes from byte `at` on, and nothing else.
pub fn put_u16(bytes: &mut [u8], at: usize, value: u16)
    requires { at + 2 ≤ length bytes.old }
    ensures { bytes.new ≡ put_field 2 bytes.old at value }
{
    LittleEndian::write_u16(&mut bytes[at..], value);
}

/// Writes a number into the four bytes from byte `at` on, and nothing else.
pub fn put_u32(bytes: &mut [u8], at: usize, value: u32)
    requires { at + 4 ≤ length bytes.old }
    ensures { bytes.new ≡ put_field 4 bytes.old at value }
{
    LittleEndian::write_u32(&mut bytes[at..], value);
}

/// Writes a number into the eight bytes from byte `at` on, and nothing else.
pub fn put_u64(bytes: &mut [u8], at: usize, value: u64)
    requires { at + 8 ≤ length bytes.old }
    ensures { bytes.new ≡ put_field 8 bytes.old at value }
{
    LittleEndian::write_u64(&mut bytes[at..], value);
}
