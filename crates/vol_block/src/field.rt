ghost use Rattle.std.specs.Prelude.{◌≡◌, ◌+◌, ◌≤◌, ◌++◌, length, take, drop};
ghost use Rattle.vol_block.specs.Field.{field_width, field_bytes, fields_width, fields_bytes};

use crate::{put_u16, put_u32, put_u64};

/// A field of a record, as it is to be written. Numbers are little-endian.
#[derive(Clone, Copy, Debug)]
pub enum Field<'a> {
    /// A number of one byte.
    U8(u8),
    /// A number of two bytes.
    U16(u16),
    /// A number of four bytes.
    U32(u32),
    /// A number of eight bytes.
    U64(u64),
    /// These bytes.
    Bytes(&'a [u8]),
    /// So many zeros.
    Zeros(usize),
}

/// Writes fields one after the other into a slice that they fill.
pub fn put_fields(into: &mut [u8], fields: &[Field<'_>])
    requires { fields_width fields.now ≡ length into.old }
    ensures { into.new ≡ fields_bytes fields.now }
{
    let mut at = 0;
    for field in fields {
        at = put_field(into, at, field);
    }
}

/// Writes a field from byte `at` on, and answers where it ends.
fn put_field(into: &mut [u8], at: usize, field: &Field<'_>) -> usize
    requires { at + field_width field.now ≤ length into.old }
    ensures end { result ≡ at + field_width field.now }
    ensures front { take result into.new ≡ take at into.old ++ field_bytes field.now }
{
    match *field {
        Field::U8(x) => {
            into[at] = x;
            at + 1
        }
        Field::U16(x) => {
            put_u16(into, at, x);
            at + 2
        }
        Field::U32(x) => {
            put_u32(into, at, x);
            at + 4
        }
        Field::U64(x) => {
            put_u64(into, at, x);
            at + 8
        }
        Field::Bytes(bytes) => {
            into[at..at + bytes.len()].copy_from_slice(bytes);
            at + bytes.len()
        }
        Field::Zeros(n) => {
            into[at..at + n].fill(0);
            at + n
        }
    }
}

/// The `N` bytes from byte `at` on, as an identifier or a label.
pub fn array_at<const N: usize>(bytes: &[u8], at: usize) -> [u8; N]
    requires { at + N ≤ length bytes.now }
    ensures { result ≡ take N (drop at bytes.now) }
{
    let mut array = [0; N];
    array.copy_from_slice(&bytes[at..at + N]);
    array
}
