ghost use Rattle.std.specs.Prelude.{◌≡◌, ◌≤◌, ◌<◌, ◌+◌, ◌*◌, ℕ, true, length, slice_index, IsTrue};
ghost use Rattle.reiser_bitmap.specs.Bits.{bit_of};
ghost use Rattle.reiser_bitmap.specs.Next.{next_used, next_unused, end_of_bits, is_bit};

use crate::Bitmap;
use crate::units::is_zero;
use refusals::{BlockNo, u64_at};

impl Bitmap {
    /// The first block of the set from `from` on; `end` where there is none before it.
    ///
    /// It goes by 64 blocks at a time where none of them is in the set.
    pub fn next_used(&self, from: BlockNo, end: BlockNo) -> BlockNo
        requires order { from ≤ end }
        requires inside { end ≤ length self.now }
        ensures { result ≡ next_used self.now from end }
    {
        end_of_bits(&self.bytes, from, end, false)
    }

    /// The first block from `from` on that is not in the set; `end` where there is none before it.
    ///
    /// It goes by 64 blocks at a time where all of them are in the set.
    pub fn next_unused(&self, from: BlockNo, end: BlockNo) -> BlockNo
        requires order { from ≤ end }
        requires inside { end ≤ length self.now }
        ensures { result ≡ next_unused self.now from end }
    {
        end_of_bits(&self.bytes, from, end, true)
    }
}

/// The first place from `from` on, and before `end`, whose bit is another one than `bit`; else `end`.
fn end_of_bits(bytes: &[u8], from: u64, end: u64, bit: bool) -> u64
    requires order { from ≤ end }
    requires inside { end ≤ 8 * length bytes.now }
    ensures { result ≡ end_of_bits bytes.now bit from end }
{
    let mut b = from;
    while b < end {
        if b % 64 == 0 && end - b >= 64 && are_bits(bytes, (b / 8) as usize, bit) {
            b += 64;
        } else if has_bit(bytes, b) == bit {
            b += 1;
        } else {
            return b;
        }
    }
    b
}

/// Whether bit `b` of the bytes is 1.
fn has_bit(bytes: &[u8], b: u64) -> bool
    requires { b < 8 * length bytes.now }
    ensures { result ≡ bit_of bytes.now b }
{
    bytes[(b / 8) as usize] & (1 << (b % 8)) != 0
}

/// Whether all 64 bits from those of byte `at` on are `bit`.
fn are_bits(bytes: &[u8], at: usize, bit: bool) -> bool
    requires { at + 8 ≤ length bytes.now }
    ensures { IsTrue result → (i : ℕ) → i < 64 → is_bit bytes.now bit (8 * at + i) ≡ true }
{
    if bit {
        are_ones(bytes, at)
    } else {
        is_zero(bytes, at)
    }
}

/// Whether all bits of the eight bytes from byte `at` on are 1.
fn are_ones(bytes: &[u8], at: usize) -> bool
    requires { at + 8 ≤ length bytes.now }
    ensures { IsTrue result → (i : ℕ) → i < 8 → slice_index bytes.now (at + i) ≡ 255 }
{
    u64_at(bytes, at) == u64::MAX
}
