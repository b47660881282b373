ghost use Rattle.std.specs.Prelude.{◌≡◌, ◌^◌, ◌<◌, length};
ghost use Rattle.reiser_bitmap.specs.Bits.{bit_count, used_blocks};

use crate::Bitmap;

impl Bitmap {
    /// How many blocks are in the set.
    pub fn used(&self) -> u64
        ensures { result ≡ length (used_blocks self.now) }
    {
        bit_count(&self.bytes)
    }
}

/// How many bits of the bytes are 1.
fn bit_count(bytes: &[u8]) -> u64
    requires { bit_count bytes.now < 2 ^ 64 }
    ensures { result ≡ bit_count bytes.now }
{
    let mut count = 0;
    for byte in bytes {
        count += byte.count_ones() as u64;
    }
    count
}
