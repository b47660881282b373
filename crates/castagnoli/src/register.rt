ghost use Rattle.std.specs.Prelude.{◌≡◌, bit_xor};
ghost use Rattle.castagnoli.specs.Castagnoli.{after_byte, shifted_by, raw_crc};

use crate::table::after_eight;
use crate::wide::{after_16, after_24, after_32, after_40, after_48, after_56, after_64};
use vol_block::u64_at;

/// The register after one more byte.
#[tactic(auto, using(crate::proofs::Linear::shifted_by_eight), unfolding(crate::specs::Castagnoli::after_byte))]
fn after_byte(register: u32, byte: u8) -> u32
    ensures { result ≡ after_byte register byte }
{
    let mixed = register ^ u32::from(byte);
    (mixed / 256) ^ after_eight((mixed % 256) as u8)
}

/// The register after the eight bytes of a word are shifted out, the lowest first.
#[inline]
fn after_word(word: u64) -> u32
    ensures { result ≡ shifted_by 64 word }
{
    let x1 = word / 256;
    let x2 = x1 / 256;
    let x3 = x2 / 256;
    let x4 = x3 / 256;
    let x5 = x4 / 256;
    let x6 = x5 / 256;
    let x7 = x6 / 256;
    after_64((word % 256) as u8)
        ^ (after_56((x1 % 256) as u8)
            ^ (after_48((x2 % 256) as u8)
                ^ (after_40((x3 % 256) as u8)
                    ^ (after_32((x4 % 256) as u8)
                        ^ (after_24((x5 % 256) as u8)
                            ^ (after_16((x6 % 256) as u8) ^ after_eight(x7 as u8)))))))
}

/// The register after all bytes, from a start, with no bits turned over at either end.
#[tactic(auto, unfolding(crate::specs::Castagnoli::raw_crc))]
pub fn raw_crc(start: u32, bytes: &[u8]) -> u32
    ensures { result ≡ raw_crc start bytes.now }
{
    let mut register = start;
    let mut at = 0;
    'words: while bytes.len() - at >= 8 {
        register = after_word(u64::from(register) ^ u64_at(bytes, at));
        at += 8;
    }
    for byte in &bytes[at..] {
        register = after_byte(register, *byte);
    }
    register
}
