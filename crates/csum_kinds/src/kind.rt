ghost use Rattle.std.specs.Prelude.{◌≡◌, ◌++◌, replicate};
ghost use Rattle.std.specs.Int.{w32, to_le_bytes};
ghost use Rattle.csum_kinds.specs.Kind.{kind_sum, kind_width};

use castagnoli::crc32c;
use sha2::Digest;

/// A kind of checksum, as a superblock names it.
#[derive(Clone, Copy, Debug, PartialEq, Eq)]
pub enum SumKind {
    /// CRC-32C, the superblock's type 0.
    Crc32c,
    /// SHA-256, the superblock's type 2.
    Sha256,
}

/// The checksum of the bytes, as the 32 bytes that a node or a superblock begins with: the sum, and zeros where it is
/// shorter.
#[tactic(auto, unfolding(crate::specs::Kind::kind_sum))]
pub fn kind_sum(kind: SumKind, bytes: &[u8]) -> [u8; 32]
    ensures { result ≡ kind_sum kind bytes.now }
{
    match kind {
        SumKind::Crc32c => padded(crc32c(bytes)),
        SumKind::Sha256 => sha2::Sha256::digest(bytes),
    }
}

/// How many bytes a checksum of this kind has where it stands for a block of data.
pub fn kind_width(kind: SumKind) -> usize
    ensures { result ≡ kind_width kind }
{
    match kind {
        SumKind::Crc32c => 4,
        SumKind::Sha256 => 32,
    }
}

/// A sum of four bytes, the low one first, and zeros behind it.
fn padded(sum: u32) -> [u8; 32]
    ensures { result ≡ to_le_bytes w32 sum ++ replicate 28 0 }
{
    let [a, b, c, d] = sum.to_le_bytes();
    let mut field = [0; 32];
    field[0] = a;
    field[1] = b;
    field[2] = c;
    field[3] = d;
    field
}
