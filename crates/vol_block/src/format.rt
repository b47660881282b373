ghost use Rattle.std.specs.Prelude.{◌≡◌, ◌≤◌};
ghost use Rattle.vol_block.specs.Format.{format, has_bytes_at, has_reiser_magic};

use crate::Block;
use btrfs_format::block::{MAGIC, SUPER_MAGIC_OFFSET};

/// The file system whose superblock a block may be.
#[derive(Clone, Copy, Debug, PartialEq, Eq)]
pub enum Format {
    /// ReiserFS, of any of its three magics.
    Reiser,
    /// Btrfs.
    Btrfs,
    /// None that is known here.
    Neither,
}

/// The format of a block by the magic alone: that of Btrfs at byte 64, else one of ReiserFS at byte 52.
///
/// Only the letters of a ReiserFS magic are compared (`ReIsErFs`, `ReIsEr2Fs` or `ReIsEr3Fs`), and not the zeros
/// behind them.
pub fn format_of(block: &Block) -> Format
    ensures { result ≡ format block.now.bytes }
{
    if has_magic(block, SUPER_MAGIC_OFFSET, MAGIC) {
        Format::Btrfs
    } else if has_reiser_magic(block) {
        Format::Reiser
    } else {
        Format::Neither
    }
}

/// Whether one of the three magics of a ReiserFS superblock stands at byte 52.
pub fn has_reiser_magic(block: &Block) -> bool
    ensures { result ≡ has_reiser_magic block.now.bytes }
{
    has_magic(block, 52, b"ReIsErFs")
        || has_magic(block, 52, b"ReIsEr2Fs")
        || has_magic(block, 52, b"ReIsEr3Fs")
}

/// Whether these bytes stand from byte `at` of the block on.
pub fn has_magic(block: &Block, at: usize, magic: &[u8]) -> bool
    requires { at ≤ 4096 }
    ensures { result ≡ has_bytes_at block.now.bytes at magic.now }
{
    block.bytes[at..].starts_with(magic)
}
