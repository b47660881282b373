ghost use Rattle.std.specs.Prelude.{◌≡◌, ◌<◌, ◌*◌, ◌^◌};
ghost use Rattle.reiser_bitmap.specs.Layout.{bitmap_block};
ghost use Rattle.reiser_bitmap.specs.System.{is_system};

use refusals::BlockNo;
use reiserfs_format::block::{BITS_IN_BLOCK, FIRST_BITMAP_BLOCK, SUPER_BLOCK};

/// The number of bitmap block `k`, which holds the bits of 32768 blocks from block 32768·k on and is the first of them.
/// Bitmap block 0 is block 17, behind the superblock, as ReiserFS 3.6 has it.
pub fn bitmap_block(k: u64) -> BlockNo
    requires { BITS_IN_BLOCK * k < 2 ^ 64 }
    ensures { result ≡ bitmap_block k }
{
    if k == 0 {
        FIRST_BITMAP_BLOCK
    } else {
        BITS_IN_BLOCK * k
    }
}

/// Whether a volume keeps the block for itself: the superblock, a bitmap block, or one of the journal, whose log of
/// `journal_size` blocks begins at `journal_first` and whose header lies behind it.
pub fn is_system(block: BlockNo, journal_first: BlockNo, journal_size: u64) -> bool
    ensures { result ≡ is_system journal_first journal_size block }
{
    block == SUPER_BLOCK
        || block == bitmap_block(block / BITS_IN_BLOCK)
        || (journal_first <= block && block - journal_first <= journal_size)
}
