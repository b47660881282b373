// The mark of a superblock that is being turned.
ghost use Rattle.std.specs.Prelude.{◌≡◌, length};
ghost use Rattle.super_turn.specs.Marked.{has_mark, is_half, marked, marked_place, names_copy, with_first};

use outside::btrfs_format::block::{MAGIC, SUPER_BLOCK, SUPER_MAGIC_OFFSET};
use outside::{Block, BlockNo, Field, has_magic, put_fields, u64_at};

/// The superblock with a mark that names the block where it lies without.
pub(crate) fn marked(block: &Block, place: BlockNo) -> Block
    ensures turned { result.bytes ≡ marked block.now.bytes place }
    ensures whole { length block.now.bytes ≡ 4096 }
{
    let mut turned = *block;
    put_fields(
        &mut turned.bytes[128..152],
        &[Field::Bytes(b"reiserconv turns"), Field::U64(place)],
    );
    turned
}

/// Whether a superblock has a mark.
pub(crate) fn has_mark(block: &Block) -> bool
    ensures { result ≡ has_mark block.now.bytes }
{
    has_magic(block, 128, b"reiserconv turns")
}

/// The block that a mark names.
pub(crate) fn marked_place(block: &Block) -> BlockNo
    ensures { result ≡ marked_place block.now.bytes }
{
    u64_at(&block.bytes, 144)
}

/// Whether two superblocks are the same in the first sector, but for the mark.
pub(crate) fn is_half(copy: &Block, block: &Block) -> bool
    ensures { result ≡ is_half copy.now.bytes block.now.bytes }
{
    block.bytes[..128] == copy.bytes[..128] && block.bytes[152..512] == copy.bytes[152..512]
}

/// Whether a superblock is not that of Btrfs, and its mark names another block of so many.
pub(crate) fn names_copy(block: &Block, blocks: u64) -> bool
    ensures { result ≡ names_copy block.now.bytes blocks }
{
    let place = marked_place(block);
    !has_magic(block, SUPER_MAGIC_OFFSET, MAGIC)
        && has_mark(block)
        && place < blocks
        && place != SUPER_BLOCK
}

/// The first sector of one block, and the others of another.
pub(crate) fn with_first(first: &Block, rest: &Block) -> Block
    ensures joined { result.bytes ≡ with_first first.now.bytes rest.now.bytes }
    ensures whole { length first.now.bytes ≡ 4096 }
{
    let mut bytes = rest.bytes;
    bytes[..512].copy_from_slice(&first.bytes[..512]);
    Block { bytes }
}
