// What direct items hold of a file.
ghost use Rattle.std.specs.Prelude.{◌≡◌, ◌++◌, ◌∷◌, ◌≤◌, ◌*◌, ◌<◌, ◌^◌, List, []};
ghost use Rattle.reiser_walk.specs.Items.{ReiserItem};
ghost use Rattle.reiser_volume_files.specs.Bytes.{tail_block, target_bytes, MayFollow};

use crate::pieces::first_byte;
use fs_rows::{copy_piece, count_below};
use reiser_walk::{Block, ItemHead, ItemKind};

/// Puts into the block what an item holds of block `k` of a file of `size` bytes.
///
/// A caller begins with a block of zeros, and gives each item of the object, in order. Then the block holds the direct
/// bytes of that block of the file below the size, and else zeros.
pub fn put_tail(block: &mut Block, k: u64, size: u64, head: &ItemHead, body: &[u8])
    requires { 4096 * k < 2 ^ 64 }
    ensures { (given : List ReiserItem) (i : ReiserItem) → i.head ≡ head.now → i.body ≡ body.now → MayFollow given i → block.old.bytes ≡ tail_block given size k →
        block.new.bytes ≡ tail_block (given ++ i ∷ []) size k }
{
    match head.kind {
        ItemKind::Direct => {
            let at = first_byte(head);
            let count = count_below(at, body.len(), size);
            copy_piece(block, 4096 * k, at, &body[..count]);
        }
        ItemKind::Stat | ItemKind::Indirect | ItemKind::Directory => {}
    }
}

/// The target of a symlink of `size` bytes, whose direct items were put into a block of zeros as block 0.
pub fn target(block: &Block, size: usize) -> &[u8]
    requires { size ≤ 4096 }
    ensures { (items : List ReiserItem) → block.now.bytes ≡ tail_block items size 0 → result.now ≡ target_bytes items size }
{
    &block.bytes[..size]
}
