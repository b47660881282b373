// Parts of a file.
ghost use Rattle.std.specs.Prelude.{◌≡◌, ◌<◌, ◌-◌, ◌/◌, length, slice_index};
ghost use Rattle.reiser_walk.specs.reiser_items.Pointers.{pointers};
ghost use Rattle.reiser_volume_files.specs.Pieces.{are_inside, is_inside};

use reiser_walk::{ItemHead, ItemKind, u32_at};

/// The first byte of the file that an item holds or names a block for.
pub fn first_byte(head: &ItemHead) -> u64
    ensures { result ≡ head.now.offset - 1 }
{
    head.offset.saturating_sub(1)
}

/// Pointer `j` of the body of an indirect item.
pub fn pointer(body: &[u8], j: usize) -> u32
    requires { j < length body.now / 4 }
    ensures { result ≡ slice_index (pointers body.now) j }
{
    u32_at(body, 4 * j)
}

/// Whether each block that an item names lies below block `blocks`: a volume of so many blocks has it.
pub fn are_inside(head: &ItemHead, body: &[u8], blocks: u64) -> bool
    ensures { result ≡ are_inside head.now.kind body.now blocks }
{
    match head.kind {
        ItemKind::Indirect => are_pointers_inside(body, blocks),
        ItemKind::Stat | ItemKind::Direct | ItemKind::Directory => true,
    }
}

fn are_pointers_inside(body: &[u8], blocks: u64) -> bool
    ensures { result ≡ are_inside ItemKind.Indirect body.now blocks }
{
    for j in 0..body.len() / 4 {
        if !is_inside(pointer(body, j) as u64, blocks) {
            return false;
        }
    }
    true
}

/// Whether a block lies below block `blocks`, or none is named.
fn is_inside(block: u64, blocks: u64) -> bool
    ensures { result ≡ is_inside block blocks }
{
    block == 0 || block < blocks
}
