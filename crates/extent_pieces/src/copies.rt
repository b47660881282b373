// The used blocks that are copied.
ghost use Rattle.std.specs.Prelude.{◌≡◌, ◌≤◌, ◌++◌, not, length, OnOk};
ghost use Rattle.reiser_bitmap.specs.vol_block.Volume.{is_reserved};
ghost use Rattle.reiser_bitmap.specs.Next.{end_of_run};
ghost use Rattle.extent_pieces.specs.Owned.{TellOwners};
ghost use Rattle.extent_pieces.specs.Pieces.{Owners, copied_pieces};

use crate::owned::owner_of;
use crate::run::OwnedRun;
use reiser_bitmap::{Bitmap, BlockNo, Memory, is_reserved};
use unit_plan::Piece;
use unit_plan::btrfs_format::block::{FIRST_MIRROR, SECOND_MIRROR};

/// Appends a piece for each used block that is reserved, ascending. It has no place yet.
pub fn add_copies(items: &mut Vec<Piece>, map: &Bitmap, owned: &[OwnedRun]) -> Result<(), Memory>
    ensures copied { (owner : Owners) → TellOwners owned.now owner → OnOk result (items.new.items ≡ items.old.items ++ copied_pieces map.now owner) }
    ensures grows { OnOk result (length items.old.items ≤ length items.new.items) }
{
    let blocks = map.len();
    let mut b = next_reserved(0, blocks);
    while b < blocks {
        if map.is_used(b) {
            items.push(Piece {
                from: Some(b),
                count: 1,
                owner: owner_of(owned, b),
                place: 0,
            })?;
        }
        b = next_reserved(b + 1, blocks);
    }
    Ok(())
}

/// The first reserved block from block `b` on of a volume of so many blocks; `blocks` where there is none.
pub fn next_reserved(b: BlockNo, blocks: u64) -> BlockNo
    requires { b ≤ blocks }
    ensures { result ≡ end_of_run (λ c. not (is_reserved c blocks)) b blocks }
{
    if b == blocks || is_reserved(b, blocks) {
        return b;
    }
    let end = blocks - blocks % 16;
    if b < FIRST_MIRROR {
        end.min(FIRST_MIRROR)
    } else if b < SECOND_MIRROR {
        end.min(SECOND_MIRROR)
    } else {
        end
    }
}
