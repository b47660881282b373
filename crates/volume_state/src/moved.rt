// Whether blocks of the old volume were moved.
ghost use Rattle.std.specs.Prelude.{◌≡◌, ◌≢◌, Some, false, IsTrue};
ghost use Rattle.reiser_bitmap.specs.vol_block.Volume.{is_reserved};
ghost use Rattle.volume_state.specs.Moved.{TellsMoved};
ghost use Rattle.btr_reader.specs.Pieces.{map_place};

use btr_reader::ImageMap;
use reiser_bitmap::{Bitmap, BlockNo, is_reserved};

/// A block that the bitmap of the saved image marks used, that is not reserved, and that the image has at another place or nowhere.
/// None exactly where there is none.
pub fn image_moved(map: &ImageMap, image: &Bitmap) -> Option<BlockNo>
    ensures { TellsMoved (map_place map.now) image.now result }
{
    let end = image.len();
    let mut block = image.next_used(0, end);
    while block < end {
        if is_elsewhere(map, block, end) {
            return Some(block);
        }
        block = image.next_used(block + 1, end);
    }
    None
}

/// Whether a block is not reserved on a volume of so many blocks, and the image has it at another place or nowhere.
fn is_elsewhere(map: &ImageMap, block: BlockNo, blocks: u64) -> bool
    ensures moved { IsTrue result → (is_reserved block blocks ≡ false) × (map_place map.now block ≢ Some block) }
    ensures stays { result ≡ false → is_reserved block blocks ≡ false → map_place map.now block ≡ Some block }
{
    !is_reserved(block, blocks) && map.place(block) != Some(block)
}
