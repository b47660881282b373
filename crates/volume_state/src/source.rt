// The saved image as a source of blocks.
ghost use Rattle.std.specs.Prelude.{◌≡◌, ◌≤◌, ℕ, length, min, refl};
ghost use Rattle.std.proofs.Common.{◌∙◌, ap, sym};
ghost use Rattle.std.proofs.lemmas.List.FromFn.{length-map-range_with_len};
ghost use Rattle.reiser_bitmap.specs.outside.History.{Image};
ghost use Rattle.btr_reader.specs.Pieces.{map_place};
ghost use Rattle.btr_reader.specs.declared.image_map.ImageMap.{ImageMap as MapOf};
ghost use Rattle.volume_state.specs.Saved.{block_or_hole, blocks_by_map};

use btr_reader::ImageMap;
use reiser_bitmap::{Block, BlockNo, BlockSource, Fault};

/// The blocks of a saved image, each read from its place on the device of the Btrfs volume. A hole reads as zeros.
///
/// It has as many blocks as the image, but no more than the device: a volume that says that it is larger is then too short. Its
/// faults are those of the device.
#[derive(Drop)]
pub struct ImageSource<'a, S: BlockSource> {
    /// The device.
    pub src: &'a mut S,
    /// Where the blocks of the image lie on it.
    pub map: &'a ImageMap,
    ghost inside: { map.now.device ≤ S.size src.now },
}

impl<'a, S: BlockSource> ImageSource<'a, S> {
    /// Borrows a device, and the map of the image that lies on it.
    pub fn new(src: &'a mut S, map: &'a ImageMap) -> ImageSource<'a, S>
        requires inside { map.now.device ≤ S.size src.old }
        ensures same { result.src.now ≡ src.old }
        ensures borrowed { result.src.ghost_name ≡ src.entry.ghost_name }
        ensures map { result.map.now ≡ map.now }
    {
        ImageSource { src, map }
    }
}

impl<S: BlockSource> BlockSource for ImageSource<'_, S> {
    ghost tells = { S.tells };

    ghost blocks = { λ s. blocks_by_map s.map.now (S.blocks s.src.now) };

    ghost size = { λ s. min s.map.now.blocks (S.size s.src.now) };

    ghost faults = { λ s. S.faults s.src.now };

    ghost kept = { λ a b. S.kept a.src.now b.src.now × (b.src.ghost_name ≡ a.src.ghost_name) × (b.map.now ≡ a.map.now) };

    ghost kept_refl = { λ a. (S.kept_refl a.src.now, refl, refl) };

    ghost kept_trans = { λ a b c first second. (S.kept_trans a.src.now b.src.now c.src.now first.0 second.0, second.1 ∙ first.1, second.2 ∙ first.2) };

    ghost kept_size = { λ a b kept. ap (λ (m : MapOf). min m.blocks (S.size b.src.now)) kept.2 ∙ ap (λ (n : ℕ). min a.map.now.blocks n) (S.kept_size a.src.now b.src.now kept.0) };

    ghost kept_blocks = { λ a b tells kept. ap (λ (m : MapOf). blocks_by_map m (S.blocks b.src.now)) kept.2 ∙ ap (λ (disk : Image). blocks_by_map a.map.now disk) (S.kept_blocks a.src.now b.src.now tells kept.0) };

    ghost size_is = { λ a tells. ap (λ (n : ℕ). min a.map.now.blocks n) (S.size_is a.src.now tells)
        ∙ sym (length-map-range_with_len (λ b. block_or_hole (S.blocks a.src.now) (map_place a.map.now b)) 0 (min a.map.now.blocks (length (S.blocks a.src.now)))) };

    fn len(&self) -> u64 {
        self.map.len().min(self.src.len())
    }

    fn read(&mut self, n: BlockNo, into: &mut Block) -> Result<(), Fault> {
        match self.map.place(n) {
            Some(place) => self.src.read(place, into),
            None => {
                *into = Block::zero();
                Ok(())
            }
        }
    }

    /// Says it to the device, of the places that the blocks have there. What lies in a hole has none: its number there is
    /// past the end of any device.
    fn will_read(&mut self, mut told: Vec<BlockNo>) {
        for i in 0..told.len() {
            told[i] = self.map.place(told[i]).unwrap_or(BlockNo::MAX);
        }
        self.src.will_read(told);
    }
}
