ghost use Rattle.std.specs.Prelude.{◌≡◌, ◌≢◌, ◌≤◌, ◌<◌, ◌+◌, ◌-◌, ◌*◌, ◌/◌, ◌++◌, ◌∷◌, [], ℕ, List, length, true, OnOk};
ghost use Rattle.reiser_walk.specs.outside.Fault.{HasCause};
ghost use Rattle.reiser_walk.specs.outside.History.{Image, block_at, OverTold};
ghost use Rattle.fs_rows.specs.Held.{HoldsBytes};
ghost use Rattle.fs_rows.specs.Mark.{mark_of_bytes};
ghost use Rattle.fs_rows.specs.Pieces.{ReplacesBlock};
ghost use Rattle.reiser_walk.specs.Items.{ReiserItem};
ghost use Rattle.reiser_volume_files.specs.Bytes.{file_bytes, MayFollow};
ghost use Rattle.reiser_volume_files.specs.Pieces.{OverlaysNamed, are_inside};
ghost use Rattle.reiser_volume_files.specs.States.{MarksFile};

use crate::FileMarker;
use crate::pieces::{first_byte, pointer};
use fs_rows::{FileBytes, block_count, count_below};
use reiser_walk::{Block, BlockNo, BlockSource, Fault, ItemHead, ItemKind};

impl FileMarker {
    /// A marker of a file of `size` bytes that was given no item.
    pub fn new(size: u64) -> FileMarker
        ensures size { result.file.size ≡ size }
        ensures none { (image : Image) → MarksFile result image [] }
    {
        FileMarker {
            file: FileBytes::new(size),
        }
    }

    /// Adds the next item of the object. It reads the blocks that an indirect item names below the size, each once.
    /// Nothing is known of a marker after a fault.
    pub fn add_item<S: BlockSource>(
        &mut self,
        src: &mut S,
        head: &ItemHead,
        body: &[u8],
    ) -> Result<(), Fault>
        requires inside { are_inside head.now.kind body.now (S.size src.old) ≡ true }
        ensures kept { S.kept src.old src.new }
        ensures cause { HasCause (S.faults src.old) (S.faults src.new) result }
        ensures size { self.new.file.size ≡ self.old.file.size }
        ensures given { OverTold S.tells (S.blocks src.old) (λ image. (given : List ReiserItem) (i : ReiserItem) → i.head ≡ head.now → i.body ≡ body.now →
            MayFollow given i → MarksFile self.old image given → OnOk result (MarksFile self.new image (given ++ i ∷ []))) }
    {
        match head.kind {
            ItemKind::Direct => {
                self.file.put_bytes(first_byte(head), body);
                Ok(())
            }
            ItemKind::Indirect => self.put_pointers(src, first_byte(head) / 4096, body),
            ItemKind::Stat | ItemKind::Directory => Ok(()),
        }
    }

    /// The mark of the file.
    pub fn finish(self) -> [u8; 32]
        ensures { (image : Image) (given : List ReiserItem) → MarksFile self image given → result ≡ mark_of_bytes (file_bytes image given self.file.size) }
    {
        self.file.mark()
    }

    /// Adds the blocks that the pointers name from block `first` of the file on, as far as they lie below the size.
    fn put_pointers<S: BlockSource>(
        &mut self,
        src: &mut S,
        first: u64,
        body: &[u8],
    ) -> Result<(), Fault>
        requires inside { are_inside ItemKind.Indirect body.now (S.size src.old) ≡ true }
        ensures kept { S.kept src.old src.new }
        ensures cause { HasCause (S.faults src.old) (S.faults src.new) result }
        ensures size { self.new.file.size ≡ self.old.file.size }
        ensures next { self.old.file.next ≤ first → OnOk result (self.new.file.next ≤ first + length body.now / 4) }
        ensures none { length body.now / 4 ≡ 0 → self.new ≡ self.old }
        ensures bytes { OverTold S.tells (S.blocks src.old) (λ image. (f g : ℕ → ℕ) →
            OverlaysNamed image self.old.file.size first body.now f g → self.old.file.next ≤ first → HoldsBytes self.old.file f → OnOk result (HoldsBytes self.new.file g)) }
    {
        for j in 0..count_below(first, body.len() / 4, block_count(self.file.size())) {
            self.put_pointer(src, first + j as u64, pointer(body, j) as u64)?;
        }
        Ok(())
    }

    /// Adds block `k` of the file, which the block of the volume holds; 0 is a hole.
    fn put_pointer<S: BlockSource>(
        &mut self,
        src: &mut S,
        k: u64,
        block: BlockNo,
    ) -> Result<(), Fault>
        requires inside { block ≢ 0 → block < S.size src.old }
        requires fits { 4096 * k < self.old.file.size }
        ensures kept { S.kept src.old src.new }
        ensures cause { HasCause (S.faults src.old) (S.faults src.new) result }
        ensures size { self.new.file.size ≡ self.old.file.size }
        ensures next { self.old.file.next ≤ k → self.new.file.next ≤ k }
        ensures bytes { OverTold S.tells (S.blocks src.old) (λ image. (f g : ℕ → ℕ) → (block ≡ 0 → (n : ℕ) → f n ≡ g n) →
            (block ≢ 0 → ReplacesBlock self.old.file.size k (block_at image block) f g) → self.old.file.next ≤ k → HoldsBytes self.old.file f → OnOk result (HoldsBytes self.new.file g)) }
    {
        if block == 0 {
            return Ok(());
        }
        self.put_block(src, k, block)
    }

    /// Adds block `k` of the file, which the block of the volume holds.
    fn put_block<S: BlockSource>(
        &mut self,
        src: &mut S,
        k: u64,
        block: BlockNo,
    ) -> Result<(), Fault>
        requires inside { block < S.size src.old }
        requires fits { 4096 * k < self.old.file.size }
        ensures kept { S.kept src.old src.new }
        ensures cause { HasCause (S.faults src.old) (S.faults src.new) result }
        ensures size { self.new.file.size ≡ self.old.file.size }
        ensures next { self.old.file.next ≤ k → self.new.file.next ≤ k }
        ensures bytes { OverTold S.tells (S.blocks src.old) (λ image. (f g : ℕ → ℕ) →
            ReplacesBlock self.old.file.size k (block_at image block) f g → self.old.file.next ≤ k → HoldsBytes self.old.file f → OnOk result (HoldsBytes self.new.file g)) }
    {
        let mut bytes = Block::zero();
        src.read(block, &mut bytes)?;
        self.file.put_block(k, bytes);
        Ok(())
    }
}
