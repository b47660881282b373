ghost use Rattle.std.specs.Prelude.{◌≡◌, ◌≢◌, ◌≤◌, ◌<◌, ◌+◌, ◌*◌, ◌^◌, ◌++◌, ◌∷◌, ◌-◌, ◌/◌, [], ℕ, List, length, max, min, OnOk, IfOk, Option, Some};
ghost use Rattle.reiser_walk.specs.Items.{ReiserItem};
ghost use Rattle.reiser_volume_files.specs.Bytes.{MayFollow};
ghost use Rattle.reiser_volume_files.specs.Runs.{file_runs};
ghost use Rattle.reiser_volume_files.specs.Parts.{OverlaysTail, OverlaysDisks};
ghost use Rattle.reiser_volume_files.specs.States.{HoldsRuns, MapsFile};
ghost use Rattle.reiser_volume_files.specs.declared.map.RunFrom.{RunFrom};

use crate::map::extend;
use crate::pieces::{first_byte, pointer};
use crate::{FileMap, FileMapper, RunFrom};
use fs_rows::{block_count, count_below};
use reiser_walk::{BlockNo, ItemHead, ItemKind, Memory};
use std::alloc::Global;

impl FileMapper {
    /// A mapper of a file of `size` bytes that was given no item.
    pub fn new(alloc: Global, size: u64) -> FileMapper
        ensures size { result.size ≡ size }
        ensures none { MapsFile result [] }
    {
        FileMapper {
            map: FileMap::new(alloc),
            from: None,
            next: 0,
            size,
        }
    }

    /// Adds the next item of the object. Nothing is known of a mapper after want of memory.
    pub fn add_item(&mut self, head: &ItemHead, body: &[u8]) -> Result<(), Memory>
        ensures size { self.new.size ≡ self.old.size }
        ensures given { (given : List ReiserItem) (i : ReiserItem) → i.head ≡ head.now → i.body ≡ body.now → MayFollow given i → MapsFile self.old given →
            OnOk result (MapsFile self.new (given ++ i ∷ [])) }
    {
        match head.kind {
            ItemKind::Direct => self.put_bytes(first_byte(head), body.len()),
            ItemKind::Indirect => self.put_pointers(first_byte(head) / 4096, body),
            ItemKind::Stat | ItemKind::Directory => Ok(()),
        }
    }

    /// The map of the file.
    pub fn finish(mut self) -> Result<FileMap, Memory>
        ensures { (given : List ReiserItem) → MapsFile self given → IfOk result (λ map. map ≡ file_runs given self.size) }
    {
        if self.next < block_count(self.size) {
            extend(&mut self.map, self.next, self.from)?;
        }
        Ok(self.map)
    }

    /// Takes block `k` of the file in hand, if that lies behind the one in hand.
    fn go_to(&mut self, k: u64) -> Result<(), Memory>
        ensures size { self.new.size ≡ self.old.size }
        ensures next { OnOk result (self.new.next ≡ max self.old.next k) }
        ensures same { (f : ℕ → Option RunFrom) → HoldsRuns self.old f → OnOk result (HoldsRuns self.new f) }
    {
        if self.next < k {
            extend(&mut self.map, self.next, self.from)?;
            self.from = None;
            self.next = k;
        }
        Ok(())
    }

    /// Adds block `k` of the file, which lies there.
    fn put_block(&mut self, k: u64, from: RunFrom) -> Result<(), Memory>
        ensures size { self.new.size ≡ self.old.size }
        ensures next { OnOk result (self.new.next ≡ max self.old.next k) }
        ensures runs { (f g : ℕ → Option RunFrom) → g k ≡ Some from → ((j : ℕ) → j ≢ k → g j ≡ f j) → self.old.next ≤ k → HoldsRuns self.old f →
            OnOk result (HoldsRuns self.new g) }
    {
        self.go_to(k)?;
        self.from = Some(from);
        Ok(())
    }

    /// Adds block `k` of the file, which the block of the volume holds; 0 is a hole.
    fn put_pointer(&mut self, k: u64, block: BlockNo) -> Result<(), Memory>
        ensures size { self.new.size ≡ self.old.size }
        ensures next { self.old.next ≤ k → OnOk result (self.new.next ≤ k) }
        ensures runs { (f g : ℕ → Option RunFrom) → (block ≡ 0 → (j : ℕ) → f j ≡ g j) → (block ≢ 0 → g k ≡ Some (RunFrom.Disk block)) →
            ((j : ℕ) → j ≢ k → g j ≡ f j) → self.old.next ≤ k → HoldsRuns self.old f → OnOk result (HoldsRuns self.new g) }
    {
        if block == 0 {
            return Ok(());
        }
        self.put_block(k, RunFrom::Disk(block))
    }

    /// Adds the blocks of the file with the `len` bytes from byte `at` on, as far as they lie below the size.
    fn put_bytes(&mut self, at: u64, len: usize) -> Result<(), Memory>
        ensures size { self.new.size ≡ self.old.size }
        ensures next { 4096 * self.old.next ≤ at → OnOk result (4096 * self.new.next ≤ at + len) }
        ensures none { len ≡ 0 → self.new ≡ self.old }
        ensures runs { (f g : ℕ → Option RunFrom) → OverlaysTail at (min len (self.old.size - at)) f g → 4096 * self.old.next ≤ at → HoldsRuns self.old f →
            OnOk result (HoldsRuns self.new g) }
    {
        let count = count_below(at, len, self.size) as u64;
        if count == 0 {
            return Ok(());
        }
        self.put_tails(at, count)
    }

    /// Adds the blocks of the file with the `count` bytes from byte `at` on.
    fn put_tails(&mut self, at: u64, count: u64) -> Result<(), Memory>
        requires some { 0 < count }
        requires fits { at + count < 2 ^ 64 }
        ensures size { self.new.size ≡ self.old.size }
        ensures next { 4096 * self.old.next ≤ at → OnOk result (4096 * self.new.next ≤ at + count) }
        ensures runs { (f g : ℕ → Option RunFrom) → OverlaysTail at count f g → 4096 * self.old.next ≤ at → HoldsRuns self.old f →
            OnOk result (HoldsRuns self.new g) }
    {
        for k in at / 4096..(at + count - 1) / 4096 + 1 {
            self.put_block(k, RunFrom::Tail)?;
        }
        Ok(())
    }

    /// Adds the blocks that the pointers name from block `first` of the file on, as far as they lie below the size.
    fn put_pointers(&mut self, first: u64, body: &[u8]) -> Result<(), Memory>
        ensures size { self.new.size ≡ self.old.size }
        ensures next { self.old.next ≤ first → OnOk result (self.new.next ≤ first + length body.now / 4) }
        ensures none { length body.now / 4 ≡ 0 → self.new ≡ self.old }
        ensures runs { (f g : ℕ → Option RunFrom) → OverlaysDisks self.old.size first body.now f g → self.old.next ≤ first → HoldsRuns self.old f →
            OnOk result (HoldsRuns self.new g) }
    {
        for j in 0..count_below(first, body.len() / 4, block_count(self.size)) {
            self.put_pointer(first + j as u64, pointer(body, j) as u64)?;
        }
        Ok(())
    }
}
