ghost use Rattle.std.specs.Prelude.{◌≡◌, ◌≤◌, ◌<◌, ◌+◌, ◌-◌, ◌*◌, ℕ, length, take, max};
ghost use Rattle.fs_rows.specs.Bytes.{bytes_by, up_to};
ghost use Rattle.fs_rows.specs.Held.{HoldsBytes};
ghost use Rattle.fs_rows.specs.Mark.{mark_of_bytes};
ghost use Rattle.fs_rows.specs.Pieces.{Overlays, ReplacesBlock};

use crate::pieces::{copy_piece, count_below, cut};
use crate::{FileBytes, Marker};
use sink_text::Block;

impl FileBytes {
    /// A file of `size` bytes of which nothing was put: zeros.
    pub fn new(size: u64) -> FileBytes
        ensures size { result.size ≡ size }
        ensures next { result.next ≡ 0 }
        ensures none { (f : ℕ → ℕ) → ((n : ℕ) → f n ≡ 0) → HoldsBytes result f }
    {
        FileBytes {
            marker: Marker::new(),
            block: Block::zero(),
            next: 0,
            size,
        }
    }

    /// The size of the file in bytes.
    pub fn size(&self) -> u64
        ensures { result ≡ self.now.size }
    {
        self.size
    }

    /// Takes block `k` of the file in hand, if that lies behind the one in hand.
    fn go_to(&mut self, k: u64)
        requires { 4096 * k < self.old.size }
        ensures size { self.new.size ≡ self.old.size }
        ensures next { self.new.next ≡ max self.old.next k }
        ensures same { (f : ℕ → ℕ) → HoldsBytes self.old f → HoldsBytes self.new f }
    {
        if self.next < k {
            self.marker.add(self.next, &self.block);
            self.block = Block::zero();
            self.next = k;
        }
    }

    /// Puts bytes of the file from byte `at` on.
    fn put_piece(&mut self, at: u64, bytes: &[u8])
        requires some { 0 < length bytes.now }
        requires fits { at + length bytes.now ≤ self.old.size }
        ensures size { self.new.size ≡ self.old.size }
        ensures near { 4096 * self.old.next ≤ at → 4096 * self.new.next ≤ at + length bytes.now }
        ensures bytes { (f g : ℕ → ℕ) → Overlays at bytes.now f g → 4096 * self.old.next ≤ at → HoldsBytes self.old f → HoldsBytes self.new g }
    {
        let last = (at + bytes.len() as u64 - 1) / 4096;
        for k in at / 4096..last + 1 {
            self.go_to(k);
            copy_piece(&mut self.block, 4096 * k, at, bytes);
        }
    }

    /// Puts bytes of the file from byte `at` on, as far as they lie below the size. The block in hand must not begin
    /// behind `at`.
    pub fn put_bytes(&mut self, at: u64, bytes: &[u8])
        ensures size { self.new.size ≡ self.old.size }
        ensures near { 4096 * self.old.next ≤ at → 4096 * self.new.next ≤ at + length bytes.now }
        ensures none { length bytes.now ≡ 0 → self.new ≡ self.old }
        ensures bytes { (f g : ℕ → ℕ) → Overlays at (take (self.old.size - at) bytes.now) f g → 4096 * self.old.next ≤ at → HoldsBytes self.old f →
            HoldsBytes self.new g }
    {
        let count = count_below(at, bytes.len(), self.size);
        if count > 0 {
            self.put_piece(at, &bytes[..count]);
        }
    }

    /// Puts a block in place of block `k` of the file, up to the size. The block in hand must not lie behind that.
    pub fn put_block(&mut self, k: u64, block: Block)
        requires { 4096 * k < self.old.size }
        ensures size { self.new.size ≡ self.old.size }
        ensures next { self.new.next ≡ max self.old.next k }
        ensures bytes { (f g : ℕ → ℕ) → ReplacesBlock self.old.size k block.bytes f g → self.old.next ≤ k → HoldsBytes self.old f → HoldsBytes self.new g }
    {
        let size = self.size;
        self.go_to(k);
        self.block = block;
        cut(&mut self.block, 4096 * k, size);
    }

    /// The mark of the bytes.
    pub fn mark(self) -> [u8; 32]
        ensures { (f : ℕ → ℕ) → HoldsBytes self (up_to f self.size) → result ≡ mark_of_bytes (bytes_by self.size f 0) }
    {
        let mut marker = self.marker;
        marker.add(self.next, &self.block);
        marker.finish()
    }

    /// The bytes themselves, where they are no more than a block.
    pub fn short(&self) -> &[u8]
        requires { self.now.size ≤ 4096 }
        ensures { (f : ℕ → ℕ) → HoldsBytes self.now (up_to f self.now.size) → result.now ≡ bytes_by self.now.size f 0 }
    {
        &self.block.bytes[..self.size as usize]
    }
}
