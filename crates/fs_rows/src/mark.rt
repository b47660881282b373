ghost use Rattle.std.specs.Prelude.{◌≡◌, ℕ, List, [], ◌++◌, ◌∷◌};
ghost use Rattle.fs_rows.specs.Mark.{mark_of};
ghost use Rattle.fs_rows.specs.Marker.{Marks};

use sha2::{Digest, Sha256};
use sink_text::{Block, put_u64};

/// Makes the mark of a file from its blocks, which are added by rising index.
///
/// The mark is the SHA-256 of the blocks that are not all zeros, each behind its index as eight bytes, the low one
/// first. So a hole and a block of zeros give the same mark, and a file of a size in terabytes with one block of
/// data costs no more than that block.
#[derive(Drop)]
pub struct Marker {
    hasher: Sha256,
}

impl Marker {
    /// No blocks.
    pub fn new() -> Marker
        ensures { Marks result [] }
    {
        Marker {
            hasher: Sha256::new(),
        }
    }

    /// Adds block number `index` of the file, which holds its bytes 4096·index to 4096·index + 4095. What of the last
    /// block lies past the file's end is zeros.
    pub fn add(&mut self, index: u64, block: &Block)
        ensures { (blocks : List (ℕ × List ℕ)) → Marks self.old blocks → Marks self.new (blocks ++ (index, block.now.bytes) ∷ []) }
    {
        if block.is_zero() {
            return;
        }
        let mut number = [0; 8];
        put_u64(&mut number, 0, index);
        self.hasher.update(&number);
        self.hasher.update(&block.bytes);
    }

    /// The mark of the blocks that were added.
    pub fn finish(self) -> [u8; 32]
        ensures { (blocks : List (ℕ × List ℕ)) → Marks self blocks → result ≡ mark_of blocks }
    {
        self.hasher.finalize()
    }
}
