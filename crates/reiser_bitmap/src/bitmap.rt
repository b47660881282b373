ghost use Rattle.std.specs.Prelude.{◌≡◌, ◌<◌, replicate, length, false, true, slice_set, IfOk};
ghost use Rattle.reiser_bitmap.specs.Bits.{has};

use refusals::{BlockNo, Memory};
use std::alloc::{AllocError, Global};
use std::marker::Model;

/// A set of blocks of a volume, as a bit for each, low first. A contract sees it as a list with whether each block of
/// the volume is in it.
#[derive(Drop)]
pub struct Bitmap {
    pub(crate) blocks: u64,
    pub(crate) bytes: Vec<u8>,
}

impl Model for Bitmap {
    ghost use Rattle.std.specs.Prelude.{Bool, List};
    ghost use Rattle.reiser_bitmap.specs.Bits.{bits};
    ghost use Rattle.reiser_bitmap.specs.Stored.{IsStored};

    ghost Value = { List Bool };

    ghost view = { λ m. bits m.blocks m.bytes.items };

    ghost invariant = { λ m. IsStored m.blocks m.bytes.items };
}

impl Bitmap {
    /// No block of a volume of so many. It takes a byte for eight blocks.
    pub fn new(alloc: Global, blocks: u64) -> Result<Bitmap, Memory>
        ensures { IfOk result (λ m. m ≡ replicate blocks false) }
    {
        let bytes = zeros(alloc, blocks.div_ceil(8) as usize)?;
        Ok(Bitmap { blocks, bytes })
    }

    /// How many blocks the volume has.
    pub fn len(&self) -> u64
        ensures { result ≡ length self.now }
    {
        self.blocks
    }

    /// Whether the block is in the set. One past the end is not.
    pub fn is_used(&self, b: BlockNo) -> bool
        ensures { result ≡ has self.now b }
    {
        b < self.blocks && self.bytes[(b / 8) as usize] & (1 << (b % 8)) != 0
    }

    /// Puts a block into the set.
    pub fn insert(&mut self, b: BlockNo)
        requires { b < length self.old }
        ensures { self.new ≡ slice_set self.old b true }
    {
        self.bytes[(b / 8) as usize] |= 1 << (b % 8);
    }
}

fn zeros(alloc: Global, count: usize) -> Result<Vec<u8>, AllocError>
    ensures { IfOk result (λ bytes. bytes.items ≡ replicate count 0) }
{
    let mut bytes = Vec::new(alloc);
    bytes.resize(count, 0)?;
    Ok(bytes)
}
