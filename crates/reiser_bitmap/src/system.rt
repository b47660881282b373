ghost use Rattle.std.specs.Prelude.{◌≡◌, ◌+◌, ◌<◌, length, true, All, OnOk, IfErr};
ghost use Rattle.reiser_bitmap.specs.Bits.{has};
ghost use Rattle.reiser_bitmap.specs.System.{system_blocks, NamesFreeBlock};

use crate::Bitmap;
use crate::layout::bitmap_block;
use refusals::{BlockNo, Rule, VolumeRefusal};
use reiserfs_format::block::BITS_IN_BLOCK;

impl Bitmap {
    /// Whether the volume's own blocks are marked as used: the superblock, the bitmap blocks, and the journal whose log
    /// of `journal_size` blocks begins at `journal_first` with the header behind it. The error names one that is free.
    pub fn system_used(
        &self,
        journal_first: BlockNo,
        journal_size: u64,
    ) -> Result<(), VolumeRefusal>
        requires { journal_first + journal_size < length self.now }
        ensures used { OnOk result (All (λ b. has self.now b ≡ true) (system_blocks (length self.now) journal_first journal_size)) }
        ensures free { IfErr result (NamesFreeBlock self.now journal_first journal_size) }
    {
        if !self.is_used(16) {
            return Err(marked_free(16));
        }
        for k in 0..self.len() / BITS_IN_BLOCK + 1 {
            let block = bitmap_block(k);
            if block < self.len() && !self.is_used(block) {
                return Err(marked_free(block));
            }
        }
        for block in journal_first..journal_first + journal_size + 1 {
            if !self.is_used(block) {
                return Err(marked_free(block));
            }
        }
        Ok(())
    }
}

fn marked_free(block: BlockNo) -> VolumeRefusal
    ensures { result ≡ VolumeRefusal.Damaged block Rule.SystemFree }
{
    VolumeRefusal::Damaged {
        block,
        rule: Rule::SystemFree,
    }
}
