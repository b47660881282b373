ghost use Rattle.std.specs.Prelude.{◌≡◌, ◌+◌, ◌^◌, ◌≤◌, ◌↔◌, true, false, slice_range, IsOk, IfOk};
ghost use Rattle.std.specs.Result.{MatchResult, result_err};

use refusals::{
    Block, BlockNo, Feature, Rule, VolumeRefusal, has_magic, has_reiser_magic, u16_at, u32_at,
};
use reiserfs_format::block::{SUPER_BLOCK, SUPER_MAGIC_OFFSET, VALID_FS};

/// The most blocks of a volume that is converted: 2 TiB.
const MAX_BLOCKS: u64 = 1 << 29;

const OUT_OF_BOUNDS: VolumeRefusal = VolumeRefusal::Damaged {
    block: SUPER_BLOCK,
    rule: Rule::SuperField,
};

/// What the superblock of a ReiserFS volume says, as far as a conversion needs it.
#[derive(Clone, Copy, Debug, PartialEq, Eq)]
pub struct Super {
    /// The length of the volume, in blocks of 4096 bytes.
    pub blocks: u64,
    /// The number of free blocks, as the volume counts them. It is compared with nothing.
    pub free: u32,
    /// The block of the tree's root.
    pub root: BlockNo,
    /// The number of levels of the tree plus one: the root has level `height` − 1, a leaf level 1.
    pub height: u16,
    /// The first block of the journal's log.
    pub journal_first: BlockNo,
    /// The length of the log in blocks. The journal's header is the block behind it.
    pub journal_size: u64,
    /// The flags; [`ATTRS_CLEARED`] says that stat items carry attributes.
    pub flags: u32,
    /// The volume's UUID, as it stands on the device.
    pub uuid: [u8; 16],
    /// The volume's label, filled up with zeros.
    pub label: [u8; 16],
}

impl Super {
    ghost use Rattle.reiser_super.specs.Superblock.{superblock_fields};
    ghost use Rattle.reiser_super.specs.Rules.{IsCleanSuper, IsInBounds, is_in_bounds, superblock_refusal};

    /// Reads the superblock, which is block 16 of a device of `device` blocks. Of a shorter device it may be any block.
    ///
    /// The rules are tried in this order, and the first that fails gives the error: there is a block 16 with a ReiserFS
    /// magic (`NotVolume`); the magic is not that of format 3.5, blocks have 4096 bytes, the journal is on this device,
    /// the checker has marked no damage, there are at most 2^29 blocks (`Unsupported`); the volume was unmounted
    /// (`Unclean`); the fields are within their bounds (`Damaged`, at block 16); the device holds the volume (`Short`).
    ///
    /// The numbers of free blocks and bitmaps, the version, the object-id map and the hash code are compared with nothing.
    #[tactic(auto, using(crate::proofs::Clean::none_from_clean))]
    pub fn read(block: &Block, device: u64) -> Result<Super, VolumeRefusal>
        ensures fields { IfOk result (λ s. s ≡ superblock_fields block.now.bytes) }
        ensures refusal { result_err result ≡ superblock_refusal block.now.bytes device }
        ensures clean { IsOk result ↔ IsCleanSuper block.now.bytes device }
        ensures bounds { IfOk result IsInBounds }
        ensures few { IfOk result (λ s. s.blocks ≤ 2 ^ 29) }
        ensures fits { IfOk result (λ s. s.blocks ≤ device) }
    {
        let found = Super::fields_of(block);
        found.check_rules(block, device)?;
        Ok(found)
    }

    /// The refusal of the first rule that fails.
    fn check_rules(&self, block: &Block, device: u64) -> Result<(), VolumeRefusal>
        requires { self.now ≡ superblock_fields block.now.bytes }
        ensures { result_err result ≡ superblock_refusal block.now.bytes device }
    {
        let blocks = self.blocks;
        let block_size = u16_at(&block.bytes, 44) as u64;
        let journal_device = u32_at(&block.bytes, 16) as u64;
        let checker_state = u16_at(&block.bytes, 62) as u64;
        let state = u16_at(&block.bytes, 50);
        let is_old = has_magic(block, SUPER_MAGIC_OFFSET, b"ReIsErFs");
        check(
            device > SUPER_BLOCK && has_reiser_magic(block),
            VolumeRefusal::NotVolume,
        )?;
        check_feature(!is_old, Feature::OldMagic, 35)?;
        check_feature(block_size == 4096, Feature::BlockSize, block_size)?;
        check_feature(journal_device == 0, Feature::JournalDevice, journal_device)?;
        check_feature(checker_state == 0, Feature::FsState, checker_state)?;
        check_feature(blocks <= MAX_BLOCKS, Feature::BlockCount, blocks)?;
        check(state == VALID_FS, VolumeRefusal::Unclean { state })?;
        check(self.is_in_bounds(), OUT_OF_BOUNDS)?;
        check(
            blocks <= device,
            VolumeRefusal::Short {
                volume: blocks,
                device,
            },
        )
    }

    /// The fields, whatever they say.
    fn fields_of(block: &Block) -> Super
        ensures { result ≡ superblock_fields block.now.bytes }
    {
        Super {
            blocks: u32_at(&block.bytes, 0) as u64,
            free: u32_at(&block.bytes, 4),
            root: u32_at(&block.bytes, 8) as u64,
            height: u16_at(&block.bytes, 68),
            journal_first: u32_at(&block.bytes, 12) as u64,
            journal_size: u32_at(&block.bytes, 20) as u64,
            flags: u32_at(&block.bytes, 80),
            uuid: bytes_at(block, 84),
            label: bytes_at(block, 100),
        }
    }

    /// Whether the tree and the journal lie in the volume.
    fn is_in_bounds(&self) -> bool
        ensures { result ≡ is_in_bounds self.now }
    {
        2 <= self.height
            && self.height <= 7
            && self.root < self.blocks
            && 18 <= self.journal_first
            && 1 <= self.journal_size
            && self.journal_first < self.blocks
            && self.journal_size < self.blocks - self.journal_first
            && 18 <= self.blocks
    }
}

/// The sixteen bytes of a block from byte `at` on.
fn bytes_at(block: &Block, at: usize) -> [u8; 16]
    requires { at ≤ 4080 }
    ensures { result ≡ slice_range block.now.bytes at (at + 16) }
{
    let mut bytes = [0; 16];
    bytes.copy_from_slice(&block.bytes[at..at + 16]);
    bytes
}

/// The refusal, unless the rule holds.
fn check(holds: bool, refusal: VolumeRefusal) -> Result<(), VolumeRefusal>
    ensures { MatchResult result (λ _. holds ≡ true) (λ e. (holds ≡ false) × (e ≡ refusal)) }
{
    if holds { Ok(()) } else { Err(refusal) }
}

fn check_feature(holds: bool, feature: Feature, value: u64) -> Result<(), VolumeRefusal>
    ensures { MatchResult result (λ _. holds ≡ true) (λ e. (holds ≡ false) × (e ≡ VolumeRefusal.Unsupported feature value)) }
{
    check(holds, VolumeRefusal::Unsupported { feature, value })
}
