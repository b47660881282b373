ghost use Rattle.std.specs.Prelude.{◌≡◌, ◌≤◌, ◌↔◌, [], length, codes, IsOk, IfErr};
ghost use Rattle.refusals.specs.vol_block.Format.{has_bytes_at};
ghost use Rattle.btr_super.specs.Rules.{
  is_super,
  has_fields,
  unread_bits,
  is_node_size,
  block_rules,
  field_rules,
  failing,
  unless_refused,
  super_refusals,
  super_of,
  NamesNoLog,
};

use crate::sums::{has_sum, sum_kind};
use crate::superblock::Super;
use btr_space_items::btrfs_format::block::{MAGIC, SUPER_INFO_OFFSET, SUPER_MAGIC_OFFSET};
use btr_space_items::btrfs_format::feature::{
    BIG_METADATA, COMPRESS_LZO, COMPRESS_ZSTD, DEFAULT_SUBVOL, EXTENDED_IREF, METADATA_UUID,
    MIXED_BACKREF, NO_HOLES, SIMPLE_QUOTA, SKINNY_METADATA,
};
use btr_space_items::btrfs_format::size::SYSTEM_CHUNK_ARRAY_SIZE;
use refusals::{Block, BlockNo, BtrRefusal, BtrRule, Feature, u16_at};

/// The bits of the incompatible features that are read.
const READ: u64 = MIXED_BACKREF
    | DEFAULT_SUBVOL
    | COMPRESS_LZO
    | COMPRESS_ZSTD
    | BIG_METADATA
    | EXTENDED_IREF
    | SKINNY_METADATA
    | NO_HOLES
    | METADATA_UUID
    | SIMPLE_QUOTA;

const BAD_FIELD: BtrRefusal = BtrRefusal::BadBtrfs {
    address: SUPER_INFO_OFFSET,
    rule: BtrRule::SuperField,
};

impl Super {
    /// The superblock that a block is, at this place of a device of `device` blocks.
    ///
    /// It is refused by the first of these that fails: the device has that block, and the block has the magic of Btrfs; the
    /// kind of checksum is known; the checksum is right; the fields are in their bounds (the superblock's own address, at
    /// most seven levels, the bootstrap array's room, and a length in whole blocks, at most that of the device and 2^48);
    /// no other incompatible features than those that are read; a sector size of 4096; one of the five node sizes; one
    /// device.
    pub fn read(block: &Block, place: BlockNo, device: u64) -> Result<Super, BtrRefusal>
        ensures value { result ≡ super_of block.now.bytes place device }
        ensures rules { IsOk result ↔ (super_refusals block.now.bytes place device ≡ []) }
        ensures known { IfErr result NamesNoLog }
    {
        check_block(block, place, device)?;
        let found = Super::first(&block.bytes);
        found.check_fields(place, device)?;
        Ok(found)
    }

    fn check_fields(&self, place: BlockNo, device: u64) -> Result<(), BtrRefusal>
        ensures value { result ≡ unless_refused (failing (field_rules self.now place device)) tt }
        ensures known { IfErr result NamesNoLog }
    {
        if !self.has_fields(place, device) {
            return Err(BAD_FIELD);
        }
        let unread = self.incompat & !READ;
        if unread != 0 {
            return unsupported(Feature::Incompat, unread);
        }
        if self.sectorsize != 4096 {
            return unsupported(Feature::SectorSize, self.sectorsize as u64);
        }
        if !is_node_size(self.nodesize) {
            return unsupported(Feature::NodeSize, self.nodesize as u64);
        }
        if self.num_devices != 1 {
            return unsupported(Feature::DeviceCount, self.num_devices);
        }
        Ok(())
    }

    fn has_fields(&self, place: BlockNo, device: u64) -> bool
        ensures { result ≡ has_fields self.now place device }
    {
        self.bytenr % 4096 == 0
            && self.bytenr / 4096 == place
            && self.root_level <= 7
            && self.chunk_root_level <= 7
            && self.log_root_level <= 7
            && self.sys_chunk_array_size <= SYSTEM_CHUNK_ARRAY_SIZE as u32
            && self.total_bytes / 4096 <= device
            && self.total_bytes <= 1 << 48
            && self.total_bytes % 4096 == 0
    }
}

/// Whether a node size is one of the five that are read, in bytes.
fn is_node_size(size: u32) -> bool
    ensures { result ≡ is_node_size size }
{
    size == 4096 || size == 8192 || size == 16384 || size == 32768 || size == 65536
}

fn unsupported(feature: Feature, value: u64) -> Result<(), BtrRefusal>
    ensures { result ≡ Err (BtrRefusal.Unsupported feature value) }
{
    Err(BtrRefusal::Unsupported { feature, value })
}

fn check_block(block: &Block, place: BlockNo, device: u64) -> Result<(), BtrRefusal>
    ensures value { result ≡ unless_refused (failing (block_rules block.now.bytes place device)) tt }
    ensures known { IfErr result NamesNoLog }
{
    if !is_super(&block.bytes, place, device) {
        return Err(BAD_FIELD);
    }
    let csum_type = u16_at(&block.bytes, 196);
    let Some(kind) = sum_kind(csum_type) else {
        return unsupported(Feature::ChecksumType, csum_type as u64);
    };
    if !has_sum(kind, &block.bytes) {
        return Err(BtrRefusal::BadBtrfs {
            address: SUPER_INFO_OFFSET,
            rule: BtrRule::SuperCsum,
        });
    }
    Ok(())
}

fn is_super(block: &[u8], place: BlockNo, device: u64) -> bool
    requires { SUPER_MAGIC_OFFSET ≤ length block.now }
    ensures { result ≡ is_super block.now place device }
{
    place < device && has_magic(block)
}

fn has_magic(block: &[u8]) -> bool
    requires { SUPER_MAGIC_OFFSET ≤ length block.now }
    ensures { result ≡ has_bytes_at block.now SUPER_MAGIC_OFFSET (codes "_BHRfS_M") }
{
    block[SUPER_MAGIC_OFFSET..].starts_with(MAGIC)
}
