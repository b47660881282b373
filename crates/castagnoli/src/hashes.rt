ghost use Rattle.std.specs.Prelude.{◌≡◌, ◌^◌, ◌<◌};
ghost use Rattle.castagnoli.specs.Castagnoli.{crc32c, name_hash, extref_hash, data_ref_hash};

use crate::register::raw_crc;

/// The CRC-32C of the bytes, as RFC 3720 has it.
#[tactic(auto, unfolding(crate::specs::Castagnoli::crc32c))]
pub fn crc32c(bytes: &[u8]) -> u32
    ensures { result ≡ crc32c bytes.now }
{
    raw_crc(u32::MAX, bytes) ^ u32::MAX
}

/// The hash of a name in a directory: the offset of its entry's key.
#[tactic(auto, unfolding(crate::specs::Castagnoli::name_hash))]
pub fn name_hash(name: &[u8]) -> u32
    ensures { result ≡ name_hash name.now }
{
    raw_crc(0xFFFF_FFFE, name)
}

/// The hash of a name in the directory `parent`: the offset of an extended inode reference's key.
#[tactic(auto, unfolding(crate::specs::Castagnoli::extref_hash))]
pub fn extref_hash(parent: u64, name: &[u8]) -> u32
    ensures { result ≡ extref_hash parent name.now }
{
    raw_crc((parent % (1 << 32)) as u32, name)
}

/// The hash of a reference to a data extent: from the tree `root`, the inode `objectid` and the offset in the file, in
/// bytes. References in an extent's item stand by this hash, the greatest first.
#[tactic(auto, unfolding(crate::specs::Castagnoli::data_ref_hash))]
pub fn data_ref_hash(root: u64, objectid: u64, offset: u64) -> u64
    ensures value { result ≡ data_ref_hash root objectid offset }
    ensures bound { result < 2 ^ 63 }
{
    let high = raw_crc(u32::MAX, &root.to_le_bytes());
    let low = raw_crc(
        raw_crc(u32::MAX, &objectid.to_le_bytes()),
        &offset.to_le_bytes(),
    );
    (u64::from(high) << 31) ^ u64::from(low)
}
