// A volume of at least 2,048 blocks in memory, of which the first 52 are used, with an empty root directory.
use outside_mem::MemDisk;
use std::alloc::Global;
use vol_block::{Block, put_u16, put_u32, put_u64};
use volume_app_test_kit::Broken;
use volume_samples::with_leaf;

/// The heads of the root directory's stat item and of its directory item, as mkfs.reiserfs writes them.
const HEADS: [u8; 48] = [
    0x01, 0x00, 0x00, 0x00, 0x02, 0x00, 0x00, 0x00, 0x00, 0x00, 0x00, 0x00, 0x00, 0x00, 0x00, 0x00,
    0x00, 0x00, 0x2c, 0x00, 0xd4, 0x0f, 0x01, 0x00, 0x01, 0x00, 0x00, 0x00, 0x02, 0x00, 0x00, 0x00,
    0x01, 0x00, 0x00, 0x00, 0xf4, 0x01, 0x00, 0x00, 0x02, 0x00, 0x30, 0x00, 0xa4, 0x0f, 0x00, 0x00,
];

/// The entries `.` and `..`.
const ENTRIES: [u8; 48] = [
    0x01, 0x00, 0x00, 0x00, 0x01, 0x00, 0x00, 0x00, 0x02, 0x00, 0x00, 0x00, 0x28, 0x00, 0x04, 0x00,
    0x02, 0x00, 0x00, 0x00, 0x00, 0x00, 0x00, 0x00, 0x01, 0x00, 0x00, 0x00, 0x20, 0x00, 0x04, 0x00,
    0x2e, 0x2e, 0x00, 0x00, 0x00, 0x00, 0x00, 0x00, 0x2e, 0x00, 0x00, 0x00, 0x00, 0x00, 0x00, 0x00,
];

/// The seconds of all times of the sample.
const MOMENT: u32 = 1_000_000_000;

/// The leaf that is the tree of the sample.
fn root_leaf() -> Block {
    let mut block = Block::zero();
    let bytes = &mut block.bytes;
    put_u16(bytes, 0, 1);
    put_u16(bytes, 2, 2);
    put_u16(bytes, 4, 3932);
    bytes[24..72].copy_from_slice(&HEADS);
    bytes[4004..4052].copy_from_slice(&ENTRIES);
    put_u16(bytes, 4052, 0o40755);
    put_u32(bytes, 4056, 2);
    put_u64(bytes, 4060, 48);
    put_u32(bytes, 4076, MOMENT);
    put_u32(bytes, 4080, MOMENT);
    put_u32(bytes, 4084, MOMENT);
    put_u32(bytes, 4088, 1);
    block
}

/// The sample on so many blocks.
pub fn sample(alloc: Global, blocks: u32) -> Result<MemDisk, Broken> {
    if blocks < 2048 {
        return Err(Broken::Sample);
    }
    Ok(with_leaf(alloc, blocks, &[(0, 52)], &root_leaf())?)
}
