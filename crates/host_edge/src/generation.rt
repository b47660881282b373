// What the superblock of a Btrfs volume tells of itself.
use crate::opened::Opened;
use outside::btrfs_format::block::SUPER_BLOCK;
use outside::{Access, Block, Format, format_of, u16_at, u64_at};
use std::fs::{File, Files};
use std::os::unix::fs::FileTypeExt;
use std::{fs, io};

/// Where the generation stands in a superblock, which grows with each time that Linux writes to the volume.
const GENERATION: usize = 72;

/// Where the number of the kind of checksum stands.
const CSUM_TYPE: usize = 196;

/// The generation of the Btrfs volume at a path, which is opened for reading alone. None where there is no such volume. Nobody has checked
/// the superblock.
pub fn generation_at<R: Files<File = File>>(files: &R, path: &str) -> io::Result<Option<u64>> {
    match superblock_at(files, path)? {
        Some(block) => Ok(Some(u64_at(&block.bytes, GENERATION))),
        None => Ok(None),
    }
}

/// The number of the kind of checksum of the Btrfs volume at a path, as [`generation_at`] reads its generation.
pub fn csum_type_at<R: Files<File = File>>(files: &R, path: &str) -> io::Result<Option<u16>> {
    match superblock_at(files, path)? {
        Some(block) => Ok(Some(u16_at(&block.bytes, CSUM_TYPE))),
        None => Ok(None),
    }
}

/// The block of the superblock, where a Btrfs volume is at a path.
fn superblock_at<R: Files<File = File>>(files: &R, path: &str) -> io::Result<Option<Block>> {
    let kind = fs::metadata(files, path)?.file_type();
    if !kind.is_file() && !kind.is_block_device() {
        return Ok(None);
    }
    let opened = Opened::new(File::open(files, path)?, Access::Read)?;
    if opened.blocks <= SUPER_BLOCK {
        return Ok(None);
    }
    let mut block = Block::zero();
    opened.read(SUPER_BLOCK, &mut block)?;
    if format_of(&block) == Format::Btrfs {
        Ok(Some(block))
    } else {
        Ok(None)
    }
}
