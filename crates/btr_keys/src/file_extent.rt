ghost use Rattle.std.specs.Prelude.{◌≡◌, ◌+◌, ◌≤◌, length};
ghost use Rattle.std.specs.Option.{option_map};
ghost use Rattle.btr_keys.specs.FileExtent.{
  disk_range_of,
  disk_range_bytes,
  content_value,
  content_of,
  content_kind,
  content_bytes,
  file_extent_value,
  file_extent_of,
  file_extent_bytes,
  file_extent_size,
};

use vol_block::btrfs_format::flag::{FILE_EXTENT_INLINE, FILE_EXTENT_PREALLOC, FILE_EXTENT_REG};
use vol_block::{Field, put_fields, u16_at, u64_at};

/// Where the bytes of a regular or preallocated file extent lie. All are in bytes.
#[derive(Clone, Copy, Debug, PartialEq, Eq)]
pub struct DiskRange {
    /// The logical address of the disk extent; 0 for a hole.
    pub disk_bytenr: u64,
    /// The length of the disk extent.
    pub disk_num_bytes: u64,
    /// Where in the disk extent the file's bytes begin.
    pub offset: u64,
    /// How many bytes of the file lie there.
    pub num_bytes: u64,
}

impl DiskRange {
    /// The bytes of a range.
    pub const SIZE: usize = 32;

    /// The range that is the whole slice; None exactly where it has another length than 32 bytes.
    #[tactic(auto, unfolding(crate::specs::FileExtent::disk_range_layout))]
    pub fn read(bytes: &[u8]) -> Option<DiskRange>
        ensures { result ≡ disk_range_of bytes.now }
    {
        if bytes.len() != DiskRange::SIZE {
            return None;
        }
        Some(DiskRange {
            disk_bytenr: u64_at(bytes, 0),
            disk_num_bytes: u64_at(bytes, 8),
            offset: u64_at(bytes, 16),
            num_bytes: u64_at(bytes, 24),
        })
    }

    /// Writes the range into the 32 bytes of a slice.
    #[tactic(auto, unfolding(crate::specs::FileExtent::disk_range_layout))]
    pub fn write(&self, into: &mut [u8])
        requires { length into.old ≡ 32 }
        ensures { into.new ≡ disk_range_bytes self.now }
    {
        put_fields(
            into,
            &[
                Field::U64(self.disk_bytenr),
                Field::U64(self.disk_num_bytes),
                Field::U64(self.offset),
                Field::U64(self.num_bytes),
            ],
        );
    }

    /// The 32 bytes of the range.
    pub fn to_bytes(&self) -> [u8; 32]
        ensures { result ≡ disk_range_bytes self.now }
    {
        let mut bytes = [0; 32];
        self.write(&mut bytes);
        bytes
    }
}

/// What a file extent holds.
#[derive(Clone, Copy, Debug)]
pub enum ExtentContent<'a> {
    /// The bytes themselves.
    Inline(&'a [u8]),
    /// Bytes that lie elsewhere.
    Regular(DiskRange),
    /// Room for bytes that were not written: it reads as zeros.
    Prealloc(DiskRange),
}

/// The body of a file extent, key (inode, 108, offset in the file in bytes), as the Btrfs on-disk format documentation
/// has it: 21 bytes and the inline contents, or 53 bytes.
#[derive(Clone, Copy, Debug)]
pub struct FileExtent<'a> {
    /// The transaction that made the extent.
    pub generation: u64,
    /// The bytes that it has when decompressed.
    pub ram_bytes: u64,
    /// The kind of compression; 0 for none.
    pub compression: u8,
    /// The kind of encryption; 0 for none.
    pub encryption: u8,
    /// Any other encoding; 0 for none.
    pub other: u16,
    /// What it holds.
    pub content: ExtentContent<'a>,
}

impl<'a> FileExtent<'a> {
    /// The extent that is the whole body. None exactly where the body has fewer than 21 bytes, its kind is none of 0, 1
    /// and 2, or it is regular or preallocated and has another length than 53 bytes.
    pub fn read(body: &'a [u8]) -> Option<FileExtent<'a>>
        ensures { option_map file_extent_value result ≡ file_extent_of body.now }
    {
        if body.len() < 21 {
            return None;
        }
        let content = content_of(body[20], &body[21..])?;
        Some(FileExtent {
            generation: u64_at(body, 0),
            ram_bytes: u64_at(body, 8),
            compression: body[16],
            encryption: body[17],
            other: u16_at(body, 18),
            content,
        })
    }

    /// Writes the extent into a slice of 21 bytes and the inline contents, or of 53 bytes.
    pub fn write(&self, into: &mut [u8])
        requires { length into.old ≡ file_extent_size (file_extent_value self.now) }
        ensures { into.new ≡ file_extent_bytes (file_extent_value self.now) }
    {
        match self.content {
            ExtentContent::Inline(bytes) => self.put(FILE_EXTENT_INLINE, bytes, into),
            ExtentContent::Regular(range) => self.put(FILE_EXTENT_REG, &range.to_bytes(), into),
            ExtentContent::Prealloc(range) => self.put(
                FILE_EXTENT_PREALLOC,
                &range.to_bytes(),
                into,
            ),
        }
    }

    #[tactic(auto, unfolding(crate::specs::FileExtent::file_extent_head))]
    fn put(&self, kind: u8, content: &[u8], into: &mut [u8])
        requires kind { kind ≡ content_kind (content_value self.now.content) }
        requires content { content.now ≡ content_bytes (content_value self.now.content) }
        requires room { length into.old ≡ 21 + length content.now }
        ensures { into.new ≡ file_extent_bytes (file_extent_value self.now) }
    {
        put_fields(
            into,
            &[
                Field::U64(self.generation),
                Field::U64(self.ram_bytes),
                Field::U8(self.compression),
                Field::U8(self.encryption),
                Field::U16(self.other),
                Field::U8(kind),
                Field::Bytes(content),
            ],
        );
    }
}

/// The contents of a kind that are these bytes.
fn content_of(kind: u8, bytes: &[u8]) -> Option<ExtentContent<'_>>
    ensures { option_map content_value result ≡ content_of kind bytes.now }
{
    match kind {
        0 => Some(ExtentContent::Inline(bytes)),
        1 => Some(ExtentContent::Regular(DiskRange::read(bytes)?)),
        2 => Some(ExtentContent::Prealloc(DiskRange::read(bytes)?)),
        _ => None,
    }
}
