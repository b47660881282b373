/// What of a volume is not supported. Each variant's number is the one that a refusal prints.
#[derive(Clone, Copy, Debug, PartialEq, Eq)]
pub enum Feature {
    /// The superblock magic of ReiserFS 3.5; the value is 35.
    OldMagic = 1,
    /// A block size of ReiserFS other than 4096 bytes; the value is the size.
    BlockSize = 2,
    /// A ReiserFS journal on another device; the value is the device's number.
    JournalDevice = 3,
    /// A ReiserFS volume marked as damaged by its checker; the value is the state.
    FsState = 4,
    /// More than 2^29 blocks; the value is their number.
    BlockCount = 5,
    /// Incompatible features of Btrfs that are not read; the value is their bits.
    Incompat = 11,
    /// A kind of checksum that is not known; the value is its number.
    ChecksumType = 12,
    /// A sector size of Btrfs other than 4096 bytes; the value is the size.
    SectorSize = 13,
    /// A node size of Btrfs that is none of the five from 4 KiB to 64 KiB; the value is the size.
    NodeSize = 14,
    /// More or fewer devices than one; the value is their number.
    DeviceCount = 15,
    /// A chunk with a profile other than single, or with more stripes than one; the value is the field's.
    ChunkType = 16,
    /// A compressed file extent; the value is the kind of compression.
    Compression = 17,
    /// An encrypted file extent; the value is the kind of encryption.
    Encryption = 18,
    /// The generation of a Btrfs volume has no number above it; the value is the generation. No refusal has it yet.
    Generation = 19,
}

/// The rule of the ReiserFS format that a volume breaks. Each variant's number is the one that a refusal prints.
#[derive(Clone, Copy, Debug, PartialEq, Eq)]
pub enum Rule {
    /// A field of the superblock is out of its bounds.
    SuperField = 1,
    /// A block of the superblock, the bitmaps or the journal is marked free.
    SystemFree = 2,
    /// A node has a wrong level or a wrong number of items.
    NodeHead = 3,
    /// The parts of a node do not fit together.
    Layout = 4,
    /// An item's key is not above that of the item before.
    KeyOrder = 5,
    /// A block that is marked free is pointed to.
    BlockFree = 6,
    /// A pointer leaves the volume.
    BlockRange = 7,
    /// A block is reached twice, or is a system block.
    BlockTwice = 8,
    /// An item's body is off its grammar.
    Body = 9,
    /// A directory's entry is off its grammar.
    EntryForm = 10,
    /// An object has no attributes, an unknown kind, or items that its kind does not have.
    ObjectForm = 11,
    /// Two items of an object hold one byte.
    Overlap = 12,
    /// A directory has one name twice.
    NameTwice = 13,
    /// A directory is named twice, or the root is named.
    DirTwice = 14,
    /// A size, or the number of an object's names, is out of its range.
    SizeRange = 15,
    /// A block reads otherwise than before: the device changed in between.
    Reread = 16,
}

/// The rule of the Btrfs format that a volume breaks. Each variant's number is the one that a refusal prints.
#[derive(Clone, Copy, Debug, PartialEq, Eq)]
pub enum BtrRule {
    /// The checksum of the superblock.
    SuperCsum = 1,
    /// A field of the superblock is out of its bounds.
    SuperField = 2,
    /// A chunk is off its grammar, overlaps another or leaves the device.
    ChunkForm = 3,
    /// An address lies in no chunk.
    Unmapped = 4,
    /// The checksum of a node.
    NodeCsum = 5,
    /// A node's address, file system, owner, level, generation or count is not what its parent names.
    NodeHead = 6,
    /// The parts of a node do not fit together.
    NodeLayout = 7,
    /// Keys do not ascend.
    KeyOrder = 8,
    /// An item's body is off its grammar.
    Body = 9,
    /// An entry names an inode or a tree that is not there.
    NoInode = 10,
    /// A name that no directory may have, or one name twice.
    NameForm = 11,
    /// File extents overlap, are not aligned, or leave their disk extent.
    ExtentForm = 12,
    /// A directory is named twice.
    DirTwice = 13,
}
