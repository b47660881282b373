ghost use Rattle.std.specs.Prelude.{◌≡◌, ◌+◌, ◌≤◌, length};
ghost use Rattle.btr_keys.specs.Inode.{inode_layout, inode_at, inode_of, inode_bytes};

use crate::body::exactly;
use crate::stamp::Stamp;
use vol_block::btrfs_format::size::INODE_ITEM_SIZE;
use vol_block::{Field, put_fields, u32_at, u64_at};

/// The body of an inode item, key (inode, 1, 0): 160 bytes, as the Btrfs on-disk format documentation has it.
#[derive(Clone, Copy, Debug, PartialEq, Eq)]
pub struct Inode {
    /// The transaction that made the inode.
    pub generation: u64,
    /// The transaction that changed it last.
    pub transid: u64,
    /// Bytes of a file or of a symlink's target; twice the bytes of all names of a directory.
    pub size: u64,
    /// Bytes of the file's regular extents, or of its inline contents.
    pub nbytes: u64,
    /// Not used any more.
    pub block_group: u64,
    /// How many names the inode has.
    pub nlink: u32,
    /// The owner.
    pub uid: u32,
    /// The owner's group.
    pub gid: u32,
    /// The kind and the permissions, as `stat` has them.
    pub mode: u32,
    /// The number of a character or block device: major · 2^20 + minor.
    pub rdev: u64,
    /// Bits such as 0x1 for data without checksums and 0x40 for an immutable file.
    pub flags: u64,
    /// A count of changes.
    pub sequence: u64,
    /// When the contents were last read.
    pub atime: Stamp,
    /// When the inode was last changed.
    pub ctime: Stamp,
    /// When the contents were last changed.
    pub mtime: Stamp,
    /// When the inode was made.
    pub otime: Stamp,
}

impl Inode {
    /// The bytes of an inode.
    pub const SIZE: usize = INODE_ITEM_SIZE;

    /// The inode in the 160 bytes from byte `at` on. The 32 bytes that the format keeps for later are not looked at.
    pub fn at(bytes: &[u8], at: usize) -> Inode
        requires { at + 160 ≤ length bytes.now }
        ensures { result ≡ inode_at bytes.now at }
    {
        Inode::first(&bytes[at..])
    }

    fn first(bytes: &[u8]) -> Inode
        requires { 160 ≤ length bytes.now }
        ensures { result ≡ inode_layout.read bytes.now }
    {
        Inode {
            generation: u64_at(bytes, 0),
            transid: u64_at(bytes, 8),
            size: u64_at(bytes, 16),
            nbytes: u64_at(bytes, 24),
            block_group: u64_at(bytes, 32),
            nlink: u32_at(bytes, 40),
            uid: u32_at(bytes, 44),
            gid: u32_at(bytes, 48),
            mode: u32_at(bytes, 52),
            rdev: u64_at(bytes, 56),
            flags: u64_at(bytes, 64),
            sequence: u64_at(bytes, 72),
            atime: Stamp::at(bytes, 112),
            ctime: Stamp::at(bytes, 124),
            mtime: Stamp::at(bytes, 136),
            otime: Stamp::at(bytes, 148),
        }
    }

    /// The inode that is the whole body; None exactly where the body has another length than 160 bytes.
    pub fn read(body: &[u8]) -> Option<Inode>
        ensures { result ≡ inode_of body.now }
    {
        Some(Inode::first(exactly(body, Inode::SIZE)?))
    }

    /// Writes the inode into the 160 bytes of a slice. The bytes that the format keeps for later become zeros.
    #[tactic(auto, unfolding(crate::specs::Inode::inode_layout))]
    pub fn write(&self, into: &mut [u8])
        requires { length into.old ≡ 160 }
        ensures { into.new ≡ inode_bytes self.now }
    {
        put_fields(
            into,
            &[
                Field::U64(self.generation),
                Field::U64(self.transid),
                Field::U64(self.size),
                Field::U64(self.nbytes),
                Field::U64(self.block_group),
                Field::U32(self.nlink),
                Field::U32(self.uid),
                Field::U32(self.gid),
                Field::U32(self.mode),
                Field::U64(self.rdev),
                Field::U64(self.flags),
                Field::U64(self.sequence),
                Field::Zeros(32),
                Field::Bytes(&self.atime.to_bytes()),
                Field::Bytes(&self.ctime.to_bytes()),
                Field::Bytes(&self.mtime.to_bytes()),
                Field::Bytes(&self.otime.to_bytes()),
            ],
        );
    }

    /// The 160 bytes of the inode.
    pub fn to_bytes(&self) -> [u8; 160]
        ensures { result ≡ inode_bytes self.now }
    {
        let mut bytes = [0; 160];
        self.write(&mut bytes);
        bytes
    }
}
