ghost use Rattle.std.specs.Prelude.{◌≡◌, ◌≤◌, length};
ghost use Rattle.btr_space_items.specs.RootItem.{root_item_layout, root_item_of, root_item_bytes};

use btr_keys::btrfs_format::size::ROOT_ITEM_SIZE;
use btr_keys::{Field, Inode, Key, Stamp, array_at, put_fields, u32_at, u64_at};

/// The body of a root item, key (tree, 132, offset): 439 bytes, as the Btrfs on-disk format documentation has it. The
/// offset is 0, or the transaction that made a snapshot.
#[derive(Clone, Copy, Debug, PartialEq, Eq)]
pub struct RootItem {
    /// What the root would be as an inode; most of it is not used.
    pub inode: Inode,
    /// The transaction that wrote the tree's root node.
    pub generation: u64,
    /// The inode of the root directory of a file tree: 256; 0 in other trees.
    pub root_dirid: u64,
    /// The logical address of the tree's root node in bytes.
    pub bytenr: u64,
    /// Not used; 0.
    pub byte_limit: u64,
    /// The bytes of the tree's nodes.
    pub bytes_used: u64,
    /// The transaction of the last snapshot of the tree.
    pub last_snapshot: u64,
    /// Bit 0x1 for a subvolume that can't be written.
    pub flags: u64,
    /// 1 for a tree that is in use.
    pub refs: u32,
    /// How far a tree is deleted that is being deleted.
    pub drop_progress: Key,
    /// The level where its deletion stands.
    pub drop_level: u8,
    /// The level of the tree's root node.
    pub level: u8,
    /// The generation again, where the fields behind it are in use.
    pub generation_v2: u64,
    /// The subvolume's identifier.
    pub uuid: [u8; 16],
    /// The identifier of the subvolume that it is a snapshot of.
    pub parent_uuid: [u8; 16],
    /// The identifier that it was sent under.
    pub received_uuid: [u8; 16],
    /// The transaction that changed an inode of it last.
    pub ctransid: u64,
    /// The transaction that made it.
    pub otransid: u64,
    /// The transaction that it was sent in.
    pub stransid: u64,
    /// The transaction that it was received in.
    pub rtransid: u64,
    /// When an inode of it was last changed.
    pub ctime: Stamp,
    /// When it was made.
    pub otime: Stamp,
    /// When it was sent.
    pub stime: Stamp,
    /// When it was received.
    pub rtime: Stamp,
}

impl RootItem {
    /// The bytes of a root item.
    pub const SIZE: usize = ROOT_ITEM_SIZE;

    fn first(bytes: &[u8]) -> RootItem
        requires { 439 ≤ length bytes.now }
        ensures { result ≡ root_item_layout.read bytes.now }
    {
        RootItem {
            inode: Inode::at(bytes, 0),
            generation: u64_at(bytes, 160),
            root_dirid: u64_at(bytes, 168),
            bytenr: u64_at(bytes, 176),
            byte_limit: u64_at(bytes, 184),
            bytes_used: u64_at(bytes, 192),
            last_snapshot: u64_at(bytes, 200),
            flags: u64_at(bytes, 208),
            refs: u32_at(bytes, 216),
            drop_progress: Key::at(bytes, 220),
            drop_level: bytes[237],
            level: bytes[238],
            generation_v2: u64_at(bytes, 239),
            uuid: array_at(bytes, 247),
            parent_uuid: array_at(bytes, 263),
            received_uuid: array_at(bytes, 279),
            ctransid: u64_at(bytes, 295),
            otransid: u64_at(bytes, 303),
            stransid: u64_at(bytes, 311),
            rtransid: u64_at(bytes, 319),
            ctime: Stamp::at(bytes, 327),
            otime: Stamp::at(bytes, 339),
            stime: Stamp::at(bytes, 351),
            rtime: Stamp::at(bytes, 363),
        }
    }

    /// The root item that is the whole body; None exactly where the body has another length than 439 bytes. The 64 bytes
    /// that the format keeps for later are not looked at.
    pub fn read(body: &[u8]) -> Option<RootItem>
        ensures { result ≡ root_item_of body.now }
    {
        if body.len() == RootItem::SIZE {
            Some(RootItem::first(body))
        } else {
            None
        }
    }

    /// Writes the root item into the 439 bytes of a slice. The bytes that the format keeps for later become zeros.
    #[tactic(auto, unfolding(crate::specs::RootItem::root_item_layout))]
    pub fn write(&self, into: &mut [u8])
        requires { length into.old ≡ 439 }
        ensures { into.new ≡ root_item_bytes self.now }
    {
        let (uuid, parent_uuid, received_uuid) = (self.uuid, self.parent_uuid, self.received_uuid);
        put_fields(
            into,
            &[
                Field::Bytes(&self.inode.to_bytes()),
                Field::U64(self.generation),
                Field::U64(self.root_dirid),
                Field::U64(self.bytenr),
                Field::U64(self.byte_limit),
                Field::U64(self.bytes_used),
                Field::U64(self.last_snapshot),
                Field::U64(self.flags),
                Field::U32(self.refs),
                Field::Bytes(&self.drop_progress.to_bytes()),
                Field::U8(self.drop_level),
                Field::U8(self.level),
                Field::U64(self.generation_v2),
                Field::Bytes(&uuid),
                Field::Bytes(&parent_uuid),
                Field::Bytes(&received_uuid),
                Field::U64(self.ctransid),
                Field::U64(self.otransid),
                Field::U64(self.stransid),
                Field::U64(self.rtransid),
                Field::Bytes(&self.ctime.to_bytes()),
                Field::Bytes(&self.otime.to_bytes()),
                Field::Bytes(&self.stime.to_bytes()),
                Field::Bytes(&self.rtime.to_bytes()),
                Field::Zeros(64),
            ],
        );
    }
}
