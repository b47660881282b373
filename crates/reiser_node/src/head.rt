ghost use Rattle.std.specs.Prelude.{◌≡◌, ◌≤◌, ◌+◌, length};
ghost use Rattle.reiser_node.specs.Head.{old_kind, new_kind, kind_at, head_at};

use reiserfs_format::key::{
    KEY_FORMAT_3_5, KEY_FORMAT_3_6, TYPE_DIRECT, TYPE_DIRENTRY, TYPE_INDIRECT, TYPE_STAT_DATA,
    V1_DIRECT_UNIQUENESS, V1_DIRENTRY_UNIQUENESS, V1_INDIRECT_UNIQUENESS, V1_SD_UNIQUENESS,
};
use reiserfs_format::size::IH_SIZE;
use vol_block::{u16_at, u32_at, u64_at};

/// What an item holds.
#[derive(Clone, Copy, Debug, PartialEq, Eq)]
pub enum ItemKind {
    /// The stat data of an object.
    Stat,
    /// The numbers of the blocks that hold a part of a file.
    Indirect,
    /// Bytes of a file or of a symlink's target.
    Direct,
    /// Entries of a directory.
    Directory,
}

/// The head of an item: its key, its version, its count and the length of its body, as ReiserFS 3.6 has it.
#[derive(Clone, Copy, Debug, PartialEq, Eq)]
pub struct ItemHead {
    /// The number of the directory that the object was made in (`dir_id`).
    pub dir: u32,
    /// The number of the object that the item belongs to.
    pub object: u32,
    /// Where the item's part of the object begins: one more than the first byte for the parts of a file, that of its
    /// first entry for a directory, 0 for stat data. Below 2^60.
    pub offset: u64,
    /// What the item holds.
    pub kind: ItemKind,
    /// Whether the item has version 0, the form of ReiserFS 3.5, and not version 1.
    pub old: bool,
    /// How many entries a directory item has. In other items it means nothing here.
    pub count: u16,
    /// The length of the item's body in bytes.
    pub length: u16,
}

/// The kind that a head of version 0 names by its 32 bits (`uniqueness`).
fn old_kind(code: u32) -> Option<ItemKind>
    ensures { result ≡ old_kind code }
{
    match code {
        V1_SD_UNIQUENESS => Some(ItemKind::Stat),
        V1_INDIRECT_UNIQUENESS => Some(ItemKind::Indirect),
        V1_DIRECT_UNIQUENESS => Some(ItemKind::Direct),
        V1_DIRENTRY_UNIQUENESS => Some(ItemKind::Directory),
        _ => None,
    }
}

/// The kind that a head of version 1 names by the high 4 bits of its offset and type.
fn new_kind(code: u64) -> Option<ItemKind>
    ensures { result ≡ new_kind code }
{
    match code {
        TYPE_STAT_DATA => Some(ItemKind::Stat),
        TYPE_INDIRECT => Some(ItemKind::Indirect),
        TYPE_DIRECT => Some(ItemKind::Direct),
        TYPE_DIRENTRY => Some(ItemKind::Directory),
        _ => None,
    }
}

/// The kind that the head from byte `at` on names, by its own version; None where its version is neither 0 nor 1, or
/// where its type is none of the four.
pub fn kind_at(bytes: &[u8], at: usize) -> Option<ItemKind>
    requires { at + IH_SIZE ≤ length bytes.now }
    ensures { result ≡ kind_at bytes.now at }
{
    match u16_at(bytes, at + 22) {
        KEY_FORMAT_3_5 => old_kind(u32_at(bytes, at + 12)),
        KEY_FORMAT_3_6 => new_kind(u64_at(bytes, at + 8) / (1 << 60)),
        _ => None,
    }
}

/// The head from byte `at` on, if its version and its kind are known.
pub fn head_at(bytes: &[u8], at: usize) -> Option<ItemHead>
    requires { at + IH_SIZE ≤ length bytes.now }
    ensures { result ≡ head_at bytes.now at }
{
    let Some(kind) = kind_at(bytes, at) else {
        return None;
    };
    let old = u16_at(bytes, at + 22) == KEY_FORMAT_3_5;
    let offset = if old {
        u32_at(bytes, at + 8) as u64
    } else {
        u64_at(bytes, at + 8) % (1 << 60)
    };
    Some(ItemHead {
        dir: u32_at(bytes, at),
        object: u32_at(bytes, at + 4),
        offset,
        kind,
        old,
        count: u16_at(bytes, at + 16),
        length: u16_at(bytes, at + 18),
    })
}
