// What Linux asks of the fields of an inode.
ghost use Rattle.std.specs.Prelude.{◌≡◌};
ghost use Rattle.std.specs.Bool.{Decides};
ghost use Rattle.btr_check_rules.specs.Inodes.{KeepsFields, entry_type, has_no_sums};
ghost use Rattle.btr_check_items.specs.Inodes.{fits_kind, fits_some_kind, is_recent, keeps_fields};

use btr_check_rules::btr_reader::btr_reader_names::kind_of_mode;
use btr_check_rules::btr_reader::btr_reader_walk::btr_keys::Inode;
use btr_check_rules::btr_reader::btr_reader_walk::btr_keys::btrfs_format::flag::{
    FT_BLKDEV, FT_CHRDEV, FT_DIR, FT_FIFO, FT_REG_FILE, FT_SOCK, FT_SYMLINK, INODE_APPEND,
    INODE_IMMUTABLE,
};
use btr_check_rules::btr_reader::btr_super::Super;
use btr_check_rules::btr_reader::fs_rows::Kind;

/// All flags but those that Linux knows: twelve, that of the inodes of the root tree, and that of fs-verity.
const OTHER_FLAGS: u64 = u64::MAX - ((1 << 12) - 1 + (1 << 31) + (1 << 32));

/// Whether the data of an inode has no checksums.
pub fn has_no_sums(inode: &Inode) -> bool
    ensures { result ≡ has_no_sums inode.now }
{
    inode.flags % 2 == 1
}

/// How an entry tells the kind of what it names.
pub fn entry_type(kind: Kind) -> u8
    ensures { result ≡ entry_type kind }
{
    match kind {
        Kind::File => FT_REG_FILE,
        Kind::Directory => FT_DIR,
        Kind::Symlink => FT_SYMLINK,
        Kind::Character => FT_CHRDEV,
        Kind::Block => FT_BLKDEV,
        Kind::Fifo => FT_FIFO,
        Kind::Socket => FT_SOCK,
        Kind::Subvolume => FT_DIR,
    }
}

/// Whether an inode of this kind may have these flags and so many links.
fn fits_kind(inode: &Inode, kind: Kind) -> bool
    ensures { result ≡ fits_kind inode.now kind }
{
    match kind {
        Kind::File => true,
        Kind::Symlink => !has_no_sums(inode) && inode.flags & (INODE_IMMUTABLE + INODE_APPEND) == 0,
        Kind::Directory => !has_no_sums(inode) && inode.nlink <= 1,
        _ => !has_no_sums(inode),
    }
}

/// Whether a generation is at most one newer than the superblock.
fn is_recent(sup: &Super, generation: u64) -> bool
    ensures { result ≡ is_recent sup.now generation }
{
    generation as u128 <= sup.generation as u128 + 1
}

/// The same of a kind that a mode tells, if it tells one.
fn fits_some_kind(inode: &Inode, kind: Option<Kind>) -> bool
    ensures { result ≡ fits_some_kind inode.now kind }
{
    match kind {
        Some(kind) => fits_kind(inode, kind),
        None => false,
    }
}

/// Whether Linux takes the fields of an inode.
pub fn keeps_fields(sup: &Super, inode: &Inode) -> bool
    ensures test { result ≡ keeps_fields sup.now inode.now }
    ensures fact { Decides result (KeepsFields sup.now inode.now) }
{
    inode.mode < 1 << 16
        && is_recent(sup, inode.generation)
        && is_recent(sup, inode.transid)
        && inode.flags & OTHER_FLAGS == 0
        && fits_some_kind(inode, kind_of_mode(inode.mode))
}
