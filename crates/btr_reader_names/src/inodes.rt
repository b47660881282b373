ghost use Rattle.std.specs.Prelude.{◌≡◌};
ghost use Rattle.btr_reader_names.specs.Inodes.{kind_of_mode};

use btr_reader_walk::Inode;
use btr_reader_walk::vol_block::{DT_BLK, DT_CHR, DT_DIR, DT_FIFO, DT_LNK, DT_REG, DT_SOCK};
use fs_paths::fs_rows::Kind;

/// An inode item: the leaf that it stands in, and the inode; None where its body is off the grammar.
#[derive(Clone, Copy, Debug)]
pub struct InodeFound {
    pub leaf: u64,
    pub inode: Option<Inode>,
}

/// What the high four of the low sixteen bits of a mode say; None where they are no kind.
pub fn kind_of_mode(mode: u32) -> Option<Kind>
    ensures { result ≡ kind_of_mode mode }
{
    match mode / 4096 % 16 {
        DT_DIR => Some(Kind::Directory),
        DT_REG => Some(Kind::File),
        DT_LNK => Some(Kind::Symlink),
        DT_CHR => Some(Kind::Character),
        DT_BLK => Some(Kind::Block),
        DT_FIFO => Some(Kind::Fifo),
        DT_SOCK => Some(Kind::Socket),
        _ => None,
    }
}
