ghost use Rattle.std.specs.Prelude.{◌≡◌};
ghost use Rattle.reiser_volume_objects.specs.Kinds.{kind_of_mode, is_directory_mode};

use fs_paths::fs_rows::Kind;
use reiser_bitmap::vol_block::{DT_BLK, DT_CHR, DT_DIR, DT_FIFO, DT_LNK, DT_REG, DT_SOCK};

/// The kind that the high four bits of a mode name.
pub fn kind_of_mode(mode: u16) -> Option<Kind>
    ensures { result ≡ kind_of_mode mode }
{
    match (mode / 4096) as u32 {
        DT_DIR => Some(Kind::Directory),
        DT_REG => Some(Kind::File),
        DT_LNK => Some(Kind::Symlink),
        DT_CHR => Some(Kind::Character),
        DT_BLK => Some(Kind::Block),
        DT_FIFO => Some(Kind::Fifo),
        DT_SOCK => Some(Kind::Socket),
        _ => None,
    }
}

/// Whether a mode is that of a directory.
pub fn is_directory_mode(mode: u16) -> bool
    ensures { result ≡ is_directory_mode mode }
{
    (mode / 4096) as u32 == DT_DIR
}
