ghost use Rattle.convert_trees_laws.specs.Names.{NamesAreKept, NamesKeepRules};
ghost use Rattle.convert_trees_laws.specs.Rows.{InodesAreRead, RowsAreKept};

use crate::{entries_are_there, inodes_are_there};

/// The names of a tree with the items of the file tree keep the rules of a Btrfs tree.
pub fn names_keep_rules()
    ensures { NamesKeepRules }
{
    inodes_are_there();
    entries_are_there();
}

/// The paths of such a tree are those of the volume, and lead to the inodes of the same objects; the one entry beside them is that
/// of the saved image's tree.
pub fn names_are_kept()
    ensures { NamesAreKept }
{
    inodes_are_there();
    entries_are_there();
}

/// Over blocks of bytes below 256, the inode that is read of each object of the volume in such a tree is the one that was made of
/// its stat data.
pub fn inodes_are_read()
    ensures { InodesAreRead }
{
    inodes_are_there();
}

/// Over such blocks, the rows of the volume are the rows of such a tree, where that has the bytes of the files.
pub fn rows_are_kept()
    ensures { RowsAreKept }
{
    names_are_kept();
    inodes_are_read();
}
