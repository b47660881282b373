// What is written is read again: each law is the contract of a function that does nothing. They speak of values that fit
// their fields, as every value of the types does; a name has at most 65,535 bytes.
ghost use Rattle.btr_keys.specs.Laws.{
  KeysReadBack,
  StampsReadBack,
  InodesReadBack,
  InodeRefsReadBack,
  ExtrefsReadBack,
  DirItemsReadBack,
  DiskRangesReadBack,
  FileExtentsReadBack,
};

/// The bytes of a key read as that key.
pub fn keys_read_back()
    ensures { KeysReadBack }
{}

/// The bytes of a time read as that time.
pub fn stamps_read_back()
    ensures { StampsReadBack }
{}

/// The bytes of an inode read as that inode.
pub fn inodes_read_back()
    ensures { InodesReadBack }
{}

/// The bytes of one or more names of an inode, one after the other, read as these names.
pub fn inode_refs_read_back()
    ensures { InodeRefsReadBack }
{}

/// The bytes of one or more extrefs, one after the other, read as these.
pub fn extrefs_read_back()
    ensures { ExtrefsReadBack }
{}

/// The bytes of one or more entries of a directory, one after the other, read as these entries.
pub fn dir_items_read_back()
    ensures { DirItemsReadBack }
{}

/// The bytes of a disk range read as that range.
pub fn disk_ranges_read_back()
    ensures { DiskRangesReadBack }
{}

/// The bytes of a file extent read as that extent.
pub fn file_extents_read_back()
    ensures { FileExtentsReadBack }
{}
