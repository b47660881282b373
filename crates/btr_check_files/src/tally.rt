use btr_check_items::ExtentRun;
use btr_check_rules::btr_reader::btr_reader_walk::btr_keys::Inode;
use btr_check_rules::btr_reader::fs_rows::Kind;

/// An inode of a file tree, and what was met of it.
#[derive(Clone, Copy, Debug)]
pub struct Tally {
    pub inode: Inode,
    /// What its mode says.
    pub kind: Kind,
    /// How many names its references tell; the largest number where there are more.
    pub names: u64,
    /// How many letters the names of its entries have; the largest number where there are more.
    pub letters: u64,
    pub extents: ExtentRun,
}
