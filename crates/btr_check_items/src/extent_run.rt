// The file extents of one inode, one after the other.
ghost use Rattle.std.specs.Prelude.{◌≡◌, ◌≤◌, ◌<◌, ◌+◌, ◌^◌, ◌++◌, ◌∷◌, [], List, IfSome, Some};
ghost use Rattle.std.specs.Bool.{Decides};
ghost use Rattle.std.specs.Option.{MatchOption};
ghost use Rattle.btr_check_rules.specs.btr_reader.btr_keys.FileExtent.{content_value, file_extent_of, file_extent_value};
ghost use Rattle.btr_check_rules.specs.btr_reader.btr_node.Leaf.{Item};
ghost use Rattle.btr_check_rules.specs.btr_reader.btr_reader_contents.Extents.{range_covers};
ghost use Rattle.btr_check_rules.specs.Files.{covered};
ghost use Rattle.btr_check_rules.specs.Inodes.{extent_nbytes};
ghost use Rattle.btr_check_items.specs.Runs.{AreCovering, AreKept, IsRunOf, TellsBytes, is_covered, is_told, next_end, whole_with};

use crate::extent_rules::{keeps_extent, may_have_extents};
use crate::run::ExtentRun;
use btr_check_rules::btr_reader::btr_reader_contents::is_hole;
use btr_check_rules::btr_reader::btr_reader_walk::btr_keys::btrfs_format::feature::NO_HOLES;
use btr_check_rules::btr_reader::btr_reader_walk::btr_keys::{
    DiskRange, ExtentContent, FileExtent, Inode,
};
use btr_check_rules::btr_reader::btr_super::Super;

/// How many bytes of its file an extent stands for: an inline one for whole blocks.
fn covered(e: &FileExtent<'_>) -> u128
    ensures exact { result ≡ covered e.now.ram_bytes (content_value e.now.content) }
    ensures bound { result < 2 ^ 65 }
{
    match &e.content {
        ExtentContent::Inline(_) => (e.ram_bytes as u128 + 4095) / 4096 * 4096,
        ExtentContent::Regular(d) => d.num_bytes as u128,
        ExtentContent::Prealloc(d) => d.num_bytes as u128,
    }
}

fn range_nbytes(d: &DiskRange) -> u64
    ensures exact { result ≡ range_covers d.now }
{
    if is_hole(d) { 0 } else { d.num_bytes }
}

/// How many bytes an extent adds to its inode's count.
fn nbytes(e: &FileExtent<'_>) -> u64
    ensures exact { result ≡ extent_nbytes e.now.ram_bytes (content_value e.now.content) }
    ensures few { result ≤ covered e.now.ram_bytes (content_value e.now.content) }
{
    match &e.content {
        ExtentContent::Inline(_) => e.ram_bytes,
        ExtentContent::Regular(d) => range_nbytes(d),
        ExtentContent::Prealloc(d) => range_nbytes(d),
    }
}

/// Where an extent ends in its file; None where it is not as Linux writes it, begins before the one before has ended, or ends
/// behind all files.
fn next_end(sup: &Super, inode: &Inode, end: u64, place: u64, e: &FileExtent<'_>) -> Option<u64>
    ensures exact { result ≡ next_end sup.now inode.now end place (file_extent_value e.now) }
    ensures behind { IfSome result (λ next. (end ≤ place) × (next ≡ place + covered e.now.ram_bytes (content_value e.now.content))) }
{
    let next = place as u128 + covered(e);
    if keeps_extent(sup, inode, place, e) && end <= place && next < 1 << 64 {
        Some(next as u64)
    } else {
        None
    }
}

/// Up to where all bytes are held, with those from a place to an end.
fn whole_with(whole: u64, place: u64, end: u64) -> u64
    ensures exact { result ≡ whole_with whole place end }
    ensures within { whole ≤ end → result ≤ end }
{
    if place == whole { end } else { whole }
}

/// Whether bytes from the begin on cover a file, or it may have holes, or has no extents or no name.
fn is_covered(sup: &Super, inode: &Inode, whole: u64) -> bool
    ensures { result ≡ is_covered sup.now inode.now whole }
{
    sup.incompat & NO_HOLES != 0
        || inode.nlink == 0
        || !may_have_extents(inode)
        || inode.size <= whole
}

/// Whether an inode tells so many bytes, or has no extents or no name.
fn is_told(inode: &Inode, nbytes: u64) -> bool
    ensures { result ≡ is_told inode.now nbytes }
{
    inode.nlink == 0 || !may_have_extents(inode) || inode.nbytes == nbytes
}

impl ExtentRun {
    /// No extents.
    pub fn new() -> ExtentRun
        ensures { IsRunOf [] result }
    {
        ExtentRun {
            end: 0,
            whole: 0,
            nbytes: 0,
        }
    }

    /// The extents with the next one; None where that is not as Linux writes it, or not behind those before.
    pub fn with(
        self,
        sup: &Super,
        inode: &Inode,
        place: u64,
        e: &FileExtent<'_>,
    ) -> Option<ExtentRun>
        ensures { (items : List Item) (i : Item) → i.0.offset ≡ place → file_extent_of i.1 ≡ Some (file_extent_value e.now) → AreKept sup.now inode.now items → IsRunOf items self
            → MatchOption result (¬ AreKept sup.now inode.now (items ++ i ∷ [])) (λ next. AreKept sup.now inode.now (items ++ i ∷ []) × IsRunOf (items ++ i ∷ []) next) }
    {
        match next_end(sup, inode, self.end, place, e) {
            Some(end) => Some(ExtentRun {
                end,
                whole: whole_with(self.whole, place, end),
                nbytes: self.nbytes + nbytes(e),
            }),
            None => None,
        }
    }

    /// Whether the extents cover the file where they have to: without the feature that allows holes, all of a file with
    /// names.
    pub fn covers(&self, sup: &Super, inode: &Inode) -> bool
        ensures { (items : List Item) → IsRunOf items self.now → Decides result (AreCovering sup.now inode.now items) }
    {
        is_covered(sup, inode, self.whole)
    }

    /// Whether the inode of the extents tells their bytes, if it is one with names that has some.
    pub fn has_nbytes(&self, inode: &Inode) -> bool
        ensures { (items : List Item) → IsRunOf items self.now → Decides result (TellsBytes inode.now items) }
    {
        is_told(inode, self.nbytes)
    }
}
