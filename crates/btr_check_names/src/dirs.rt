// Directories and those that they stand in.
ghost use Rattle.std.specs.Prelude.{◌≡◌, List, length, replicate, All, IfOk, None};
ghost use Rattle.std.specs.Option.{MatchOption};
ghost use Rattle.btr_check_rules.specs.Inodes.{ComesToEnd};
ghost use Rattle.btr_check_rules.specs.Names.{IndexEntry, index_entries};
ghost use Rattle.btr_check_rules.specs.Recount.{TreeOn};
ghost use Rattle.btr_check_names.specs.Inodes.{AreAbove, AscendByNumber, IsNamedOnce, StandIn};

use crate::inodes::{InodeAt, place_of};
use crate::name_list::NameList;
use crate::rings::ring;
use crate::table::names_inode;
use btr_check_rules::btr_reader::btr_reader_walk::Memory;
use std::alloc::Global;

/// The number of a directory that stands below itself, if there is one among these, which are all in which entries stand,
/// and each of which one entry names at most. It takes 24 bytes for each.
pub fn ring_of(alloc: Global, dirs: &[InodeAt], list: &NameList) -> Result<Option<u64>, Memory>
    requires { AscendByNumber dirs.now }
    ensures { IfOk result (λ o. (t : TreeOn) → index_entries t ≡ list.now → StandIn dirs.now list.now → IsNamedOnce dirs.now list.now
        → MatchOption o (All (λ d. ComesToEnd t d.ino) dirs.now) (λ ino. ¬ ComesToEnd t ino)) }
{
    let above = above_of(alloc, dirs, list)?;
    match ring(alloc, above.as_slice())? {
        Some(i) => Ok(Some(dirs[i].ino)),
        None => Ok(None),
    }
}

/// Of each directory the place of the one that it stands in, by the entries.
fn above_of(alloc: Global, dirs: &[InodeAt], list: &NameList) -> Result<Vec<Option<usize>>, Memory>
    requires { AscendByNumber dirs.now }
    ensures { IfOk result (λ above. AreAbove dirs.now list.now above.items) }
{
    let mut above = none_above(alloc, dirs.len())?;
    for i in 0..list.len() {
        let head = list.head(i);
        if names_inode(&head.location) {
            if let Some(to) = place_of(dirs, head.location.objectid) {
                above[to] = place_of(dirs, head.dir);
            }
        }
    }
    Ok(above)
}

/// So many directories that are not known to stand in another one.
fn none_above(alloc: Global, count: usize) -> Result<Vec<Option<usize>>, Memory>
    ensures { IfOk result (λ above. above.items ≡ replicate count None) }
{
    let mut above = Vec::new(alloc);
    above.resize(count, None)?;
    Ok(above)
}
