ghost use Rattle.std.specs.Prelude.{◌≡◌, ◌≤◌, ◌<◌, ◌+◌, ◌^◌, ◌∷◌, [], length, All, MatchOption};
ghost use Rattle.free_space.specs.Gaps.{free_items, gaps};
ghost use Rattle.free_space.specs.Stream.{ComesTo, FitsFree, free_ahead, standing};
ghost use Rattle.free_space.specs.Runs.{end_of};
ghost use Rattle.free_space.specs.Tree.{info_item, run_item};

use crate::info::FreeInfo;
use crate::range::{Range, UsedRanges};
use crate::rest::Rest;
use btr_node::Key;
use btr_node::btrfs_format::key::{FREE_SPACE_EXTENT, FREE_SPACE_INFO};

/// The items of the free space tree, one after the other, ascending by key.
///
/// It holds what is left of the block group in hand, and the groups that are still to come.
#[derive(Drop)]
pub struct FreeStream<'a, U: UsedRanges> {
    groups: &'a [Range],
    rest: Rest<U>,
    item: FreeItem,
}

/// An item of the free space tree.
#[derive(Clone, Copy)]
struct FreeItem {
    key: Key,
    /// The body of a block group's item; that of a run has no bytes.
    info: [u8; 8],
    width: usize,
}

impl<'a, U: UsedRanges> FreeStream<'a, U> {
    /// The items for these block groups, of which these ranges are in use.
    ///
    /// Groups end below 2^64, and there are fewer than 2^32 - 1 ranges. Where both ascend without overlaps, and each
    /// range in use lies in one group, the items tell the free space (`free_items_tell`).
    pub fn new(groups: &'a [Range], used: U) -> FreeStream<'a, U>
        requires live { U.is_live used }
        requires few { length (U.ahead used) + 1 < 2 ^ 32 }
        requires small { All (λ g. end_of g < 2 ^ 64) groups.now }
        ensures live { U.is_live result.rest.used }
        ensures fits { FitsFree result.groups.now (U.ahead result.rest.used) result.item }
        ensures all { free_ahead result.rest.at result.rest.end (U.ahead result.rest.used) result.groups.now ≡ free_items groups.now (U.ahead used) }
    {
        FreeStream {
            groups,
            rest: Rest {
                at: 0,
                end: 0,
                used,
            },
            item: FreeItem::of_run(Range {
                address: 0,
                length: 0,
            }),
        }
    }

    /// Goes to the next item, which stands then; false after the last one.
    pub fn advance(&mut self) -> bool
        requires live { U.is_live self.old.rest.used }
        requires fits { FitsFree self.old.groups.now (U.ahead self.old.rest.used) self.old.item }
        ensures live { U.is_live self.new.rest.used }
        ensures fits { FitsFree self.new.groups.now (U.ahead self.new.rest.used) self.new.item }
        ensures next { ComesTo result (free_ahead self.old.rest.at self.old.rest.end (U.ahead self.old.rest.used) self.old.groups.now) (standing self.new.item)
            (free_ahead self.new.rest.at self.new.rest.end (U.ahead self.new.rest.used) self.new.groups.now) }
    {
        if let Some(run) = self.rest.take_run() {
            self.item = FreeItem::of_run(run);
            return true;
        }
        let Some((group, after)) = first_and_rest(self.groups) else {
            return false;
        };
        self.groups = after;
        self.begin(group);
        true
    }

    /// Begins with a group.
    fn begin(&mut self, group: Range)
        requires live { U.is_live self.old.rest.used }
        requires few { length (U.ahead self.old.rest.used) + 1 < 2 ^ 32 }
        requires small { end_of group < 2 ^ 64 }
        ensures groups { self.new.groups ≡ self.old.groups }
        ensures used { self.new.rest.used ≡ self.old.rest.used }
        ensures at { self.new.rest.at ≡ group.address }
        ensures end { self.new.rest.end ≡ end_of group }
        ensures wide { self.new.item.width ≡ 8 }
        ensures item { standing self.new.item ≡ info_item group (length (gaps group.address (end_of group) (U.ahead self.old.rest.used))) }
    {
        self.rest.at = group.address;
        self.rest.end = group.address + group.length;
        let count = self.rest.count_runs();
        self.item = FreeItem::of_group(group, count);
    }

    /// The key of the item that stands.
    pub fn key(&self) -> Key
        ensures { result ≡ (standing self.now.item).0 }
    {
        self.item.key
    }

    /// The body of the item that stands.
    pub fn body(&self) -> &[u8]
        requires { self.now.item.width ≤ 8 }
        ensures { result.now ≡ (standing self.now.item).1 }
    {
        &self.item.info[..self.item.width]
    }
}

impl FreeItem {
    /// That of a block group with so many free runs.
    fn of_group(group: Range, count: u32) -> FreeItem
        ensures wide { result.width ≡ 8 }
        ensures item { standing result ≡ info_item group count }
    {
        let info = FreeInfo { count, flags: 0 };
        FreeItem {
            key: Key {
                objectid: group.address,
                kind: FREE_SPACE_INFO,
                offset: group.length,
            },
            info: info.to_bytes(),
            width: FreeInfo::SIZE,
        }
    }

    /// That of a free run.
    fn of_run(run: Range) -> FreeItem
        ensures wide { result.width ≡ 0 }
        ensures item { standing result ≡ run_item run }
    {
        FreeItem {
            key: Key {
                objectid: run.address,
                kind: FREE_SPACE_EXTENT,
                offset: run.length,
            },
            info: [0; 8],
            width: 0,
        }
    }
}

/// The first group, and those behind it.
fn first_and_rest(groups: &[Range]) -> Option<(Range, &[Range])>
    ensures { MatchOption result (groups.now ≡ []) (λ r. groups.now ≡ r.0 ∷ r.1.now) }
{
    let [group, after @ ..] = groups else {
        return None;
    };
    Some((*group, after))
}
