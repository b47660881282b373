// Who owns a block, by a list of runs that ascend by their first blocks.
ghost use Rattle.std.specs.Prelude.{◌≡◌, ◌≤◌, ◌<◌, ◌-◌, length, Contains, None, Some, true};
ghost use Rattle.std.specs.List.Sorted.{IsPartitionPoint};
ghost use Rattle.std.specs.Option.{MatchOption};
ghost use Rattle.reiser_bitmap.specs.Next.{end_of_run};
ghost use Rattle.extent_pieces.specs.Owned.{TellOwners, holds_block, owner_in};
ghost use Rattle.extent_pieces.specs.Pieces.{Owners, advanced, is_owner};

use crate::run::OwnedRun;
use reiser_bitmap::BlockNo;

/// How many runs begin at block `b` or before.
fn begun(runs: &[OwnedRun], b: BlockNo) -> usize
    ensures bound { result ≤ length runs.now }
    ensures parts { (owner : Owners) → TellOwners runs.now owner → IsPartitionPoint (λ r. r.first ≤ b) (λ r. b < r.first) runs.now result }
{
    runs.partition_point(|run| run.first <= b)
}

/// The run that holds block `b`.
fn run_at(runs: &[OwnedRun], b: BlockNo) -> Option<OwnedRun>
    ensures holds { MatchOption result (Unit {0}) (λ r. holds_block b r ≡ true) }
    ensures owner { (owner : Owners) → TellOwners runs.now owner → MatchOption result (owner b ≡ None) (λ r. Contains runs.now r × (owner b ≡ Some (owner_in r b))) }
{
    let begun = begun(runs, b);
    if begun == 0 {
        return None;
    }
    let run = runs[begun - 1];
    if run.first <= b && b - run.first < run.count {
        Some(run)
    } else {
        None
    }
}

/// The inode that owns block `b`, and the block of the file that it holds.
pub fn owner_of(runs: &[OwnedRun], b: BlockNo) -> Option<(u64, u64)>
    ensures { (owner : Owners) → TellOwners runs.now owner → result ≡ owner b }
{
    match run_at(runs, b) {
        Some(run) => Some((run.inode, run.at.saturating_add(b - run.first))),
        None => None,
    }
}

/// Where the owner of block `b` ends, or where one begins if it has none; `end` where that is at `end` or behind it.
pub fn owner_end(runs: &[OwnedRun], b: BlockNo, end: BlockNo) -> BlockNo
    requires order { b < end }
    ensures some { b < result }
    ensures bound { result ≤ end }
    ensures end { (owner : Owners) → TellOwners runs.now owner → result ≡ end_of_run (λ c. is_owner (owner c) (advanced (owner b) (c - b))) b end }
{
    match run_at(runs, b) {
        Some(run) => end.min(run.first.saturating_add(run.count)),
        None => next_first(runs, b, end),
    }
}

/// Where the first run behind block `b` begins; `end` where there is none before it.
fn next_first(runs: &[OwnedRun], b: BlockNo, end: BlockNo) -> BlockNo
    requires order { b < end }
    ensures some { b < result }
    ensures bound { result ≤ end }
    ensures end { (owner : Owners) → TellOwners runs.now owner → owner b ≡ None → result ≡ end_of_run (λ c. is_owner (owner c) None) b end }
{
    let begun = begun(runs, b);
    if begun < runs.len() && runs[begun].first > b {
        end.min(runs[begun].first)
    } else {
        end
    }
}
