// Which nodes were met, by the blocks where they begin.
ghost use Rattle.std.specs.Prelude.{◌≡◌, ◌≤◌, ◌<◌, ◌+◌, ◌-◌, ◌^◌, ◌==◌, ◌&&◌, ℕ, leb, true, false, if◌then◌else◌, [], All, AllPairs, length, replicate, slice_index_or, Some, None, is_some, IfOk, IfSome};
ghost use Rattle.std.specs.List.Sorted.{IsPartitionPoint};
ghost use Rattle.std.specs.Option.{MatchOption};
ghost use Rattle.btr_check_rules.specs.Places.{EndsBefore};
ghost use Rattle.btr_check_references.specs.NodeMaps.{state_at};
ghost use Rattle.btr_check_references.specs.NodeRanges.{AreRangesOf, IsOwned, IsRangeBefore, block_count, first_block, first_state, is_unowned, slot_in};

use crate::node_state::{NodeRange, NodeState};
use crate::node_table::NodeMap;
use btr_check_rules::Span;
use btr_check_rules::btr_reader::btr_reader_walk::Memory;
use std::alloc::Global;

/// How many blocks have addresses of 64 bits.
const BLOCKS: u64 = 1 << 52;

impl NodeMap {
    /// No node was met, in any of these ranges of addresses, which ascend and are apart.
    pub fn new(alloc: Global, spans: &[Span]) -> Result<NodeMap, Memory>
        requires { AllPairs EndsBefore spans.now }
        ensures { IfOk result (λ map. (b : ℕ) → state_at map b ≡ first_state spans.now b) }
    {
        let (ranges, total) = node_ranges(alloc, spans)?;
        let states = unmet(alloc, total)?;
        Ok(NodeMap { ranges, states })
    }

    /// What is known of a block; None where it may hold no nodes.
    pub fn state(&self, block: u64) -> Option<NodeState>
        ensures { result ≡ state_at self.now block }
    {
        match slot_of(self.ranges.as_slice(), block) {
            Some(slot) => Some(self.states[slot]),
            None => None,
        }
    }

    /// Notes what is known of a block that may hold nodes.
    pub fn set(&mut self, block: u64, state: NodeState)
        ensures { (b : ℕ) → state_at self.new b ≡ (if (b == block) && is_some (state_at self.old b) then Some state else state_at self.old b) }
    {
        if let Some(slot) = slot_of(self.ranges.as_slice(), block) {
            self.states[slot] = state;
        }
    }

    /// A block where a node begins that was not met in the tree of its owner; None where there is none.
    pub fn unowned(&self) -> Option<u64>
        ensures { MatchOption result ((b : ℕ) → IsOwned (state_at self.now b)) (λ b. (b < 2 ^ 52) × ¬ IsOwned (state_at self.now b)) }
    {
        for range in self.ranges.iter() {
            if let Some(i) = unowned_in(self.states.as_slice(), range) {
                return Some(range.first + i);
            }
        }
        None
    }
}

/// The ranges of blocks of these ranges of addresses, and how many states they have.
fn node_ranges(alloc: Global, spans: &[Span]) -> Result<(Vec<NodeRange>, usize), Memory>
    ensures { IfOk result (λ r. AreRangesOf spans.now r.0.items r.1) }
{
    let mut ranges = Vec::new(alloc);
    let mut total = 0;
    for span in spans {
        let range = range_at(span, total);
        total = more(total, range.count)?;
        ranges.push(range)?;
    }
    Ok((ranges, total))
}

/// The blocks of a range of addresses, whose states begin there.
fn range_at(span: &Span, slot: usize) -> NodeRange
    ensures blocks { (result.first ≡ first_block span.now) × (result.count ≡ block_count span.now) }
    ensures slot { result.slot ≡ slot }
    ensures low { result.first + result.count ≤ 2 ^ 52 }
{
    let first = span.start / 4096;
    NodeRange {
        first,
        count: (span.length / 4096).min(BLOCKS - first),
        slot,
    }
}

/// So many states, and some more.
fn more(total: usize, count: u64) -> Result<usize, Memory>
    ensures { IfOk result (λ sum. sum ≡ total + count) }
{
    total.checked_add(count as usize).ok_or(Memory)
}

/// So many states of blocks where no node was met.
fn unmet(alloc: Global, count: usize) -> Result<Vec<NodeState>, Memory>
    ensures { IfOk result (λ states. states.items ≡ replicate count NodeState.Unmet) }
{
    let mut states = Vec::new(alloc);
    states.reserve_exact(count)?;
    states.resize(count, NodeState::Unmet)?;
    Ok(states)
}

/// How many ranges begin at a block or before.
fn begun(ranges: &[NodeRange], block: u64) -> usize
    requires { AllPairs IsRangeBefore ranges.now }
    ensures within { result ≤ length ranges.now }
    ensures parts { IsPartitionPoint (λ r. leb r.first block ≡ true) (λ r. leb r.first block ≡ false) ranges.now result }
{
    ranges.partition_point(|range| range.first <= block)
}

/// Where the state of a block stands. Only the last range that begins there or before can hold it.
fn slot_of(ranges: &[NodeRange], block: u64) -> Option<usize>
    requires apart { AllPairs IsRangeBefore ranges.now }
    requires small { All (λ r. r.slot + r.count < 2 ^ 64) ranges.now }
    ensures { result ≡ slot_in ranges.now block }
{
    let begun = begun(ranges, block);
    if begun == 0 {
        return None;
    }
    let range = &ranges[begun - 1];
    if range.first <= block && block - range.first < range.count {
        Some(range.slot + (block - range.first) as usize)
    } else {
        None
    }
}

/// The number of a block of a range where a node begins that was not met in the tree of its owner.
fn unowned_in(states: &[NodeState], range: &NodeRange) -> Option<u64>
    requires { range.now.slot + range.now.count ≤ length states.now }
    ensures { MatchOption result ((i : ℕ) → i < range.now.count → is_unowned (slice_index_or states.now (range.now.slot + i) NodeState.Unmet) ≡ false)
        (λ i. (i < range.now.count) × (is_unowned (slice_index_or states.now (range.now.slot + i) NodeState.Unmet) ≡ true)) }
{
    for i in 0..range.count {
        if is_unowned(states[range.slot + i as usize]) {
            return Some(i);
        }
    }
    None
}

/// Whether a node begins at a block with this state that was not met in the tree of its owner.
fn is_unowned(state: NodeState) -> bool
    ensures { result ≡ is_unowned state }
{
    matches!(state, NodeState::Met { owned: false, .. })
}
