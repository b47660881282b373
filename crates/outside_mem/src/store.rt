// Blocks in maps: those that reads give, and of the blocks written since the start what they were then.
ghost use Rattle.std.specs.Prelude.{◌≡◌, ◌≢◌, ℕ, ◌++◌, [], ◌∷◌, true, false, filter, length, OnOk, OnErr};
ghost use Rattle.outside_mem.specs.Done.{is_not_write};
ghost use Rattle.outside_mem.specs.Store.{bytes_at, undone_at, has_key};

use outside::Memory;
use outside::vol_block::{Block, BlockNo};
use std::collections::BTreeMap;

/// A block that stands in no map is zeros.
pub fn block_of(blocks: &BTreeMap<u64, Block>, n: BlockNo) -> Block
    ensures { result.bytes ≡ bytes_at blocks.now n }
{
    match blocks.get(&n) {
        Some(block) => *block,
        None => Block::zero(),
    }
}

/// Gives a block a place in the map, so that it can be replaced with no memory.
fn hold(present: &mut BTreeMap<u64, Block>, n: BlockNo) -> Result<(), Memory>
    ensures same { (q : ℕ) → bytes_at present.new q ≡ bytes_at present.old q }
    ensures held { OnOk result (has_key present.new n ≡ true) }
{
    if !present.contains_key(&n) && present.insert(n, Block::zero()).is_err() {
        return Err(Memory);
    }
    Ok(())
}

/// Replaces a block that has a place in the map.
fn replace(present: &mut BTreeMap<u64, Block>, n: BlockNo, block: &Block)
    requires { has_key present.old n ≡ true }
    ensures here { bytes_at present.new n ≡ block.now.bytes }
    ensures others { (q : ℕ) → q ≢ n → bytes_at present.new q ≡ bytes_at present.old q }
{
    if present.insert(n, *block).is_err() {
        unreachable!();
    }
}

/// Keeps what a block is before its first write.
fn keep(
    undo: &mut BTreeMap<u64, Block>,
    present: &BTreeMap<u64, Block>,
    n: BlockNo,
) -> Result<(), Memory>
    ensures same { (q : ℕ) → undone_at undo.new present.now q ≡ undone_at undo.old present.now q }
    ensures kept { OnOk result (has_key undo.new n ≡ true) }
    ensures others { OnOk result ((q : ℕ) → q ≢ n → has_key undo.new q ≡ has_key undo.old q) }
    ensures err { OnErr result ((q : ℕ) → has_key undo.new q ≡ has_key undo.old q) }
{
    if !undo.contains_key(&n) {
        let before = block_of(present, n);
        if undo.insert(n, before).is_err() {
            return Err(Memory);
        }
    }
    Ok(())
}

/// Puts a block, and keeps what it was before.
fn put(
    first: &mut BTreeMap<u64, Block>,
    unsynced: &mut BTreeMap<u64, Block>,
    present: &mut BTreeMap<u64, Block>,
    n: BlockNo,
    block: &Block,
) -> Result<(), Memory>
    ensures started { (q : ℕ) → undone_at first.new present.new q ≡ undone_at first.old present.old q }
    ensures synced { (q : ℕ) → undone_at unsynced.new present.new q ≡ undone_at unsynced.old present.old q }
    ensures kept { OnOk result (has_key unsynced.new n ≡ true) }
    ensures kept_others { OnOk result ((q : ℕ) → q ≢ n → has_key unsynced.new q ≡ has_key unsynced.old q) }
    ensures kept_err { OnErr result ((q : ℕ) → has_key unsynced.new q ≡ has_key unsynced.old q) }
    ensures here { OnOk result (bytes_at present.new n ≡ block.now.bytes) }
    ensures others { OnOk result ((q : ℕ) → q ≢ n → bytes_at present.new q ≡ bytes_at present.old q) }
    ensures err { OnErr result ((q : ℕ) → bytes_at present.new q ≡ bytes_at present.old q) }
{
    hold(present, n)?;
    keep(first, present, n)?;
    keep(unsynced, present, n)?;
    replace(present, n, block);
    Ok(())
}

/// A call that changed a disk.
#[derive(Drop)]
pub enum Done {
    /// A write of these bytes to a block that landed.
    Wrote(BlockNo, Block),
    /// A sync that succeeded.
    Synced,
}

/// Puts a block and adds the write to the record, or leaves both as they were.
pub fn put_recorded(
    calls: &mut Vec<Done>,
    first: &mut BTreeMap<u64, Block>,
    unsynced: &mut BTreeMap<u64, Block>,
    present: &mut BTreeMap<u64, Block>,
    n: BlockNo,
    block: &Block,
) -> Result<(), Memory>
    ensures recorded { OnOk result (calls.new.items ≡ calls.old.items ++ Done.Wrote n block.now ∷ []) }
    ensures whole { length block.now.bytes ≡ 4096 }
    ensures started { (q : ℕ) → undone_at first.new present.new q ≡ undone_at first.old present.old q }
    ensures synced { (q : ℕ) → undone_at unsynced.new present.new q ≡ undone_at unsynced.old present.old q }
    ensures kept { OnOk result (has_key unsynced.new n ≡ true) }
    ensures kept_others { OnOk result ((q : ℕ) → q ≢ n → has_key unsynced.new q ≡ has_key unsynced.old q) }
    ensures kept_err { OnErr result ((q : ℕ) → has_key unsynced.new q ≡ has_key unsynced.old q) }
    ensures here { OnOk result (bytes_at present.new n ≡ block.now.bytes) }
    ensures others { OnOk result ((q : ℕ) → q ≢ n → bytes_at present.new q ≡ bytes_at present.old q) }
    ensures err { OnErr result ((q : ℕ) → bytes_at present.new q ≡ bytes_at present.old q) }
    ensures not_recorded { OnErr result (calls.new.items ≡ calls.old.items) }
{
    let bytes = block.bytes;
    if calls.push(Done::Wrote(n, Block { bytes })).is_err() {
        return Err(Memory);
    }
    match put(first, unsynced, present, n, block) {
        Ok(()) => Ok(()),
        Err(Memory) => {
            calls.pop();
            Err(Memory)
        }
    }
}

fn is_not_write_to(done: &Done, n: BlockNo) -> bool
    ensures { result ≡ is_not_write n done.now }
{
    match done {
        Done::Wrote(at, _) => *at != n,
        Done::Synced => true,
    }
}

/// Drops the writes to a block.
fn drop_block(calls: &mut Vec<Done>, n: BlockNo)
    ensures { calls.new.items ≡ filter (is_not_write n) calls.old.items }
{
    calls.retain(|done| is_not_write_to(done, n));
}

/// Gives a block these bytes as if it had had them from the start, or leaves all as it was.
pub fn reset(
    calls: &mut Vec<Done>,
    first: &mut BTreeMap<u64, Block>,
    unsynced: &mut BTreeMap<u64, Block>,
    present: &mut BTreeMap<u64, Block>,
    n: BlockNo,
    block: &Block,
) -> Result<(), Memory>
    ensures dropped { OnOk result (calls.new.items ≡ filter (is_not_write n) calls.old.items) }
    ensures whole { length block.now.bytes ≡ 4096 }
    ensures started { OnOk result (undone_at first.new present.new n ≡ block.now.bytes) }
    ensures started_others { OnOk result ((q : ℕ) → q ≢ n → undone_at first.new present.new q ≡ undone_at first.old present.old q) }
    ensures synced { OnOk result (undone_at unsynced.new present.new n ≡ block.now.bytes) }
    ensures synced_others { OnOk result ((q : ℕ) → q ≢ n → undone_at unsynced.new present.new q ≡ undone_at unsynced.old present.old q) }
    ensures not_kept { OnOk result (has_key unsynced.new n ≡ false) }
    ensures kept_others { OnOk result ((q : ℕ) → q ≢ n → has_key unsynced.new q ≡ has_key unsynced.old q) }
    ensures kept_err { OnErr result ((q : ℕ) → has_key unsynced.new q ≡ has_key unsynced.old q) }
    ensures here { OnOk result (bytes_at present.new n ≡ block.now.bytes) }
    ensures others { OnOk result ((q : ℕ) → q ≢ n → bytes_at present.new q ≡ bytes_at present.old q) }
    ensures err { OnErr result ((q : ℕ) → bytes_at present.new q ≡ bytes_at present.old q) }
    ensures started_err { OnErr result ((q : ℕ) → undone_at first.new present.new q ≡ undone_at first.old present.old q) }
    ensures synced_err { OnErr result ((q : ℕ) → undone_at unsynced.new present.new q ≡ undone_at unsynced.old present.old q) }
    ensures not_dropped { OnErr result (calls.new.items ≡ calls.old.items) }
{
    let bytes = block.bytes;
    if present.insert(n, Block { bytes }).is_err() {
        return Err(Memory);
    }
    first.remove(&n);
    unsynced.remove(&n);
    drop_block(calls, n);
    Ok(())
}
