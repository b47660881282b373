// What a crash leaves of the blocks that wait for a sync.
ghost use Rattle.std.specs.Prelude.{◌≡◌, ◌≢◌, ◌<◌, ◌≤◌, ◌+◌, ◌*◌, ◌-◌, ℕ, [], ◌∷◌, ◌++◌, length, slice_index_or, take, OnOk};
ghost use Rattle.std.specs.Ordering.{nat_cmp};
ghost use Rattle.std.specs.BTreeMap.{get, keys, IsOrdered};
ghost use Rattle.outside.specs.History.{sector};
ghost use Rattle.outside_mem.specs.Choice.{written, by_number, number_for, numbers_for, torn_by};
ghost use Rattle.outside_mem.specs.Done.{calls_of};
ghost use Rattle.outside_mem.specs.Store.{bytes_at, chosen_or, torn_or};

use crate::store::Done;
use outside::Memory;
use outside::vol_block::{Block, BlockNo};
use std::collections::BTreeMap;

/// Gives the blocks of the undo map, in order, each one of its values by the number that the choice has for it.
pub fn choose(
    blocks: &mut BTreeMap<u64, Block>,
    undo: &BTreeMap<u64, Block>,
    calls: &[Done],
    choice: &[u32],
) -> Result<(), Memory>
    ensures chosen { OnOk result ((q : ℕ) → bytes_at blocks.new q
        ≡ chosen_or (bytes_at blocks.old q) (written (calls_of calls.now) q) (number_for (keys undo.now) choice.now q) (get nat_cmp undo.now q)) }
    ensures ordered { OnOk result (IsOrdered nat_cmp undo.now) }
{
    let mut numbers = choice.iter();
    for (n, synced) in undo {
        let number = numbers.next().copied().unwrap_or(0);
        blocks.insert(*n, chosen(synced, calls, *n, number))?;
    }
    Ok(())
}

/// The number of a value for each of the eight sectors of a block, which are 512 bytes each.
pub type SectorNumbers = [u32; 8];

/// Gives the blocks of the undo map, in order, each in its eight sectors what values of it have there, by the numbers that
/// the choice has for them.
pub fn choose_torn(
    blocks: &mut BTreeMap<u64, Block>,
    undo: &BTreeMap<u64, Block>,
    calls: &[Done],
    choice: &[SectorNumbers],
) -> Result<(), Memory>
    ensures chosen { OnOk result ((q : ℕ) → bytes_at blocks.new q
        ≡ torn_or (bytes_at blocks.old q) (written (calls_of calls.now) q) (numbers_for (keys undo.now) choice.now q) (get nat_cmp undo.now q)) }
    ensures ordered { OnOk result (IsOrdered nat_cmp undo.now) }
{
    let mut numbers = choice.iter();
    for (n, synced) in undo {
        let sectors = numbers.next().copied().unwrap_or([0; 8]);
        blocks.insert(*n, torn(synced, calls, *n, &sectors))?;
    }
    Ok(())
}

/// A block that has in each sector what its value of that number has there.
fn torn(synced: &Block, calls: &[Done], n: BlockNo, numbers: &SectorNumbers) -> Block
    ensures { result.bytes ≡ torn_by (synced.now.bytes ∷ written (calls_of calls.now) n) numbers.now }
{
    let mut block = Block::zero();
    for s in 0..8 {
        put_sector(&mut block, s, &chosen(synced, calls, n, numbers[s]));
    }
    block
}

/// Puts sector s of a block, as another block has it.
fn put_sector(block: &mut Block, s: usize, from: &Block)
    requires { s < 8 }
    ensures more { take ((s + 1) * 512) block.new.bytes ≡ take (s * 512) block.old.bytes ++ sector from.now.bytes s }
    ensures whole { length block.new.bytes ≡ 4096 }
{
    let at = s * 512;
    block.bytes[at..at + 512].copy_from_slice(&from.bytes[at..at + 512]);
}

/// The value of that number modulo the number of a block's values, of which 0 is the one at the last sync.
fn chosen(synced: &Block, calls: &[Done], n: BlockNo, number: u32) -> Block
    ensures { result.bytes ≡ by_number (synced.now.bytes ∷ written (calls_of calls.now) n) number }
{
    let waiting = count_written(calls, n);
    let value = u64::from(number) % (waiting + 1);
    if value == 0 {
        return *synced;
    }
    nth_newest(calls, n, waiting - value)
}

/// How often a block was written since the last sync.
fn count_written(calls: &[Done], n: BlockNo) -> u64
    ensures count { result ≡ length (written (calls_of calls.now) n) }
    ensures few { result ≤ length calls.now }
{
    let mut count = 0;
    let mut k = calls.len();
    while k > 0 {
        k -= 1;
        match &calls[k] {
            Done::Wrote(at, _) => {
                if *at == n {
                    count += 1;
                }
            }
            Done::Synced => return count,
        }
    }
    count
}

/// What was written to a block since the last sync, before so many newer writes to it.
fn nth_newest(calls: &[Done], n: BlockNo, newer: u64) -> Block
    requires { newer < length (written (calls_of calls.now) n) }
    ensures { result.bytes ≡ slice_index_or (written (calls_of calls.now) n) (length (written (calls_of calls.now) n) - 1 - newer) [] }
{
    let mut left = newer;
    let mut k = calls.len();
    while k > 0 {
        k -= 1;
        match &calls[k] {
            Done::Wrote(at, block) => {
                if *at == n {
                    if left == 0 {
                        return *block;
                    }
                    left -= 1;
                }
            }
            Done::Synced => unreachable!(),
        }
    }
    unreachable!()
}
