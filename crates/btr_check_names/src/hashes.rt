// The names of a tree by their hashes.
ghost use Rattle.std.specs.Prelude.{◌≡◌, ◌≤◌, true, false, length, filter, slice_range, IfOk};
ghost use Rattle.std.specs.List.Sorted.{IsPartitionPoint, IsPermutation};
ghost use Rattle.std.specs.Ordering.{is_lt, is_le, nat_cmp};
ghost use Rattle.btr_check_names.specs.Hashes.{AscendByHash, has_hash, hashes_from};

use crate::name_list::NameList;
use btr_check_rules::btr_reader::btr_reader_walk::Memory;
use castagnoli::extref_hash;
use std::alloc::Global;
use std::marker::Model;

/// The hash of a name in its directory, and the number of its entry.
#[derive(Clone, Copy, Debug)]
pub struct HashAt {
    pub hash: u32,
    pub number: u32,
}

/// Numbers of entries by the hashes of their names. Each takes 8 bytes.
#[derive(Drop)]
pub struct HashIndex {
    keys: Vec<HashAt>,
}

impl Model for HashIndex {
    ghost use Rattle.std.specs.Prelude.{List};
    ghost use Rattle.btr_check_names.specs.Hashes.{AscendByHash};
    ghost use Rattle.btr_check_names.specs.declared.hashes.HashAt.{HashAt as HashOf};

    ghost Value = { List HashOf };

    ghost view = { λ i. i.keys.items };

    ghost invariant = { λ i. AscendByHash i.keys.items };
}

impl HashIndex {
    /// The entries of a list by their hashes. There is no memory for more than 2^32 of them.
    pub fn of(alloc: Global, list: &NameList) -> Result<HashIndex, Memory>
        ensures { IfOk result (λ index. IsPermutation (hashes_from 0 list.now) index) }
    {
        let mut keys = hashes_of(alloc, list)?;
        keys.sort_unstable_by_key(|k| k.hash);
        Ok(HashIndex { keys })
    }

    /// Those of a hash.
    pub fn under(&self, hash: u32) -> &[HashAt]
        ensures { result.now ≡ filter (has_hash hash) self.now }
    {
        under(&self.keys, hash)
    }
}

/// A number of 32 bits.
fn number_of(i: usize) -> Result<u32, Memory>
    ensures { IfOk result (λ number. number ≡ i) }
{
    if i < 1 << 32 {
        Ok(i as u32)
    } else {
        Err(Memory)
    }
}

/// The hashes of the entries of a list, in their order.
fn hashes_of(alloc: Global, list: &NameList) -> Result<Vec<HashAt>, Memory>
    ensures { IfOk result (λ keys. keys.items ≡ hashes_from 0 list.now) }
{
    let mut keys = Vec::new(alloc);
    keys.reserve_exact(list.len())?;
    for i in 0..list.len() {
        let hash = extref_hash(list.head(i).dir, list.name(i));
        keys.push(HashAt {
            hash,
            number: number_of(i)?,
        })?;
    }
    Ok(keys)
}

/// Those of a hash, out of keys that ascend by it.
fn under(keys: &[HashAt], hash: u32) -> &[HashAt]
    requires { AscendByHash keys.now }
    ensures { result.now ≡ filter (has_hash hash) keys.now }
{
    let (first, end) = bounds_of(keys, hash);
    &keys[first..end]
}

/// Where it begins and ends.
fn bounds_of(keys: &[HashAt], hash: u32) -> (usize, usize)
    requires { AscendByHash keys.now }
    ensures ordered { result.0 ≤ result.1 }
    ensures within { result.1 ≤ length keys.now }
    ensures between { slice_range keys.now result.0 result.1 ≡ filter (has_hash hash) keys.now }
{
    (first_of(keys, hash), end_of(keys, hash))
}

/// The place of the first one of a hash, or where it would stand.
fn first_of(keys: &[HashAt], hash: u32) -> usize
    requires { AscendByHash keys.now }
    ensures within { result ≤ length keys.now }
    ensures parts { IsPartitionPoint (λ k. is_lt (nat_cmp k.hash hash) ≡ true) (λ k. is_lt (nat_cmp k.hash hash) ≡ false) keys.now result }
{
    keys.partition_point(|k| k.hash < hash)
}

/// The place behind the last one of a hash.
fn end_of(keys: &[HashAt], hash: u32) -> usize
    requires { AscendByHash keys.now }
    ensures within { result ≤ length keys.now }
    ensures parts { IsPartitionPoint (λ k. is_le (nat_cmp k.hash hash) ≡ true) (λ k. is_le (nat_cmp k.hash hash) ≡ false) keys.now result }
{
    keys.partition_point(|k| k.hash <= hash)
}
