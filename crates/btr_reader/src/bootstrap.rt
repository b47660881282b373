ghost use Rattle.std.specs.Prelude.{◌≡◌, ◌≤◌, ◌++◌, ◌∷◌, [], length, drop, Some, OnOk, IfErr, IfOk, IfSome};
ghost use Rattle.btr_reader.specs.Chunks.{front_chunk, entry_size, array_chunks};
ghost use Rattle.btr_reader.specs.Opening.{IsBadArray, NamesNoLogTree};

use crate::chunk::{ChunkAt, is_chunk_key};
use crate::refusal::refused;
use btr_reader_walk::{BtrAnswer, BtrRule, Key, Memory, u16_at};
use btr_space_items::btrfs_format::block::SUPER_INFO_OFFSET;
use btr_space_items::btrfs_format::size::{CHUNK_HEAD_SIZE, KEY_SIZE, STRIPE_SIZE};
use std::alloc::Global;

/// How many bytes the entry takes that a bootstrap array begins with.
fn entry_size(bytes: &[u8]) -> usize
    requires { 97 ≤ length bytes.now }
    ensures { result ≡ entry_size bytes.now }
{
    KEY_SIZE + (CHUNK_HEAD_SIZE + STRIPE_SIZE * u16_at(bytes, 61) as usize)
}

/// What stands behind the entry that a bootstrap array begins with.
fn behind_entry(bytes: &[u8]) -> &[u8]
    requires long { 97 ≤ length bytes.now }
    requires whole { entry_size bytes.now ≤ length bytes.now }
    ensures { result.now ≡ drop (entry_size bytes.now) bytes.now }
{
    &bytes[entry_size(bytes)..]
}

/// The chunk that a bootstrap array begins with; None where it begins with none.
fn front_chunk(bytes: &[u8]) -> Option<ChunkAt>
    ensures value { result ≡ front_chunk bytes.now }
    ensures whole { IfSome result (λ _. entry_size bytes.now ≤ length bytes.now) }
    ensures long { IfSome result (λ _. 97 ≤ length bytes.now) }
{
    if bytes.len() < KEY_SIZE + CHUNK_HEAD_SIZE + STRIPE_SIZE {
        return None;
    }
    let key = Key::at(bytes, 0);
    let size = entry_size(bytes);
    if !is_chunk_key(&key) || size > bytes.len() {
        return None;
    }
    ChunkAt::read(key.offset, &bytes[KEY_SIZE..size])
}

/// The chunks of a bootstrap array.
pub fn array_chunks(alloc: Global, array: &[u8]) -> Result<Vec<ChunkAt>, BtrAnswer>
    ensures ok { IfOk result (λ chunks. array_chunks array.now ≡ Some chunks.items) }
    ensures err { IfErr result (IsBadArray (array_chunks array.now)) }
    ensures known { IfErr result NamesNoLogTree }
{
    let mut chunks = Vec::new(alloc);
    let mut rest = array;
    while !rest.is_empty() {
        let Some(c) = front_chunk(rest) else {
            return Err(refused(SUPER_INFO_OFFSET, BtrRule::ChunkForm));
        };
        push_chunk(&mut chunks, c)?;
        rest = behind_entry(rest);
    }
    Ok(chunks)
}

fn push_chunk(chunks: &mut Vec<ChunkAt>, c: ChunkAt) -> Result<(), Memory>
    ensures { OnOk result (chunks.new.items ≡ chunks.old.items ++ c ∷ []) }
{
    chunks.push(c)?;
    Ok(())
}
