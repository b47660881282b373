// The bytes of files and symlinks that stay in the tree.
ghost use Rattle.std.specs.Prelude.{◌≡◌, ◌≤◌, ◌<◌, ◌&&◌, nat_le, length, IfOk, IfErr, IfSome};
ghost use Rattle.std.specs.Result.{MatchResult};
ghost use Rattle.indexmap.specs.IndexMap.{keys};
ghost use Rattle.reiser_volume.specs.reiser_volume_contents.Answers.{IsFileAnswer, IsFaultOrMemory};
ghost use Rattle.reiser_volume.specs.outside.Fault.{HasCauseOf};
ghost use Rattle.reiser_volume.specs.outside.History.{OverTold};
ghost use Rattle.reiser_volume_files.specs.Bytes.{tail_block};
ghost use Rattle.reiser_volume_files.specs.Runs.{block_from};
ghost use Rattle.reiser_volume_objects.specs.declared.key.ObjectKey.{ObjectKey as KeyOf};
ghost use Rattle.reiser_volume_objects.specs.Keys.{items_of};
ghost use Rattle.reiser_volume.specs.Inline.{stays_in_tree, is_tail};
ghost use Rattle.reiser_volume.specs.Made.{stat_at, kind_by};
ghost use Rattle.reiser_volume.specs.Opened.{IsOpened};
ghost use Rattle.reiser_volume.specs.Volume.{IsAccepted, volume_items};
ghost use Rattle.file_items.specs.Contents.{begins_in_tail, HoldsDirectBytes, HoldsInline};
ghost use Rattle.file_items.specs.Spots.{IsObjectAt};

use reiser_volume::{Block, BlockSource, Rule, VolAnswer, Volume, VolumeRefusal};
use reiser_volume_files::{FileMap, RunFrom};
use reiser_volume_objects::fs_rows::Kind;
use std::alloc::Global;

/// How many bytes an inline file has at most.
const INLINE_LIMIT: u64 = 2048;

/// How many bytes the target of a symlink has at most.
const TARGET_LIMIT: u64 = 3900;

/// How many bytes the object of this kind at a place has in the tree itself, which are put into a block; None where it is not
/// inline.
pub fn inlined<S: BlockSource>(
    alloc: Global,
    src: &mut S,
    volume: &Volume,
    place: usize,
    kind: Kind,
    inline: bool,
    into: &mut Block,
) -> Result<Option<usize>, VolAnswer>
    requires { place < length (keys volume.now.named) }
    ensures kept { S.kept src.old src.new }
    ensures cause { HasCauseOf VolAnswer.Fault (S.faults src.old) (S.faults src.new) result }
    ensures answers { IfErr result IsFileAnswer }
    ensures small { IfOk result (λ held. IfSome held (λ n. n ≤ 4096)) }
    ensures held { OverTold S.tells (S.blocks src.old) (λ image. IsAccepted image → IsOpened volume.now image → (key : KeyOf) → IsObjectAt volume.now place key → kind ≡ kind_by (stat_at (volume_items image) key)
        → MatchResult result (λ held. HoldsInline inline (items_of key (volume_items image)) (stat_at (volume_items image) key).fields.size kind held into.new.bytes) IsFaultOrMemory) }
{
    if is_inline(alloc, src, volume, place, kind, inline)? {
        let length = read_bytes(src, volume, place, into)?;
        Ok(Some(length))
    } else {
        Ok(None)
    }
}

/// Whether the object of this kind at a place stays in the tree.
fn is_inline<S: BlockSource>(
    alloc: Global,
    src: &mut S,
    volume: &Volume,
    place: usize,
    kind: Kind,
    inline: bool,
) -> Result<bool, VolAnswer>
    requires { place < length (keys volume.now.named) }
    ensures kept { S.kept src.old src.new }
    ensures cause { HasCauseOf VolAnswer.Fault (S.faults src.old) (S.faults src.new) result }
    ensures answers { IfErr result IsFileAnswer }
    ensures test { OverTold S.tells (S.blocks src.old) (λ image. IsAccepted image → IsOpened volume.now image → (key : KeyOf) → IsObjectAt volume.now place key
        → MatchResult result (λ test. test ≡ stays_in_tree inline (items_of key (volume_items image)) (stat_at (volume_items image) key).fields.size kind) IsFaultOrMemory) }
{
    match kind {
        Kind::Symlink => Ok(true),
        Kind::File => {
            if inline {
                is_inline_file(alloc, src, volume, place)
            } else {
                Ok(false)
            }
        }
        Kind::Directory
        | Kind::Character
        | Kind::Block
        | Kind::Fifo
        | Kind::Socket
        | Kind::Subvolume => Ok(false),
    }
}

/// Whether the file at a place is short, and its only block lies in direct items.
fn is_inline_file<S: BlockSource>(
    alloc: Global,
    src: &mut S,
    volume: &Volume,
    place: usize,
) -> Result<bool, VolAnswer>
    requires { place < length (keys volume.now.named) }
    ensures kept { S.kept src.old src.new }
    ensures cause { HasCauseOf VolAnswer.Fault (S.faults src.old) (S.faults src.new) result }
    ensures answers { IfErr result IsFileAnswer }
    ensures test { OverTold S.tells (S.blocks src.old) (λ image. IsAccepted image → IsOpened volume.now image → (key : KeyOf) → IsObjectAt volume.now place key
        → MatchResult result (λ test. test ≡ (nat_le (stat_at (volume_items image) key).fields.size 2048 && is_tail (block_from (items_of key (volume_items image)) (stat_at (volume_items image) key).fields.size 0))) IsFaultOrMemory) }
{
    if volume.stat(place).fields.size > INLINE_LIMIT {
        return Ok(false);
    }
    let map = volume.file_map(alloc, src, place)?;
    Ok(begins_in_tail(&map))
}

/// Whether the first blocks of a file that lie anywhere lie in direct items.
fn begins_in_tail(map: &FileMap) -> bool
    ensures { result ≡ begins_in_tail map.now }
{
    !map.is_empty() && map.get(0).from == RunFrom::Tail
}

/// Puts what direct items hold of the first block of an object into a block. How many bytes the object has.
fn read_bytes<S: BlockSource>(
    src: &mut S,
    volume: &Volume,
    place: usize,
    into: &mut Block,
) -> Result<usize, VolAnswer>
    requires { place < length (keys volume.now.named) }
    ensures kept { S.kept src.old src.new }
    ensures cause { HasCauseOf VolAnswer.Fault (S.faults src.old) (S.faults src.new) result }
    ensures answers { IfErr result IsFileAnswer }
    ensures small { IfOk result (λ n. n ≤ 3900) }
    ensures held { OverTold S.tells (S.blocks src.old) (λ image. IsAccepted image → IsOpened volume.now image → (key : KeyOf) → IsObjectAt volume.now place key → (stat_at (volume_items image) key).fields.size ≤ 3900
        → MatchResult result (λ n. HoldsDirectBytes (items_of key (volume_items image)) (stat_at (volume_items image) key).fields.size n into.new.bytes) IsFaultOrMemory) }
{
    let size = volume.stat(place).fields.size;
    if size > TARGET_LIMIT {
        return Err(changed(volume));
    }
    volume.tail(src, place, 0, into)?;
    Ok(size as usize)
}

/// What is answered where the volume reads otherwise than when it was opened.
fn changed(volume: &Volume) -> VolAnswer
    ensures { result ≡ VolAnswer.Refused (VolumeRefusal.Damaged volume.now.sup.root Rule.Reread) }
{
    VolAnswer::Refused(VolumeRefusal::Damaged {
        block: volume.sup().root,
        rule: Rule::Reread,
    })
}
