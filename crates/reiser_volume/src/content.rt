ghost use Rattle.std.specs.Prelude.{◌≡◌, List, ℕ, Some, IfErr};
ghost use Rattle.std.specs.Option.{MatchOption};
ghost use Rattle.std.specs.Result.{MatchResult};
ghost use Rattle.reiser_bitmap.specs.outside.Fault.{HasCauseOf};
ghost use Rattle.reiser_bitmap.specs.outside.History.{OverTold};
ghost use Rattle.fs_rows.specs.declared.row.Kind.TheVariants.{File, Symlink};
ghost use Rattle.reiser_volume_contents.specs.Answers.{IsFault, IsFaultOrMemory, IsFileAnswer, IsReadAnswer};
ghost use Rattle.fs_rows.specs.Content.{IsContent};
ghost use Rattle.reiser_volume.specs.Made.{IsKnownAt, IsOfVolume, bytes_at, stat_at};
ghost use Rattle.reiser_volume.specs.Marks.{IsKeptMark};
ghost use Rattle.reiser_volume.specs.Volume.{volume_items};

use crate::Volume;
use crate::row::{KnownObject, same_content};
use crate::rows::changed;
use fs_rows::{Content, Kind, Name, Row, no_content};
use reiser_bitmap::{BlockSource, VolAnswer};
use reiser_volume_contents::{file_mark, link_target};
use reiser_volume_objects::ObjectKey;
use std::alloc::Global;

/// What a row has of the bytes of an object. Where there is a row of the same object, it is what that row has.
pub fn content<S: BlockSource>(
    alloc: Global,
    src: &mut S,
    volume: &Volume,
    key: ObjectKey,
    known: &KnownObject,
    first: Option<&Row>,
    mark: Option<[u8; 32]>,
) -> Result<Content, VolAnswer>
    ensures kept { S.kept src.old src.new }
    ensures cause { HasCauseOf VolAnswer.Fault (S.faults src.old) (S.faults src.new) result }
    ensures answers { IfErr result IsFileAnswer }
    ensures content { OverTold S.tells (S.blocks src.old) (λ image. IsOfVolume image volume.now key → IsKnownAt (volume_items image) key known.now → IsKeptMark image key mark → (bytes : List ℕ) → bytes ≡ bytes_at image (volume_items image) key known.now.stat known.now.kind →
        MatchOption first.entry (Unit {0}) (λ row. IsContent known.now.kind bytes row.now.length row.now.mark row.now.target) →
        MatchResult result (λ c. IsContent known.now.kind bytes c.length c.mark c.target) IsFaultOrMemory) }
{
    match first {
        Some(row) => {
            let content = same_content(row)?;
            Ok(content)
        }
        None => read_content(alloc, src, volume, key, known, mark),
    }
}

/// Reads what a row has of the bytes of an object, but for a mark that is kept.
fn read_content<S: BlockSource>(
    alloc: Global,
    src: &mut S,
    volume: &Volume,
    key: ObjectKey,
    known: &KnownObject,
    mark: Option<[u8; 32]>,
) -> Result<Content, VolAnswer>
    ensures kept { S.kept src.old src.new }
    ensures cause { HasCauseOf VolAnswer.Fault (S.faults src.old) (S.faults src.new) result }
    ensures answers { IfErr result IsFileAnswer }
    ensures content { OverTold S.tells (S.blocks src.old) (λ image. IsOfVolume image volume.now key → IsKnownAt (volume_items image) key known.now → IsKeptMark image key mark →
        MatchResult result (λ c. IsContent known.now.kind (bytes_at image (volume_items image) key known.now.stat known.now.kind) c.length c.mark c.target) IsFaultOrMemory) }
{
    match known.kind {
        Kind::File => file_content(alloc, src, volume, key, known, mark),
        Kind::Symlink => link_content(alloc, src, volume, key, known),
        Kind::Directory
        | Kind::Character
        | Kind::Block
        | Kind::Fifo
        | Kind::Socket
        | Kind::Subvolume => {
            let content = no_content(alloc)?;
            Ok(content)
        }
    }
}

/// What a row has of a file.
fn file_content<S: BlockSource>(
    alloc: Global,
    src: &mut S,
    volume: &Volume,
    key: ObjectKey,
    known: &KnownObject,
    mark: Option<[u8; 32]>,
) -> Result<Content, VolAnswer>
    ensures kept { S.kept src.old src.new }
    ensures cause { HasCauseOf VolAnswer.Fault (S.faults src.old) (S.faults src.new) result }
    ensures answers { IfErr result IsFileAnswer }
    ensures content { OverTold S.tells (S.blocks src.old) (λ image. IsOfVolume image volume.now key → IsKnownAt (volume_items image) key known.now → IsKeptMark image key mark →
        MatchResult result (λ c. IsContent File (bytes_at image (volume_items image) key known.now.stat File) c.length c.mark c.target) IsFaultOrMemory) }
{
    let size = known.stat.fields.size;
    let mark = mark_of(src, volume, key, size, mark)?;
    Ok(Content {
        length: size,
        mark,
        target: Name::new(alloc, b"")?,
    })
}

/// The mark of a file: the one that is kept, or one that is made.
fn mark_of<S: BlockSource>(
    src: &mut S,
    volume: &Volume,
    key: ObjectKey,
    size: u64,
    mark: Option<[u8; 32]>,
) -> Result<[u8; 32], VolAnswer>
    ensures kept { S.kept src.old src.new }
    ensures cause { HasCauseOf VolAnswer.Fault (S.faults src.old) (S.faults src.new) result }
    ensures answers { IfErr result IsReadAnswer }
    ensures mark { OverTold S.tells (S.blocks src.old) (λ image. IsOfVolume image volume.now key → size ≡ (stat_at (volume_items image) key).fields.size → IsKeptMark image key mark →
        MatchResult result (λ mark. IsKeptMark image key (Some mark)) IsFault) }
{
    match mark {
        Some(mark) => Ok(mark),
        None => file_mark(src, &volume.objects, key, size),
    }
}

/// Reads the target of a symlink. That the target of a symlink of an opened volume has more than 4096 bytes cannot be.
fn link_content<S: BlockSource>(
    alloc: Global,
    src: &mut S,
    volume: &Volume,
    key: ObjectKey,
    known: &KnownObject,
) -> Result<Content, VolAnswer>
    ensures kept { S.kept src.old src.new }
    ensures cause { HasCauseOf VolAnswer.Fault (S.faults src.old) (S.faults src.new) result }
    ensures answers { IfErr result IsFileAnswer }
    ensures content { OverTold S.tells (S.blocks src.old) (λ image. IsOfVolume image volume.now key → IsKnownAt (volume_items image) key known.now → known.now.kind ≡ Symlink →
        MatchResult result (λ c. IsContent Symlink (bytes_at image (volume_items image) key known.now.stat Symlink) c.length c.mark c.target) IsFaultOrMemory) }
{
    let size = known.stat.fields.size;
    if size > 4096 {
        return Err(changed(known.stat.leaf));
    }
    let target = link_target(alloc, src, &volume.objects, key, size)?;
    Ok(Content {
        length: size,
        mark: [0; 32],
        target,
    })
}
