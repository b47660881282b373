ghost use Rattle.std.specs.Prelude.{◌≡◌, ◌≤◌, ◌<◌, ℕ, List, [], map, take, length, slice_get, slice_index_or, Some, IfOk, IfErr};
ghost use Rattle.std.specs.Option.{MatchOption};
ghost use Rattle.std.specs.Result.{MatchResult};
ghost use Rattle.indexmap.specs.IndexMap.{keys};
ghost use Rattle.reiser_bitmap.specs.outside.Fault.{HasCauseOf};
ghost use Rattle.reiser_bitmap.specs.outside.History.{Image, OverTold};
ghost use Rattle.reiser_bitmap.specs.refusals.declared.answer.VolAnswer.TheVariants.{Refused};
ghost use Rattle.reiser_bitmap.specs.refusals.declared.refusal.VolumeRefusal.TheVariants.{Damaged};
ghost use Rattle.reiser_bitmap.specs.refusals.declared.rule.Rule.TheVariants.{Reread};
ghost use Rattle.fs_rows.specs.Rows.{WholeRow, row_of};
ghost use Rattle.fs_paths.specs.declared.node_link.PathTo.{PathTo as PathOf};
ghost use Rattle.reiser_volume_contents.specs.Answers.{IsFileAnswer, IsFaultOrMemory};
ghost use Rattle.reiser_volume.specs.Made.{IsKnownAt, IsOfVolume, whole_row};
ghost use Rattle.reiser_volume.specs.Marks.{AreKeptMarks};
ghost use Rattle.reiser_volume.specs.Opened.{IsOpened};
ghost use Rattle.reiser_volume.specs.Volume.{AreRowsOf, IsAccepted, volume_items};
ghost use Rattle.reiser_volume_objects.specs.Nodes.{key_at};
ghost use Rattle.reiser_volume.specs.Ways.{HasPaths};

use crate::Volume;
use crate::content::content;
use crate::marks::Marks;
use crate::row::{KnownObject, make_row};
use crate::ways::paths_of;
use fs_paths::PathTo;
use fs_rows::{Row, RowPlace, Rows};
use reiser_bitmap::{BlockNo, BlockSource, Memory, Rule, VolAnswer, VolumeRefusal};
use reiser_volume_objects::{ObjectKey, key_at, kind_of_mode};
use std::alloc::Global;

impl Volume {
    /// The rows of the volume: one for each path, ascending.
    ///
    /// The blocks of each file are read once, however many names it has, and files in the order in which they begin on the
    /// disk. A refusal names a block
    /// that the device has no more, or that reads otherwise than when the volume was opened.
    pub fn rows<S: BlockSource>(&self, alloc: Global, src: &mut S) -> Result<Rows, VolAnswer>
        ensures kept { S.kept src.old src.new }
        ensures cause { HasCauseOf VolAnswer.Fault (S.faults src.old) (S.faults src.new) result }
        ensures answers { IfErr result IsFileAnswer }
        ensures rows { OverTold S.tells (S.blocks src.old) (λ image. IsAccepted image → IsOpened self.now image →
            MatchResult result (λ rows. (whole : List WholeRow) × AreRowsOf image whole × (rows ≡ map row_of whole)) IsFaultOrMemory) }
    {
        let paths = paths_of(alloc, self)?;
        let marks = self.marks(alloc, src)?;
        rows_at(alloc, src, self, &paths, &marks)
    }
}

/// The rows at these paths.
fn rows_at<S: BlockSource>(
    alloc: Global,
    src: &mut S,
    volume: &Volume,
    paths: &Vec<PathTo>,
    marks: &Marks,
) -> Result<Rows, VolAnswer>
    ensures kept { S.kept src.old src.new }
    ensures cause { HasCauseOf VolAnswer.Fault (S.faults src.old) (S.faults src.new) result }
    ensures answers { IfErr result IsFileAnswer }
    ensures rows { OverTold S.tells (S.blocks src.old) (λ image. IsAccepted image → IsOpened volume.now image → HasPaths volume.now paths.now.items → AreKeptMarks image (keys volume.now.named) marks.now.items →
        MatchResult result (λ rows. rows ≡ map (λ p. row_of (whole_row image paths.now.items p)) paths.now.items) IsFaultOrMemory) }
{
    let mut rows = Rows::new(alloc);
    for i in 0..paths.len() {
        let row = row_at(alloc, src, volume, &paths[i], &rows, marks)?;
        rows.add(row)?;
    }
    Ok(rows)
}

/// The row at a path, behind those of the paths before it.
fn row_at<S: BlockSource>(
    alloc: Global,
    src: &mut S,
    volume: &Volume,
    path: &PathTo,
    rows: &Rows,
    marks: &Marks,
) -> Result<Row, VolAnswer>
    ensures kept { S.kept src.old src.new }
    ensures cause { HasCauseOf VolAnswer.Fault (S.faults src.old) (S.faults src.new) result }
    ensures answers { IfErr result IsFileAnswer }
    ensures row { OverTold S.tells (S.blocks src.old) (λ image. IsAccepted image → IsOpened volume.now image → AreKeptMarks image (keys volume.now.named) marks.now.items → (list : List PathOf) → HasPaths volume.now list → (i : ℕ) → slice_get list i ≡ Some path.now →
        rows.now ≡ map (λ p. row_of (whole_row image list p)) (take i list) →
        MatchResult result (λ row. row ≡ row_of (whole_row image list path.now)) IsFaultOrMemory) }
{
    let key = key_at(path.target);
    let known = known(volume, key)?;
    let first = first_row(rows, path);
    let mark = volume.kept_mark(marks, key);
    let content = content(alloc, src, volume, key, &known, first, mark)?;
    let spot = spot(path, first)?;
    Ok(make_row(spot, volume.sup.flags, &known, content))
}

/// The row of the first path to the same object, if it is an earlier one.
fn first_row<'a>(rows: &'a Rows, path: &PathTo) -> Option<&'a Row>
    ensures { MatchOption result (length rows.now ≤ path.now.least) (λ row. slice_get rows.now path.now.least ≡ Some row.now) }
{
    if path.least < rows.len() {
        Some(rows.get(path.least))
    } else {
        None
    }
}

/// Where a row stands, with the row of the first path to the same object if that is an earlier one.
fn spot(path: &PathTo, first: Option<&Row>) -> Result<RowPlace, Memory>
    ensures path { IfOk result (λ spot. spot.path ≡ path.now.path) }
    ensures names { IfOk result (λ spot. spot.names ≡ path.now.names) }
    ensures least { IfOk result (λ spot. MatchOption first.entry (spot.least ≡ path.now.path) (λ row. spot.least ≡ row.now.path)) }
{
    let least = match first {
        Some(row) => row.path.clone()?,
        None => path.path.clone()?,
    };
    Ok(RowPlace {
        path: path.path.clone()?,
        least,
        names: path.names,
    })
}

/// The stat data of an object. That a named object of an opened volume has none, or one of no kind, cannot be.
fn known(volume: &Volume, key: ObjectKey) -> Result<KnownObject, VolAnswer>
    ensures answers { IfErr result IsFileAnswer }
    ensures cause { (before : ℕ) → HasCauseOf VolAnswer.Fault before before result }
    ensures known { (image : Image) → IsOfVolume image volume.now key → MatchResult result (IsKnownAt (volume_items image) key) (λ _. ⊥) }
{
    let Some(stat) = volume.objects.stat(key) else {
        return Err(changed(volume.sup.root));
    };
    let Some(kind) = kind_of_mode(stat.fields.mode) else {
        return Err(changed(stat.leaf));
    };
    Ok(KnownObject { stat, kind })
}

/// What is answered where a block reads otherwise than when the volume was opened.
pub fn changed(block: BlockNo) -> VolAnswer
    ensures { result ≡ Refused (Damaged block Reread) }
{
    VolAnswer::Refused(VolumeRefusal::Damaged {
        block,
        rule: Rule::Reread,
    })
}
