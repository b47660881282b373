ghost use Rattle.std.specs.Prelude.{◌≡◌, ◌<◌, length, replicate, None, IfOk, IfErr};
ghost use Rattle.std.specs.Result.{MatchResult};
ghost use Rattle.indexmap.specs.IndexMap.{keys};
ghost use Rattle.reiser_bitmap.specs.outside.Fault.{HasCauseOf};
ghost use Rattle.reiser_bitmap.specs.outside.History.{Image, OverTold};
ghost use Rattle.reiser_volume_contents.specs.Answers.{IsFaultOrMemory, IsFileAnswer};
ghost use Rattle.reiser_volume.specs.Marks.{AreKeptMarks, IsKeptMark};
ghost use Rattle.reiser_volume.specs.Opened.{IsOpened};
ghost use Rattle.reiser_volume.specs.Volume.{IsAccepted};

use crate::Volume;
use fs_rows::Kind;
use reiser_bitmap::{BlockNo, BlockSource, Memory, VolAnswer};
use reiser_volume_files::{FileMap, RunFrom};
use reiser_volume_objects::{ObjectKey, kind_of_mode};
use std::alloc::Global;

/// Marks that are kept of files, by the places of the named objects; None where none is kept.
pub type Marks = Vec<Option<[u8; 32]>>;

/// A file that has blocks on the disk, by its place among the named objects, and the first of these blocks.
#[derive(Clone, Copy, Debug)]
pub struct FileOnDisk {
    pub first: BlockNo,
    pub place: usize,
}

impl Volume {
    /// The marks of the files, made in the order in which their first blocks lie on the disk, which the source is told
    /// before; those of files that have none are made first, in the order of keys.
    ///
    /// It takes 33 bytes for each object, and while it makes them 16 for each file. A refusal names a block that the
    /// device has no more, or that reads otherwise than when the volume was opened.
    pub(crate) fn marks<S: BlockSource>(
        &self,
        alloc: Global,
        src: &mut S,
    ) -> Result<Marks, VolAnswer>
        ensures kept { S.kept src.old src.new }
        ensures cause { HasCauseOf VolAnswer.Fault (S.faults src.old) (S.faults src.new) result }
        ensures answers { IfErr result IsFileAnswer }
        ensures marks { OverTold S.tells (S.blocks src.old) (λ image. IsAccepted image → IsOpened self.now image →
            MatchResult result (λ marks. AreKeptMarks image (keys self.now.named) marks.items) IsFaultOrMemory) }
    {
        let mut marks = no_marks(alloc, self.count())?;
        let files = self.files_on_disk(alloc, src, &mut marks)?;
        self.put_marks(alloc, src, &files, &mut marks)?;
        Ok(marks)
    }

    /// Marks these files, one after the other.
    fn put_marks<S: BlockSource>(
        &self,
        alloc: Global,
        src: &mut S,
        files: &Vec<FileOnDisk>,
        marks: &mut Marks,
    ) -> Result<(), VolAnswer>
        ensures kept { S.kept src.old src.new }
        ensures cause { HasCauseOf VolAnswer.Fault (S.faults src.old) (S.faults src.new) result }
        ensures answers { IfErr result IsFileAnswer }
        ensures marks { OverTold S.tells (S.blocks src.old) (λ image. IsAccepted image → IsOpened self.now image → AreKeptMarks image (keys self.now.named) marks.old.items →
            MatchResult result (λ _. AreKeptMarks image (keys self.now.named) marks.new.items) IsFaultOrMemory) }
    {
        let mut told = 0;
        for i in 0..files.len() {
            told = self.tell_window(alloc, src, files, i, told)?;
            self.put_mark(src, files[i].place, marks)?;
        }
        Ok(())
    }

    /// The files that have blocks on the disk, in the order of the first ones. The other files are marked.
    fn files_on_disk<S: BlockSource>(
        &self,
        alloc: Global,
        src: &mut S,
        marks: &mut Marks,
    ) -> Result<Vec<FileOnDisk>, VolAnswer>
        ensures kept { S.kept src.old src.new }
        ensures cause { HasCauseOf VolAnswer.Fault (S.faults src.old) (S.faults src.new) result }
        ensures answers { IfErr result IsFileAnswer }
        ensures marks { OverTold S.tells (S.blocks src.old) (λ image. IsAccepted image → IsOpened self.now image → AreKeptMarks image (keys self.now.named) marks.old.items →
            MatchResult result (λ _. AreKeptMarks image (keys self.now.named) marks.new.items) IsFaultOrMemory) }
    {
        self.tell_leaves(alloc, src);
        let mut files = Vec::new(alloc);
        for place in 0..self.count() {
            self.find_file(alloc, src, place, &mut files, marks)?;
        }
        files.sort_unstable_by_key(|file| file.first);
        Ok(files)
    }

    /// Adds the object at a place if it is a file that has blocks on the disk; another file is marked.
    fn find_file<S: BlockSource>(
        &self,
        alloc: Global,
        src: &mut S,
        place: usize,
        files: &mut Vec<FileOnDisk>,
        marks: &mut Marks,
    ) -> Result<(), VolAnswer>
        requires { place < length (keys self.now.named) }
        ensures kept { S.kept src.old src.new }
        ensures cause { HasCauseOf VolAnswer.Fault (S.faults src.old) (S.faults src.new) result }
        ensures answers { IfErr result IsFileAnswer }
        ensures marks { OverTold S.tells (S.blocks src.old) (λ image. IsAccepted image → IsOpened self.now image → AreKeptMarks image (keys self.now.named) marks.old.items →
            MatchResult result (λ _. AreKeptMarks image (keys self.now.named) marks.new.items) IsFaultOrMemory) }
    {
        if kind_of_mode(self.stat(place).fields.mode) != Some(Kind::File) {
            return Ok(());
        }
        let map = self.map_for_hint(alloc, src, place)?;
        match first_block(&map) {
            Some(first) => Ok(add_file(files, FileOnDisk { first, place })?),
            None => self.put_mark(src, place, marks),
        }
    }

    /// Marks the file at a place, if there is one.
    fn put_mark<S: BlockSource>(
        &self,
        src: &mut S,
        place: usize,
        marks: &mut Marks,
    ) -> Result<(), VolAnswer>
        ensures kept { S.kept src.old src.new }
        ensures cause { HasCauseOf VolAnswer.Fault (S.faults src.old) (S.faults src.new) result }
        ensures answers { IfErr result IsFileAnswer }
        ensures marks { OverTold S.tells (S.blocks src.old) (λ image. IsAccepted image → IsOpened self.now image → AreKeptMarks image (keys self.now.named) marks.old.items →
            MatchResult result (λ _. AreKeptMarks image (keys self.now.named) marks.new.items) IsFaultOrMemory) }
    {
        if place >= self.count() || place >= marks.len() {
            return Ok(());
        }
        let mark = self.file_mark(src, place)?;
        marks[place] = Some(mark);
        Ok(())
    }

    /// The mark that is kept of an object.
    pub(crate) fn kept_mark(&self, marks: &Marks, key: ObjectKey) -> Option<[u8; 32]>
        ensures { (image : Image) → AreKeptMarks image (keys self.now.named) marks.now.items → IsKeptMark image key result }
    {
        let place = self.index_of(key)?;
        if place < marks.len() {
            marks[place]
        } else {
            None
        }
    }
}

/// No mark is kept of so many objects.
fn no_marks(alloc: Global, count: usize) -> Result<Marks, Memory>
    ensures { IfOk result (λ marks. marks.items ≡ replicate count None) }
{
    let mut marks = Vec::new(alloc);
    marks.resize(count, None)?;
    Ok(marks)
}

/// Adds a file.
fn add_file(files: &mut Vec<FileOnDisk>, file: FileOnDisk) -> Result<(), Memory> {
    files.push(file)?;
    Ok(())
}

/// The first block of a file that lies on the disk.
fn first_block(map: &FileMap) -> Option<BlockNo> {
    for i in 0..map.len() {
        if let RunFrom::Disk(first) = map.get(i).from {
            return Some(first);
        }
    }
    None
}
