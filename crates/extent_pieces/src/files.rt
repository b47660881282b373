// What the files and symlinks of a volume have: runs of owned blocks, tails, and bytes that stay in the tree.
ghost use Rattle.std.specs.Prelude.{◌≡◌, ◌<◌, ◌+◌, ◌^◌, All, Some, length, slice_get, take, OnOk, IfErr};
ghost use Rattle.std.specs.Result.{MatchResult};
ghost use Rattle.indexmap.specs.IndexMap.{keys};
ghost use Rattle.reiser_bitmap.specs.outside.Fault.{HasCauseOf};
ghost use Rattle.reiser_bitmap.specs.outside.History.{Image, OverTold};
ghost use Rattle.reiser_volume.specs.reiser_volume_contents.Answers.{IsFileAnswer, IsFaultOrMemory};
ghost use Rattle.reiser_volume_objects.specs.declared.key.ObjectKey.{ObjectKey as KeyOf};
ghost use Rattle.reiser_volume.specs.Made.{kind_by, stat_at};
ghost use Rattle.reiser_volume.specs.Opened.{IsOpened};
ghost use Rattle.reiser_volume.specs.Volume.{IsAccepted, volume_items};
ghost use Rattle.extent_pieces.specs.Parts.{AreParts, Gathers, Gains, adds_file, adds_run, adds_tails, adds_inline, is_tail_alone};

use crate::parts::FileParts;
use crate::run::OwnedRun;
use crate::tail::Tail;
use reiser_bitmap::{BlockSource, Memory, VolAnswer};
use reiser_volume::Volume;
use reiser_volume_files::{FileMap, FileRun, RunFrom};
use reiser_volume_objects::fs_rows::Kind;
use reiser_volume_objects::kind_of_mode;
use std::alloc::Global;

/// The most bytes of a file that stay in the tree.
const INLINE_SIZE: u64 = 2048;

impl FileParts {
    /// Reads the map of each file once. Short files that have no block stay in the tree where `inline` says so.
    pub fn read<S: BlockSource>(
        alloc: Global,
        src: &mut S,
        volume: &Volume,
        inline: bool,
    ) -> Result<FileParts, VolAnswer>
        ensures kept { S.kept src.old src.new }
        ensures cause { HasCauseOf VolAnswer.Fault (S.faults src.old) (S.faults src.new) result }
        ensures answers { IfErr result IsFileAnswer }
        ensures parts { OverTold S.tells (S.blocks src.old) (λ image. IsAccepted image → IsOpened volume.now image →
            MatchResult result (AreParts inline (volume_items image) (keys volume.now.named)) IsFaultOrMemory) }
    {
        let mut parts = FileParts::gather(alloc, src, volume, inline)?;
        parts.owned.sort_unstable_by_key(|run| run.first);
        Ok(parts)
    }

    /// The same with the runs in the order of the files.
    fn gather<S: BlockSource>(
        alloc: Global,
        src: &mut S,
        volume: &Volume,
        inline: bool,
    ) -> Result<FileParts, VolAnswer>
        ensures kept { S.kept src.old src.new }
        ensures cause { HasCauseOf VolAnswer.Fault (S.faults src.old) (S.faults src.new) result }
        ensures answers { IfErr result IsFileAnswer }
        ensures parts { OverTold S.tells (S.blocks src.old) (λ image. IsAccepted image → IsOpened volume.now image →
            MatchResult result (Gathers inline (volume_items image) (keys volume.now.named) (keys volume.now.named)) IsFaultOrMemory) }
    {
        let mut parts = FileParts::new(alloc);
        for i in 0..volume.count() {
            parts.add_object(alloc, src, volume, i, inline)?;
        }
        Ok(parts)
    }

    /// Adds what the object at place `i` has.
    fn add_object<S: BlockSource>(
        &mut self,
        alloc: Global,
        src: &mut S,
        volume: &Volume,
        i: usize,
        inline: bool,
    ) -> Result<(), VolAnswer>
        requires { i < length (keys volume.now.named) }
        ensures kept { S.kept src.old src.new }
        ensures cause { HasCauseOf VolAnswer.Fault (S.faults src.old) (S.faults src.new) result }
        ensures answers { IfErr result IsFileAnswer }
        ensures parts { OverTold S.tells (S.blocks src.old) (λ image. IsAccepted image → IsOpened volume.now image →
            Gathers inline (volume_items image) (keys volume.now.named) (take i (keys volume.now.named)) self.old →
            MatchResult result (λ _. Gathers inline (volume_items image) (keys volume.now.named) (take (i + 1) (keys volume.now.named)) self.new) IsFaultOrMemory) }
    {
        let size = volume.stat(i).fields.size;
        match kind_at(volume, i) {
            Kind::File => {
                let map = volume.file_map(alloc, src, i)?;
                self.add_file(volume.inode_at(i), &map, size, inline)?;
                Ok(())
            }
            Kind::Symlink => {
                self.add_inline(size);
                Ok(())
            }
            Kind::Directory
            | Kind::Character
            | Kind::Block
            | Kind::Fifo
            | Kind::Socket
            | Kind::Subvolume => Ok(()),
        }
    }

    /// Adds a file whose blocks lie so.
    fn add_file(&mut self, inode: u64, map: &FileMap, size: u64, inline: bool) -> Result<(), Memory>
        ensures { All (λ r. r.at + r.count < 2 ^ 64) map.now → OnOk result (Gains (adds_file inline inode map.now size) self.old self.new) }
    {
        if inline && is_tail_alone(map, size) {
            self.add_inline(size);
            return Ok(());
        }
        for j in 0..map.len() {
            self.add_run(inode, map.get(j))?;
        }
        Ok(())
    }

    /// Adds a run of blocks of a file.
    fn add_run(&mut self, inode: u64, run: FileRun) -> Result<(), Memory>
        ensures { run.at + run.count < 2 ^ 64 → OnOk result (Gains (adds_run inode run) self.old self.new) }
    {
        match run.from {
            RunFrom::Disk(first) => {
                self.owned.push(OwnedRun {
                    first,
                    count: run.count,
                    inode,
                    at: run.at,
                })?;
                Ok(())
            }
            RunFrom::Tail => self.add_tails(inode, run.at, run.count),
        }
    }

    /// Adds tails from block `at` of a file on.
    fn add_tails(&mut self, inode: u64, at: u64, count: u64) -> Result<(), Memory>
        ensures { at + count < 2 ^ 64 → OnOk result (Gains (adds_tails inode at count) self.old self.new) }
    {
        for k in at..at.saturating_add(count) {
            self.tails.push(Tail { inode, at: k })?;
        }
        Ok(())
    }

    /// Adds a file or symlink whose bytes stay in the tree.
    fn add_inline(&mut self, size: u64)
        ensures { Gains (adds_inline size) self.old self.new }
    {
        self.inlines = self.inlines.saturating_add(1);
        self.inline_bytes = self.inline_bytes.saturating_add(size);
    }
}

/// Whether a file has at most 2048 bytes, and its block lies in direct items.
fn is_tail_alone(map: &FileMap, size: u64) -> bool
    ensures { result ≡ is_tail_alone map.now size }
{
    size <= INLINE_SIZE && map.len() == 1 && map.get(0).from == RunFrom::Tail
}

/// The kind of the named object at place `i`.
fn kind_at(volume: &Volume, i: usize) -> Kind
    requires { i < length (keys volume.now.named) }
    ensures { (image : Image) → IsOpened volume.now image → (key : KeyOf) → slice_get (keys volume.now.named) i ≡ Some key → result ≡ kind_by (stat_at (volume_items image) key) }
{
    kind_of_mode(volume.stat(i).fields.mode).unwrap_or(Kind::File)
}
