ghost use Rattle.std.specs.Prelude.{◌≡◌, ◌<◌, ◌*◌, ◌^◌, length, slice_get, Some, IfOk, IfErr};
ghost use Rattle.std.specs.Result.{MatchResult};
ghost use Rattle.indexmap.specs.IndexMap.{keys};
ghost use Rattle.reiser_bitmap.specs.outside.Fault.{HasCauseOf};
ghost use Rattle.reiser_bitmap.specs.outside.History.{OverTold};
ghost use Rattle.reiser_volume_contents.specs.Answers.{IsFault, IsFaultOrMemory, IsReadAnswer, IsFileAnswer};
ghost use Rattle.reiser_volume_files.specs.Bytes.{tail_block};
ghost use Rattle.reiser_volume_files.specs.Runs.{file_runs};
ghost use Rattle.reiser_volume_objects.specs.declared.key.ObjectKey.{ObjectKey as KeyOf};
ghost use Rattle.reiser_volume_objects.specs.Keys.{items_of};
ghost use Rattle.reiser_volume.specs.Made.{stat_at};
ghost use Rattle.reiser_volume.specs.Marks.{IsKeptMark};
ghost use Rattle.reiser_volume.specs.Opened.{IsOpened};
ghost use Rattle.reiser_volume.specs.Owners.{TellsOwned};
ghost use Rattle.reiser_volume.specs.Volume.{IsAccepted, volume_items};

use crate::Volume;
use reiser_bitmap::{Block, BlockSource, VolAnswer};
use reiser_volume_contents::{file_map, file_mark, file_tail};
use reiser_volume_files::FileMap;
use std::alloc::Global;

impl Volume {
    /// Where the blocks of the file or symlink at this place lie, in runs: those that lie on the disk are exactly the blocks
    /// that it owns. It reads the leaves of its items.
    ///
    /// A refusal names a block that the device has no more, or that reads otherwise than when the volume was opened.
    pub fn file_map<S: BlockSource>(
        &self,
        alloc: Global,
        src: &mut S,
        i: usize,
    ) -> Result<FileMap, VolAnswer>
        requires { i < length (keys self.now.named) }
        ensures kept { S.kept src.old src.new }
        ensures cause { HasCauseOf VolAnswer.Fault (S.faults src.old) (S.faults src.new) result }
        ensures answers { IfErr result IsFileAnswer }
        ensures map { OverTold S.tells (S.blocks src.old) (λ image. IsAccepted image → IsOpened self.now image → (key : KeyOf) → slice_get (keys self.now.named) i ≡ Some key →
            MatchResult result (λ map. map ≡ file_runs (items_of key (volume_items image)) (stat_at (volume_items image) key).fields.size) IsFaultOrMemory) }
        ensures owned { OverTold S.tells (S.blocks src.old) (λ image. IsAccepted image → IsOpened self.now image → (key : KeyOf) → slice_get (keys self.now.named) i ≡ Some key →
            IfOk result (TellsOwned image key)) }
    {
        let size = self.stat(i).fields.size;
        file_map(alloc, src, &self.objects, self.object(i), size)
    }

    /// The mark of the bytes of the file at this place. It reads the leaves of its items and its blocks.
    pub(crate) fn file_mark<S: BlockSource>(
        &self,
        src: &mut S,
        i: usize,
    ) -> Result<[u8; 32], VolAnswer>
        requires { i < length (keys self.now.named) }
        ensures kept { S.kept src.old src.new }
        ensures cause { HasCauseOf VolAnswer.Fault (S.faults src.old) (S.faults src.new) result }
        ensures answers { IfErr result IsReadAnswer }
        ensures mark { OverTold S.tells (S.blocks src.old) (λ image. IsAccepted image → IsOpened self.now image →
            MatchResult result (λ mark. (key : KeyOf) → slice_get (keys self.now.named) i ≡ Some key → IsKeptMark image key (Some mark)) IsFault) }
    {
        let size = self.stat(i).fields.size;
        file_mark(src, &self.objects, self.object(i), size)
    }

    /// Puts into a block what direct items hold of block `at` of the file or symlink at place `i`, and else zeros. After
    /// an error it is any block.
    pub fn tail<S: BlockSource>(
        &self,
        src: &mut S,
        i: usize,
        at: u64,
        into: &mut Block,
    ) -> Result<(), VolAnswer>
        requires named { i < length (keys self.now.named) }
        requires inside { 4096 * at < 2 ^ 64 }
        ensures kept { S.kept src.old src.new }
        ensures cause { HasCauseOf VolAnswer.Fault (S.faults src.old) (S.faults src.new) result }
        ensures answers { IfErr result IsReadAnswer }
        ensures tail { OverTold S.tells (S.blocks src.old) (λ image. IsAccepted image → IsOpened self.now image → (key : KeyOf) → slice_get (keys self.now.named) i ≡ Some key →
            MatchResult result (λ _. into.new.bytes ≡ tail_block (items_of key (volume_items image)) (stat_at (volume_items image) key).fields.size at) IsFault) }
    {
        let size = self.stat(i).fields.size;
        file_tail(src, &self.objects, self.object(i), size, at, into)
    }
}
