ghost use Rattle.std.specs.Prelude.{◌≡◌, ◌≤◌, ◌<◌, ◌*◌, ◌^◌, List, Bool, IsTrue, IfErr};
ghost use Rattle.std.specs.Result.{MatchResult};
ghost use Rattle.reiser_volume_objects.specs.outside.Fault.{HasCauseOf};
ghost use Rattle.reiser_volume_objects.specs.outside.History.{Image};
ghost use Rattle.fs_rows.specs.Mark.{mark_of_bytes};
ghost use Rattle.reiser_volume_objects.specs.reiser_walk.Items.{ReiserItem};
ghost use Rattle.reiser_volume_objects.specs.reiser_walk.declared.reiser_tree.ReiserTree.{ReiserTree};
ghost use Rattle.reiser_volume_files.specs.Bytes.{file_bytes, tail_block};
ghost use Rattle.reiser_volume_files.specs.Runs.{file_runs};
ghost use Rattle.reiser_volume_objects.specs.Table.{HasNoted};
ghost use Rattle.reiser_volume_contents.specs.Answers.{IsReadAnswer, IsFileAnswer, IsFault, IsFaultOrMemory, NamesOwnLeaf};
ghost use Rattle.reiser_volume_contents.specs.Holds.{HoldsObject, HoldsLink, object_items};

use crate::ObjectItems;
use crate::link::name_in;
use crate::map::map_items;
use crate::mark::mark_items;
use crate::tail::gather_items;
use fs_rows::Name;
use reiser_volume_files::FileMap;
use reiser_volume_objects::{Block, BlockSource, ObjectKey, Objects, VolAnswer};
use std::alloc::Global;

/// The mark of the bytes of a file of `size` bytes.
///
/// It reads the leaves of its items and the blocks that they name below the size, in the order of the file. A refusal
/// names a leaf that the device has no more, or that names a block past the end: the device was changed since the walk.
pub fn file_mark<S: BlockSource>(
    src: &mut S,
    objects: &Objects,
    key: ObjectKey,
    size: u64,
) -> Result<[u8; 32], VolAnswer>
    ensures kept { S.kept src.old src.new }
    ensures cause { HasCauseOf VolAnswer.Fault (S.faults src.old) (S.faults src.new) result }
    ensures answers { IfErr result IsReadAnswer }
    ensures names { (items : List ReiserItem) → HasNoted objects.now items → IfErr result (NamesOwnLeaf key items objects.now.leaves) }
    ensures mark { IsTrue S.tells → (tree : ReiserTree) (image : Image) (used : List Bool) → S.blocks src.old ≡ image → HoldsObject objects.now key tree image used →
        MatchResult result (λ mark. mark ≡ mark_of_bytes (file_bytes image (object_items tree image used key) size)) IsFault }
{
    mark_items(src, &objects.leaves, ObjectItems::new(objects, key), size)
}

/// Where the blocks of a file of `size` bytes lie. It reads the leaves of its items.
pub fn file_map<S: BlockSource>(
    alloc: Global,
    src: &mut S,
    objects: &Objects,
    key: ObjectKey,
    size: u64,
) -> Result<FileMap, VolAnswer>
    ensures kept { S.kept src.old src.new }
    ensures cause { HasCauseOf VolAnswer.Fault (S.faults src.old) (S.faults src.new) result }
    ensures answers { IfErr result IsFileAnswer }
    ensures names { (items : List ReiserItem) → HasNoted objects.now items → IfErr result (NamesOwnLeaf key items objects.now.leaves) }
    ensures map { IsTrue S.tells → (tree : ReiserTree) (image : Image) (used : List Bool) → S.blocks src.old ≡ image → HoldsObject objects.now key tree image used →
        MatchResult result (λ map. map ≡ file_runs (object_items tree image used key) size) IsFaultOrMemory }
{
    map_items(
        alloc,
        src,
        &objects.leaves,
        ObjectItems::new(objects, key),
        size,
    )
}

/// Puts into a block what direct items hold of block `k` of a file of `size` bytes, and else zeros. After an error it is
/// any block.
pub fn file_tail<S: BlockSource>(
    src: &mut S,
    objects: &Objects,
    key: ObjectKey,
    size: u64,
    k: u64,
    into: &mut Block,
) -> Result<(), VolAnswer>
    requires { 4096 * k < 2 ^ 64 }
    ensures kept { S.kept src.old src.new }
    ensures cause { HasCauseOf VolAnswer.Fault (S.faults src.old) (S.faults src.new) result }
    ensures answers { IfErr result IsReadAnswer }
    ensures names { (items : List ReiserItem) → HasNoted objects.now items → IfErr result (NamesOwnLeaf key items objects.now.leaves) }
    ensures tail { IsTrue S.tells → (tree : ReiserTree) (image : Image) (used : List Bool) → S.blocks src.old ≡ image → HoldsObject objects.now key tree image used →
        MatchResult result (λ _. into.new.bytes ≡ tail_block (object_items tree image used key) size k) IsFault }
{
    gather_items(
        src,
        &objects.leaves,
        ObjectItems::new(objects, key),
        size,
        k,
        into,
    )
}

/// The target of a symlink of `size` bytes, at most 4096.
pub fn link_target<S: BlockSource>(
    alloc: Global,
    src: &mut S,
    objects: &Objects,
    key: ObjectKey,
    size: u64,
) -> Result<Name, VolAnswer>
    requires { size ≤ 4096 }
    ensures kept { S.kept src.old src.new }
    ensures cause { HasCauseOf VolAnswer.Fault (S.faults src.old) (S.faults src.new) result }
    ensures answers { IfErr result IsFileAnswer }
    ensures names { (items : List ReiserItem) → HasNoted objects.now items → IfErr result (NamesOwnLeaf key items objects.now.leaves) }
    ensures target { IsTrue S.tells → (tree : ReiserTree) (image : Image) (used : List Bool) → S.blocks src.old ≡ image → HoldsLink objects.now key tree image used →
        MatchResult result (λ name. name ≡ file_bytes image (object_items tree image used key) size) IsFaultOrMemory }
{
    let mut block = Block::zero();
    file_tail(src, objects, key, size, 0, &mut block)?;
    name_in(alloc, &block, size)
}
