ghost use Rattle.std.specs.Prelude.{◌≡◌, ◌≤◌, ◌<◌, ◌+◌, [], length, IfOk, IfErr};
ghost use Rattle.reiser_bitmap.specs.outside.Fault.{HasCauseOf};
ghost use Rattle.reiser_bitmap.specs.outside.History.{OverTold};
ghost use Rattle.reiser_walk.specs.Rules.{tree_damages};
ghost use Rattle.reiser_walk.specs.Tree.{items_of_tree};
ghost use Rattle.reiser_volume_objects.specs.Read.{tree_at, BlamesTree, IsObjectsReadAnswer};
ghost use Rattle.reiser_volume_objects.specs.Table.{HasNoted};

use crate::Objects;
use reiser_bitmap::{Bitmap, BlockSource, VolAnswer};
use reiser_items::BlockNo;
use reiser_walk::{Walker, tell_leaves};
use std::alloc::Global;

impl Objects {
    /// The objects of a whole tree, where it keeps each rule of trees: one walk, of which the source is told before.
    pub fn read<S: BlockSource>(
        alloc: Global,
        src: &mut S,
        map: &Bitmap,
        root: BlockNo,
        height: u16,
        journal_first: BlockNo,
        journal_size: u64,
    ) -> Result<Objects, VolAnswer>
        requires root { root < length map.now }
        requires low { 2 ≤ height }
        requires high { height ≤ 7 }
        requires journal { journal_first + journal_size < length map.now }
        requires source { length map.now ≤ S.size src.old }
        ensures kept { S.kept src.old src.new }
        ensures cause { HasCauseOf VolAnswer.Fault (S.faults src.old) (S.faults src.new) result }
        ensures answers { IfErr result IsObjectsReadAnswer }
        ensures noted { OverTold S.tells (S.blocks src.old) (λ image. IfOk result (λ objects. HasNoted objects (items_of_tree (tree_at root height journal_first journal_size) image (length map.now)))) }
        ensures sound { OverTold S.tells (S.blocks src.old) (λ image. IfOk result (λ _. tree_damages (tree_at root height journal_first journal_size) image map.now ≡ [])) }
        ensures damage { OverTold S.tells (S.blocks src.old) (λ image. IfErr result (BlamesTree (tree_at root height journal_first journal_size) image map.now)) }
    {
        tell_leaves(alloc, src, root, height, map.len())?;
        Objects::walk(alloc, src, map, root, height, journal_first, journal_size)
    }

    /// The same, where the source may know which leaves come.
    fn walk<S: BlockSource>(
        alloc: Global,
        src: &mut S,
        map: &Bitmap,
        root: BlockNo,
        height: u16,
        journal_first: BlockNo,
        journal_size: u64,
    ) -> Result<Objects, VolAnswer>
        requires root { root < length map.now }
        requires low { 2 ≤ height }
        requires high { height ≤ 7 }
        requires journal { journal_first + journal_size < length map.now }
        requires source { length map.now ≤ S.size src.old }
        ensures kept { S.kept src.old src.new }
        ensures cause { HasCauseOf VolAnswer.Fault (S.faults src.old) (S.faults src.new) result }
        ensures answers { IfErr result IsObjectsReadAnswer }
        ensures noted { OverTold S.tells (S.blocks src.old) (λ image. IfOk result (λ objects. HasNoted objects (items_of_tree (tree_at root height journal_first journal_size) image (length map.now)))) }
        ensures sound { OverTold S.tells (S.blocks src.old) (λ image. IfOk result (λ _. tree_damages (tree_at root height journal_first journal_size) image map.now ≡ [])) }
        ensures damage { OverTold S.tells (S.blocks src.old) (λ image. IfErr result (BlamesTree (tree_at root height journal_first journal_size) image map.now)) }
    {
        let mut walker = Walker::new(alloc, map, root, height, journal_first, journal_size)?;
        let mut objects = Objects::new(alloc);
        while walker.advance(src, map)? {
            objects.note(alloc, walker.leaf(), &walker.head(), walker.body())?;
        }
        Ok(objects)
    }
}
