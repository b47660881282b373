// The device extents of the device tree.
ghost use Rattle.std.specs.Prelude.{◌≡◌, ◌≤◌, ◌++◌, ◌∷◌, [], ℕ, List, map, Some, IfErr, IfOk, OnOk};
ghost use Rattle.btr_check_rules.specs.btr_reader.btr_reader_walk.Events.{TreeItem};
ghost use Rattle.btr_check_rules.specs.btr_reader.btr_reader_walk.Tree.{bare_item};
ghost use Rattle.btr_check_rules.specs.btr_reader.btr_reader_walk.Walks.{IsAmong, LieOn, found, wrong};
ghost use Rattle.btr_check_rules.specs.btr_reader.btr_reader_walk.outside.Fault.{HasCauseOf};
ghost use Rattle.btr_check_rules.specs.btr_reader.btr_reader_walk.outside.History.{OverTold};
ghost use Rattle.btr_check_rules.specs.btr_reader.btr_node.NodeSize.{IsNodeSize};
ghost use Rattle.btr_check_rules.specs.Groups.{AreExtentsOf};
ghost use Rattle.btr_check_rules.specs.Recount.{of_kind};
ghost use Rattle.btr_check_fields.specs.Failing.{Answers};
ghost use Rattle.btr_check_fields.specs.Noted.{HoldsExtents};

use crate::extents::wrong_extent;
use crate::found::ExtentAt;
use btr_check_rules::btr_reader::ChunkAt;
use btr_check_rules::btr_reader::btr_reader_walk::{
    BlockSource, BtrAnswer, Key, MapRange, Memory, Notes, Tree, note_items,
};
use btr_check_rules::btr_reader::btr_space_items::DevExtent;
use btr_check_rules::btr_reader::btr_space_items::btrfs_format::key::DEV_EXTENT;
use std::alloc::Global;

/// The device extents that were met, and the place of one that is off its grammar.
#[derive(Drop)]
pub struct ExtentsFound {
    pub extents: Vec<ExtentAt>,
    pub wrong: Option<u64>,
}

impl Notes for ExtentsFound {
    ghost use Rattle.btr_check_fields.specs.Noted.{HoldsExtents};

    ghost holds = { λ begun notes items. HoldsExtents notes items };

    /// Notes one more item of the device tree. Items of other kinds are passed over.
    fn note(&mut self, _: Global, key: &Key, body: &[u8], _: u64) -> Result<(), Memory> {
        if key.kind != DEV_EXTENT {
            return Ok(());
        }
        match DevExtent::read(body) {
            Some(extent) => {
                let found = ExtentAt {
                    devid: key.objectid,
                    offset: key.offset,
                    extent,
                };
                push_extent(&mut self.extents, found)?;
                Ok(())
            }
            None => {
                self.wrong = Some(key.offset);
                Ok(())
            }
        }
    }
}

fn push_extent(extents: &mut Vec<ExtentAt>, extent: ExtentAt) -> Result<(), Memory>
    ensures { OnOk result (extents.new.items ≡ extents.old.items ++ extent ∷ []) }
{
    extents.push(extent)?;
    Ok(())
}

/// The address of a chunk a stripe of which has no device extent, or the place of a device extent that is of no chunk or off
/// its grammar; None where there is none. The device tree is walked once.
pub fn wrong_device_extent<S: BlockSource>(
    alloc: Global,
    src: &mut S,
    tree: Tree,
    ranges: &[MapRange],
    chunks: &[ChunkAt],
) -> Result<Option<u64>, BtrAnswer>
    requires size { IsNodeSize tree.form.nodesize }
    requires high { tree.root.level ≤ 7 }
    requires inside { LieOn (S.size src.old) ranges.now }
    ensures kept { S.kept src.old src.new }
    ensures cause { HasCauseOf BtrAnswer.Fault (S.faults src.old) (S.faults src.new) result }
    ensures ok { OverTold S.tells (S.blocks src.old) (λ image. OnOk result (wrong image ranges.now tree ≡ [])) }
    ensures err { OverTold S.tells (S.blocks src.old) (λ image. IfErr result (IsAmong (wrong image ranges.now tree))) }
    ensures tells { OverTold S.tells (S.blocks src.old) (λ image. IfOk result (Answers ((a : ℕ) → AreExtentsOf chunks.now (of_kind DEV_EXTENT (map bare_item (found image ranges.now tree))) a)
        (λ a. ¬ AreExtentsOf chunks.now (of_kind DEV_EXTENT (map bare_item (found image ranges.now tree))) a))) }
{
    let mut notes = ExtentsFound {
        extents: Vec::new(alloc),
        wrong: None,
    };
    note_items(alloc, src, tree, ranges, &mut notes)?;
    Ok(judge(&notes, chunks))
}

/// The same of the device extents that were met.
fn judge(notes: &ExtentsFound, chunks: &[ChunkAt]) -> Option<u64>
    ensures { (items : List TreeItem) → HoldsExtents notes.now items → Answers ((a : ℕ) → AreExtentsOf chunks.now (of_kind DEV_EXTENT (map bare_item items)) a)
        (λ a. ¬ AreExtentsOf chunks.now (of_kind DEV_EXTENT (map bare_item items)) a) result }
{
    match notes.wrong {
        Some(address) => Some(address),
        None => wrong_extent(chunks, notes.extents.as_slice()),
    }
}
