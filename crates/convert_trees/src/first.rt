// The trees whose items are known before any other tree is written.
ghost use Rattle.std.specs.Prelude.{◌≡◌, ◌≤◌, ◌<◌, ◌+◌, ◌-◌, ◌*◌, ◌^◌, ◌++◌, [], ℕ, List, Some, All, drop, length, if◌then◌else◌, IsTrue, IfOk, OnOk};
ghost use Rattle.std.specs.Result.{MatchResult};
ghost use Rattle.btr_tree.specs.outside.Fault.{HasCauseOf};
ghost use Rattle.btr_tree.specs.outside.History.{Image, reads, OverTold, WritesOnly};
ghost use Rattle.btr_tree.specs.btr_node.Leaf.{Item};
ghost use Rattle.btr_tree.specs.Writing.{IsInSlots};
ghost use Rattle.file_items.specs.Small.{image_items, relocation_items};
ghost use Rattle.file_items.specs.Stream.{ahead};
ghost use Rattle.file_items.specs.Tree.{source_of, fs_tree_items};
ghost use Rattle.space_items.specs.Chunks.{chunk_items, device_items};
ghost use Rattle.space_items.specs.Stream.{ArePieces};
ghost use Rattle.space_items.specs.Sums.{sum_items};
ghost use Rattle.btr_tree_writer.specs.Answers.{IsFailure};
ghost use Rattle.btr_tree_writer.specs.Row.{IsSlotRow};
ghost use Rattle.btr_tree_writer.specs.Source.{LieApart};
ghost use Rattle.btr_tree_writer.specs.Trees.{AreWritable, read_form};
ghost use Rattle.unit_plan.specs.Chunks.{AreChunks, FitsVolume};
ghost use Rattle.unit_plan.specs.Pieces.{ArePlaced};
ghost use Rattle.unit_plan.specs.declared.chunk.PlannedChunk.{PlannedChunk as PlannedChunkOf};
ghost use Rattle.convert_trees.specs.Sources.{FitsFiles, HasPlacedPieces, IsInPieces, IsLiveFiles, IsUsedBlock, pieces_end};
ghost use Rattle.unit_plan.specs.Trees.{tree_number};
ghost use Rattle.convert_trees.specs.Adding.{Adds};
ghost use Rattle.convert_trees.specs.First.{first_items};

use crate::sources::{FileItems, SumItems};
use crate::writing::Writing;
use btr_item_list::ItemList;
use btr_tree::btrfs_format::object::{
    CHUNK_TREE, CONV_IMAGE_SUBVOL, CSUM_TREE, DATA_RELOC_TREE, DEV_TREE, FS_TREE,
};
use btr_tree::{Access, Disk, Root};
use btr_tree_writer::{ListItems, Trees, WriteAnswer};
use file_items::Items;
use space_items::{checksums, chunks, devices};
use unit_plan::{NewTree, PieceList};

/// Writes one of the trees whose items are known before any other tree is written.
pub fn write_new_tree<D: Disk, P: PieceList>(
    row: &mut Trees,
    disk: &mut D,
    w: &Writing<'_, P>,
    tree: NewTree,
) -> Result<Root, WriteAnswer>
    requires row { IsSlotRow row.old }
    requires open { D.opened disk.old ≡ Some Access.Write }
    requires in_range { All (λ a. a + row.old.form.nodesize ≤ 4096 * D.size disk.old) row.old.slots }
    requires moment { w.now.time < 2 ^ 63 }
    requires small { w.now.volume.now.sup.blocks ≤ 2 ^ 29 }
    requires units { FitsVolume w.now.plan.now w.now.volume.now.sup.blocks }
    requires pieces { ArePieces (P.pieces w.now.pieces.now) }
    requires places { pieces_end (P.pieces w.now.pieces.now) ≤ D.size disk.old }
    ensures row { OnOk result (IsSlotRow row.new) }
    ensures same { (row.new.form ≡ row.old.form) × (row.new.slots ≡ row.old.slots) }
    ensures taken { IfOk result (λ root. row.new.taken ≡ row.old.taken + root.nodes) }
    ensures tree { OverTold D.tells (D.blocks disk.old) (λ other. (chunks : List PlannedChunkOf) → AreChunks w.now.plan.now w.now.volume.now.sup.blocks chunks → HasPlacedPieces w.now.volume.now (P.pieces w.now.pieces.now) other
        → LieApart (IsUsedBlock w.now.volume.now) row.old.form.nodesize row.old.slots → LieApart (IsInPieces (P.pieces w.now.pieces.now)) row.old.form.nodesize row.old.slots
        → AreWritable row.old.form.nodesize (drop row.old.taken row.old.slots) (first_items w.now.volume.now (P.pieces w.now.pieces.now) w.now.options.now w.now.form.ids w.now.time chunks other tree)
        → MatchResult result (λ root. Adds (reads (D.history disk.new)) row.old row.new (tree_number tree) (first_items w.now.volume.now (P.pieces w.now.pieces.now) w.now.options.now w.now.form.ids w.now.time chunks other tree) root) IsFailure) }
    ensures open { D.opened disk.new ≡ D.opened disk.old }
    ensures size { D.size disk.new ≡ D.size disk.old }
    ensures borrow { D.borrow disk.new ≡ D.borrow disk.old }
    ensures only { IsTrue D.tells → WritesOnly (λ b _. IsInSlots row.old.form.nodesize (drop row.old.taken row.old.slots) b) (D.history disk.old) (D.history disk.new) }
    ensures cause { HasCauseOf WriteAnswer.Fault (D.faults disk.old) (D.faults disk.new) result }
{
    match tree {
        NewTree::Files => write_files(row, disk, w),
        NewTree::SavedImage => write_image(row, disk, w),
        NewTree::Relocation => write_relocation(row, disk, w),
        NewTree::Checksums => write_sums(row, disk, w),
        NewTree::Devices => write_devices(row, disk, w),
    }
}

/// Writes the file tree. It is read off the used blocks of the volume.
fn write_files<D: Disk, P: PieceList>(
    row: &mut Trees,
    disk: &mut D,
    w: &Writing<'_, P>,
) -> Result<Root, WriteAnswer>
    requires row { IsSlotRow row.old }
    requires open { D.opened disk.old ≡ Some Access.Write }
    requires in_range { All (λ a. a + row.old.form.nodesize ≤ 4096 * D.size disk.old) row.old.slots }
    ensures row { OnOk result (IsSlotRow row.new) }
    ensures same { (row.new.form ≡ row.old.form) × (row.new.slots ≡ row.old.slots) }
    ensures taken { IfOk result (λ root. row.new.taken ≡ row.old.taken + root.nodes) }
    ensures tree { OverTold D.tells (D.blocks disk.old) (λ other. HasPlacedPieces w.now.volume.now (P.pieces w.now.pieces.now) other → LieApart (IsUsedBlock w.now.volume.now) row.old.form.nodesize row.old.slots → AreWritable row.old.form.nodesize (drop row.old.taken row.old.slots) (fs_tree_items (source_of w.now.volume.now (P.pieces w.now.pieces.now) w.now.options.now.inline w.now.options.now.datasum other))
        → MatchResult result (λ root. Adds (reads (D.history disk.new)) row.old row.new FS_TREE (fs_tree_items (source_of w.now.volume.now (P.pieces w.now.pieces.now) w.now.options.now.inline w.now.options.now.datasum other)) root) IsFailure) }
    ensures open { D.opened disk.new ≡ D.opened disk.old }
    ensures size { D.size disk.new ≡ D.size disk.old }
    ensures borrow { D.borrow disk.new ≡ D.borrow disk.old }
    ensures only { IsTrue D.tells → WritesOnly (λ b _. IsInSlots row.old.form.nodesize (drop row.old.taken row.old.slots) b) (D.history disk.old) (D.history disk.new) }
    ensures cause { HasCauseOf WriteAnswer.Fault (D.faults disk.old) (D.faults disk.new) result }
{
    let items = Items::tree5(w.alloc, w.volume, w.pieces, w.options, w.time)?;
    write_file_tree(row, disk, w, FS_TREE, items)
}

/// Writes the tree of the saved image.
fn write_image<D: Disk, P: PieceList>(
    row: &mut Trees,
    disk: &mut D,
    w: &Writing<'_, P>,
) -> Result<Root, WriteAnswer>
    requires row { IsSlotRow row.old }
    requires open { D.opened disk.old ≡ Some Access.Write }
    requires in_range { All (λ a. a + row.old.form.nodesize ≤ 4096 * D.size disk.old) row.old.slots }
    requires moment { w.now.time < 2 ^ 63 }
    ensures row { OnOk result (IsSlotRow row.new) }
    ensures same { (row.new.form ≡ row.old.form) × (row.new.slots ≡ row.old.slots) }
    ensures taken { IfOk result (λ root. row.new.taken ≡ row.old.taken + root.nodes) }
    ensures tree { OverTold D.tells (D.blocks disk.old) (λ other. HasPlacedPieces w.now.volume.now (P.pieces w.now.pieces.now) other → LieApart (IsUsedBlock w.now.volume.now) row.old.form.nodesize row.old.slots → w.now.volume.now.sup.blocks < 2 ^ 52 → AreWritable row.old.form.nodesize (drop row.old.taken row.old.slots) (image_items w.now.volume.now.sup.blocks (P.pieces w.now.pieces.now) w.now.options.now.datasum w.now.time)
        → MatchResult result (λ root. Adds (reads (D.history disk.new)) row.old row.new CONV_IMAGE_SUBVOL (image_items w.now.volume.now.sup.blocks (P.pieces w.now.pieces.now) w.now.options.now.datasum w.now.time) root) IsFailure) }
    ensures open { D.opened disk.new ≡ D.opened disk.old }
    ensures size { D.size disk.new ≡ D.size disk.old }
    ensures borrow { D.borrow disk.new ≡ D.borrow disk.old }
    ensures only { IsTrue D.tells → WritesOnly (λ b _. IsInSlots row.old.form.nodesize (drop row.old.taken row.old.slots) b) (D.history disk.old) (D.history disk.new) }
    ensures cause { HasCauseOf WriteAnswer.Fault (D.faults disk.old) (D.faults disk.new) result }
{
    let items = Items::image(w.alloc, w.volume, w.pieces, w.options, w.time)?;
    write_file_tree(row, disk, w, CONV_IMAGE_SUBVOL, items)
}

/// Writes the relocation tree.
fn write_relocation<D: Disk, P: PieceList>(
    row: &mut Trees,
    disk: &mut D,
    w: &Writing<'_, P>,
) -> Result<Root, WriteAnswer>
    requires row { IsSlotRow row.old }
    requires open { D.opened disk.old ≡ Some Access.Write }
    requires in_range { All (λ a. a + row.old.form.nodesize ≤ 4096 * D.size disk.old) row.old.slots }
    requires moment { w.now.time < 2 ^ 63 }
    ensures row { OnOk result (IsSlotRow row.new) }
    ensures same { (row.new.form ≡ row.old.form) × (row.new.slots ≡ row.old.slots) }
    ensures taken { IfOk result (λ root. row.new.taken ≡ row.old.taken + root.nodes) }
    ensures tree { OverTold D.tells (D.blocks disk.old) (λ other. HasPlacedPieces w.now.volume.now (P.pieces w.now.pieces.now) other → LieApart (IsUsedBlock w.now.volume.now) row.old.form.nodesize row.old.slots → AreWritable row.old.form.nodesize (drop row.old.taken row.old.slots) (relocation_items w.now.time)
        → MatchResult result (λ root. Adds (reads (D.history disk.new)) row.old row.new DATA_RELOC_TREE (relocation_items w.now.time) root) IsFailure) }
    ensures open { D.opened disk.new ≡ D.opened disk.old }
    ensures size { D.size disk.new ≡ D.size disk.old }
    ensures borrow { D.borrow disk.new ≡ D.borrow disk.old }
    ensures only { IsTrue D.tells → WritesOnly (λ b _. IsInSlots row.old.form.nodesize (drop row.old.taken row.old.slots) b) (D.history disk.old) (D.history disk.new) }
    ensures cause { HasCauseOf WriteAnswer.Fault (D.faults disk.old) (D.faults disk.new) result }
{
    let items = Items::relocation(w.alloc, w.time)?;
    write_file_tree(row, disk, w, DATA_RELOC_TREE, items)
}

/// Writes the tree of this number, of the items that come of a file tree.
fn write_file_tree<D: Disk, P: PieceList>(
    row: &mut Trees,
    disk: &mut D,
    w: &Writing<'_, P>,
    number: u64,
    items: Items,
) -> Result<Root, WriteAnswer>
    requires row { IsSlotRow row.old }
    requires open { D.opened disk.old ≡ Some Access.Write }
    requires in_range { All (λ a. a + row.old.form.nodesize ≤ 4096 * D.size disk.old) row.old.slots }
    requires live { IsLiveFiles items w.now.volume.now (P.pieces w.now.pieces.now) }
    ensures row { OnOk result (IsSlotRow row.new) }
    ensures same { (row.new.form ≡ row.old.form) × (row.new.slots ≡ row.old.slots) }
    ensures taken { IfOk result (λ root. row.new.taken ≡ row.old.taken + root.nodes) }
    ensures tree { OverTold D.tells (D.blocks disk.old) (λ other. FitsFiles items w.now.volume.now (P.pieces w.now.pieces.now) other → LieApart (IsUsedBlock w.now.volume.now) row.old.form.nodesize row.old.slots → (all : List Item) → ahead items w.now.volume.now (P.pieces w.now.pieces.now) other ≡ all → AreWritable row.old.form.nodesize (drop row.old.taken row.old.slots) all
        → MatchResult result (λ root. Adds (reads (D.history disk.new)) row.old row.new number all root) IsFailure) }
    ensures open { D.opened disk.new ≡ D.opened disk.old }
    ensures size { D.size disk.new ≡ D.size disk.old }
    ensures borrow { D.borrow disk.new ≡ D.borrow disk.old }
    ensures only { IsTrue D.tells → WritesOnly (λ b _. IsInSlots row.old.form.nodesize (drop row.old.taken row.old.slots) b) (D.history disk.old) (D.history disk.new) }
    ensures cause { HasCauseOf WriteAnswer.Fault (D.faults disk.old) (D.faults disk.new) result }
{
    let mut items = FileItems {
        items,
        volume: w.volume,
        pieces: w.pieces,
    };
    row.write(w.alloc, disk, number, &mut items)
}

/// Writes the tree of checksums. Where files have none, it is empty.
fn write_sums<D: Disk, P: PieceList>(
    row: &mut Trees,
    disk: &mut D,
    w: &Writing<'_, P>,
) -> Result<Root, WriteAnswer>
    requires row { IsSlotRow row.old }
    requires open { D.opened disk.old ≡ Some Access.Write }
    requires in_range { All (λ a. a + row.old.form.nodesize ≤ 4096 * D.size disk.old) row.old.slots }
    requires pieces { ArePieces (P.pieces w.now.pieces.now) }
    requires places { pieces_end (P.pieces w.now.pieces.now) ≤ D.size disk.old }
    ensures row { OnOk result (IsSlotRow row.new) }
    ensures same { (row.new.form ≡ row.old.form) × (row.new.slots ≡ row.old.slots) }
    ensures taken { IfOk result (λ root. row.new.taken ≡ row.old.taken + root.nodes) }
    ensures tree { OverTold D.tells (D.blocks disk.old) (λ other. LieApart (IsInPieces (P.pieces w.now.pieces.now)) row.old.form.nodesize row.old.slots → AreWritable row.old.form.nodesize (drop row.old.taken row.old.slots) (if w.now.options.now.datasum then sum_items w.now.options.now.sums other (P.pieces w.now.pieces.now) else [])
        → MatchResult result (λ root. Adds (reads (D.history disk.new)) row.old row.new CSUM_TREE (if w.now.options.now.datasum then sum_items w.now.options.now.sums other (P.pieces w.now.pieces.now) else []) root) IsFailure) }
    ensures open { D.opened disk.new ≡ D.opened disk.old }
    ensures size { D.size disk.new ≡ D.size disk.old }
    ensures borrow { D.borrow disk.new ≡ D.borrow disk.old }
    ensures only { IsTrue D.tells → WritesOnly (λ b _. IsInSlots row.old.form.nodesize (drop row.old.taken row.old.slots) b) (D.history disk.old) (D.history disk.new) }
    ensures cause { HasCauseOf WriteAnswer.Fault (D.faults disk.old) (D.faults disk.new) result }
{
    if !w.options.datasum {
        return write_empty(row, disk, w, CSUM_TREE);
    }
    let mut items = SumItems {
        sums: checksums(w.alloc, w.pieces, w.options.sums)?,
        pieces: w.pieces,
    };
    row.write(w.alloc, disk, CSUM_TREE, &mut items)
}

/// Writes the tree of this number without items.
fn write_empty<D: Disk, P: PieceList>(
    row: &mut Trees,
    disk: &mut D,
    w: &Writing<'_, P>,
    number: u64,
) -> Result<Root, WriteAnswer>
    requires row { IsSlotRow row.old }
    requires open { D.opened disk.old ≡ Some Access.Write }
    requires in_range { All (λ a. a + row.old.form.nodesize ≤ 4096 * D.size disk.old) row.old.slots }
    ensures row { OnOk result (IsSlotRow row.new) }
    ensures same { (row.new.form ≡ row.old.form) × (row.new.slots ≡ row.old.slots) }
    ensures taken { IfOk result (λ root. row.new.taken ≡ row.old.taken + root.nodes) }
    ensures tree { OverTold D.tells (D.blocks disk.old) (λ other. (none : List Item) → [] ≡ none → AreWritable row.old.form.nodesize (drop row.old.taken row.old.slots) none
        → MatchResult result (λ root. Adds (reads (D.history disk.new)) row.old row.new number none root) IsFailure) }
    ensures open { D.opened disk.new ≡ D.opened disk.old }
    ensures size { D.size disk.new ≡ D.size disk.old }
    ensures borrow { D.borrow disk.new ≡ D.borrow disk.old }
    ensures only { IsTrue D.tells → WritesOnly (λ b _. IsInSlots row.old.form.nodesize (drop row.old.taken row.old.slots) b) (D.history disk.old) (D.history disk.new) }
    ensures cause { HasCauseOf WriteAnswer.Fault (D.faults disk.old) (D.faults disk.new) result }
{
    let none = ItemList::new(w.alloc);
    row.write(w.alloc, disk, number, &mut ListItems::new(&none))
}

/// Writes the device tree.
fn write_devices<D: Disk, P: PieceList>(
    row: &mut Trees,
    disk: &mut D,
    w: &Writing<'_, P>,
) -> Result<Root, WriteAnswer>
    requires row { IsSlotRow row.old }
    requires open { D.opened disk.old ≡ Some Access.Write }
    requires in_range { All (λ a. a + row.old.form.nodesize ≤ 4096 * D.size disk.old) row.old.slots }
    requires small { w.now.volume.now.sup.blocks ≤ 2 ^ 29 }
    requires units { FitsVolume w.now.plan.now w.now.volume.now.sup.blocks }
    ensures row { OnOk result (IsSlotRow row.new) }
    ensures same { (row.new.form ≡ row.old.form) × (row.new.slots ≡ row.old.slots) }
    ensures taken { IfOk result (λ root. row.new.taken ≡ row.old.taken + root.nodes) }
    ensures tree { OverTold D.tells (D.blocks disk.old) (λ other. (chunks : List PlannedChunkOf) → AreChunks w.now.plan.now w.now.volume.now.sup.blocks chunks → AreWritable row.old.form.nodesize (drop row.old.taken row.old.slots) (device_items w.now.form.ids chunks)
        → MatchResult result (λ root. Adds (reads (D.history disk.new)) row.old row.new DEV_TREE (device_items w.now.form.ids chunks) root) IsFailure) }
    ensures open { D.opened disk.new ≡ D.opened disk.old }
    ensures size { D.size disk.new ≡ D.size disk.old }
    ensures borrow { D.borrow disk.new ≡ D.borrow disk.old }
    ensures only { IsTrue D.tells → WritesOnly (λ b _. IsInSlots row.old.form.nodesize (drop row.old.taken row.old.slots) b) (D.history disk.old) (D.history disk.new) }
    ensures cause { HasCauseOf WriteAnswer.Fault (D.faults disk.old) (D.faults disk.new) result }
{
    let list = devices(w.alloc, w.plan, w.volume.sup().blocks, &w.form.ids)?;
    row.write(w.alloc, disk, DEV_TREE, &mut ListItems::new(&list))
}

/// Writes the chunk tree.
pub fn write_chunks<D: Disk, P: PieceList>(
    row: &mut Trees,
    disk: &mut D,
    w: &Writing<'_, P>,
) -> Result<Root, WriteAnswer>
    requires row { IsSlotRow row.old }
    requires open { D.opened disk.old ≡ Some Access.Write }
    requires in_range { All (λ a. a + row.old.form.nodesize ≤ 4096 * D.size disk.old) row.old.slots }
    requires small { w.now.volume.now.sup.blocks ≤ 2 ^ 29 }
    requires units { FitsVolume w.now.plan.now w.now.volume.now.sup.blocks }
    ensures row { OnOk result (IsSlotRow row.new) }
    ensures same { (row.new.form ≡ row.old.form) × (row.new.slots ≡ row.old.slots) }
    ensures taken { IfOk result (λ root. row.new.taken ≡ row.old.taken + root.nodes) }
    ensures tree { OverTold D.tells (D.blocks disk.old) (λ other. (chunks : List PlannedChunkOf) → AreChunks w.now.plan.now w.now.volume.now.sup.blocks chunks → AreWritable row.old.form.nodesize (drop row.old.taken row.old.slots) (chunk_items w.now.form.ids w.now.volume.now.sup.blocks chunks)
        → MatchResult result (λ root. Adds (reads (D.history disk.new)) row.old row.new CHUNK_TREE (chunk_items w.now.form.ids w.now.volume.now.sup.blocks chunks) root) IsFailure) }
    ensures open { D.opened disk.new ≡ D.opened disk.old }
    ensures size { D.size disk.new ≡ D.size disk.old }
    ensures borrow { D.borrow disk.new ≡ D.borrow disk.old }
    ensures only { IsTrue D.tells → WritesOnly (λ b _. IsInSlots row.old.form.nodesize (drop row.old.taken row.old.slots) b) (D.history disk.old) (D.history disk.new) }
    ensures cause { HasCauseOf WriteAnswer.Fault (D.faults disk.old) (D.faults disk.new) result }
{
    let list = chunks(w.alloc, w.plan, w.volume.sup().blocks, &w.form.ids)?;
    row.write(w.alloc, disk, CHUNK_TREE, &mut ListItems::new(&list))
}
