ghost use Rattle.std.specs.Prelude.{◌≡◌, ◌≤◌, ◌<◌, ◌+◌, ◌*◌, ◌^◌, ℕ, length, drop, Some, IsTrue, OnOk};
ghost use Rattle.fs_rows.specs.outside.Fault.{HasCause};
ghost use Rattle.fs_rows.specs.outside.History.{reads, WritesOnly};
ghost use Rattle.reiser_make.specs.Content.{IsSmallContent};
ghost use Rattle.reiser_make.specs.Inner.{level_nodes, root_level, leaf_at};
ghost use Rattle.reiser_make.specs.Layout.{
  IsUsage,
  IsUsed,
  laid_over,
  volume_blocks,
  system_part,
  system_block,
  data_part,
  data_of_name,
  data_of_file,
  leaf_part,
  inner_part,
  level_part,
  bitmap_part,
};
ghost use Rattle.reiser_make.specs.Leaf.{leaves, leaves_of, leaf_bytes};
ghost use Rattle.reiser_make.specs.Levels.{level_of};
ghost use Rattle.reiser_make.specs.Shape.{stored_block, stored_before, stored_of, stored_in};
ghost use Rattle.reiser_make.specs.Walk.{items_behind};

use crate::bitmap::Usage;
use crate::body::put_block;
use crate::inner::LeafWalk;
use crate::leaf::ItemPlace;
use crate::level::Level;
use crate::place::{FIRST, place};
use crate::sample::stored_of;
use crate::sample_entry::SampleEntry;
use crate::sample_plan::SamplePlan;
use fs_rows::{Access, Disk, Fault};
use reiser_items::Block;
use reiser_items::reiserfs_format::block::BITS_IN_BLOCK;

/// Writes all blocks of a sample volume, each once, and no other one.
pub fn write_volume<D: Disk>(plan: &SamplePlan, usage: &Usage, disk: &mut D) -> Result<(), Fault>
    requires usage { IsUsage plan.now.sample usage.now }
    requires open { D.opened disk.old ≡ Some Access.Write }
    requires inside { usage.now.blocks ≤ D.size disk.old }
    ensures open { D.opened disk.new ≡ D.opened disk.old }
    ensures size { D.size disk.new ≡ D.size disk.old }
    ensures only { IsTrue D.tells → WritesOnly (λ b _. IsUsed usage.now b) (D.history disk.old) (D.history disk.new) }
    ensures written { IsTrue D.tells → OnOk result (reads (D.history disk.new) ≡ laid_over (volume_blocks plan.now.sample usage.now.blocks) (reads (D.history disk.old))) }
    ensures cause { HasCause (D.faults disk.old) (D.faults disk.new) result }
{
    write_system(plan, usage, disk)?;
    write_data(plan, usage, disk)?;
    write_leaves(plan, usage, disk)?;
    write_inner(plan, usage, disk)?;
    write_bitmaps(usage, disk)?;
    Ok(())
}

/// Writes the blocks before the data: zeros for boot code, the superblock, the first bitmap block, and an empty journal.
fn write_system<D: Disk>(plan: &SamplePlan, usage: &Usage, disk: &mut D) -> Result<(), Fault>
    requires usage { IsUsage plan.now.sample usage.now }
    requires open { D.opened disk.old ≡ Some Access.Write }
    requires inside { usage.now.blocks ≤ D.size disk.old }
    ensures open { D.opened disk.new ≡ D.opened disk.old }
    ensures size { D.size disk.new ≡ D.size disk.old }
    ensures only { IsTrue D.tells → WritesOnly (λ b _. IsUsed usage.now b) (D.history disk.old) (D.history disk.new) }
    ensures written { IsTrue D.tells → OnOk result (reads (D.history disk.new) ≡ laid_over (system_part plan.now.sample usage.now.blocks) (reads (D.history disk.old))) }
    ensures cause { HasCause (D.faults disk.old) (D.faults disk.new) result }
{
    let mut block = Block::zero();
    for b in 0..FIRST {
        put_system(plan, usage, b, &mut block);
        disk.write(b as u64, &block)?;
    }
    Ok(())
}

/// Writes block `b` of those before the data into a block.
fn put_system(plan: &SamplePlan, usage: &Usage, b: u32, into: &mut Block)
    requires { IsUsage plan.now.sample usage.now }
    ensures { into.new.bytes ≡ system_block plan.now.sample usage.now.blocks b }
{
    if b == 16 {
        plan.put_super(usage, into);
    } else if b == 17 {
        usage.put_bitmap(0, into);
    } else {
        *into = Block::zero();
    }
}

/// Writes the whole blocks of all files.
fn write_data<D: Disk>(plan: &SamplePlan, usage: &Usage, disk: &mut D) -> Result<(), Fault>
    requires usage { IsUsage plan.now.sample usage.now }
    requires open { D.opened disk.old ≡ Some Access.Write }
    requires inside { usage.now.blocks ≤ D.size disk.old }
    ensures open { D.opened disk.new ≡ D.opened disk.old }
    ensures size { D.size disk.new ≡ D.size disk.old }
    ensures only { IsTrue D.tells → WritesOnly (λ b _. IsUsed usage.now b) (D.history disk.old) (D.history disk.new) }
    ensures written { IsTrue D.tells → OnOk result (reads (D.history disk.new) ≡ laid_over (data_part plan.now.sample) (reads (D.history disk.old))) }
    ensures cause { HasCause (D.faults disk.old) (D.faults disk.new) result }
{
    for i in 0..plan.sample.number() {
        write_file(plan, usage, i, disk)?;
    }
    Ok(())
}

/// Writes the whole blocks of the file of name `i`, if it has any.
fn write_file<D: Disk>(plan: &SamplePlan, usage: &Usage, i: u32, disk: &mut D) -> Result<(), Fault>
    requires usage { IsUsage plan.now.sample usage.now }
    requires name { i < length plan.now.sample.names }
    requires open { D.opened disk.old ≡ Some Access.Write }
    requires inside { usage.now.blocks ≤ D.size disk.old }
    ensures open { D.opened disk.new ≡ D.opened disk.old }
    ensures size { D.size disk.new ≡ D.size disk.old }
    ensures only { IsTrue D.tells → WritesOnly (λ b _. IsUsed usage.now b) (D.history disk.old) (D.history disk.new) }
    ensures written { IsTrue D.tells → OnOk result (reads (D.history disk.new) ≡ laid_over (data_of_name plan.now.sample i) (reads (D.history disk.old))) }
    ensures cause { HasCause (D.faults disk.old) (D.faults disk.new) result }
{
    match plan.sample.content(i) {
        SampleEntry::File { whole, sparse, .. } => write_blocks(
            plan, usage, i, whole, sparse, disk,
        ),
        SampleEntry::Name => Ok(()),
        SampleEntry::Symlink => Ok(()),
    }
}

/// Writes so many whole blocks of the file of name `i`, but for its holes.
fn write_blocks<D: Disk>(
    plan: &SamplePlan,
    usage: &Usage,
    i: u32,
    whole: u16,
    sparse: bool,
    disk: &mut D,
) -> Result<(), Fault>
    requires usage { IsUsage plan.now.sample usage.now }
    requires name { i < length plan.now.sample.names }
    requires whole { whole ≤ 20 }
    requires stored { stored_before plan.now.sample.names i + stored_of whole sparse ≤ stored_in plan.now.sample.names }
    requires open { D.opened disk.old ≡ Some Access.Write }
    requires inside { usage.now.blocks ≤ D.size disk.old }
    ensures open { D.opened disk.new ≡ D.opened disk.old }
    ensures size { D.size disk.new ≡ D.size disk.old }
    ensures only { IsTrue D.tells → WritesOnly (λ b _. IsUsed usage.now b) (D.history disk.old) (D.history disk.new) }
    ensures written { IsTrue D.tells → OnOk result (reads (D.history disk.new) ≡ laid_over (data_of_file plan.now.sample i whole sparse) (reads (D.history disk.old))) }
    ensures cause { HasCause (D.faults disk.old) (D.faults disk.new) result }
{
    let first = plan.sample.first(i);
    let mut block = Block::zero();
    for j in 0..stored_of(whole, sparse) {
        put_block(i, sparse, 4096 * stored_block(sparse, j), &mut block);
        disk.write(place(first + j as u32) as u64, &block)?;
    }
    Ok(())
}

/// The file block that is stored as the j-th of its file.
fn stored_block(sparse: bool, j: u16) -> u64
    ensures { result ≡ stored_block sparse j }
{
    if sparse { 2 * j as u64 } else { j as u64 }
}

/// Writes the leaves.
fn write_leaves<D: Disk>(plan: &SamplePlan, usage: &Usage, disk: &mut D) -> Result<(), Fault>
    requires usage { IsUsage plan.now.sample usage.now }
    requires open { D.opened disk.old ≡ Some Access.Write }
    requires inside { usage.now.blocks ≤ D.size disk.old }
    ensures open { D.opened disk.new ≡ D.opened disk.old }
    ensures size { D.size disk.new ≡ D.size disk.old }
    ensures only { IsTrue D.tells → WritesOnly (λ b _. IsUsed usage.now b) (D.history disk.old) (D.history disk.new) }
    ensures written { IsTrue D.tells → OnOk result (reads (D.history disk.new) ≡ laid_over (leaf_part plan.now.sample) (reads (D.history disk.old))) }
    ensures cause { HasCause (D.faults disk.old) (D.faults disk.new) result }
{
    let level = Level::leaves(plan.leaf_count);
    let mut block = Block::zero();
    let mut at = ItemPlace::first();
    for m in 0..plan.leaf_count {
        put_next_leaf(plan, &mut at, &mut block);
        disk.write(plan.node_place(&level, m) as u64, &block)?;
    }
    Ok(())
}

/// Writes the leaf that begins at a place into a block, and moves the place behind it.
fn put_next_leaf(plan: &SamplePlan, at: &mut ItemPlace, into: &mut Block)
    ensures bytes { (m : ℕ) → m < length (leaves plan.now.sample) → leaves_of (items_behind plan.now.sample at.old) ≡ drop m (leaves plan.now.sample)
        → into.new.bytes ≡ leaf_bytes plan.now.sample (leaf_at plan.now.sample m) }
    ensures stands { (m : ℕ) → m < length (leaves plan.now.sample) → leaves_of (items_behind plan.now.sample at.old) ≡ drop m (leaves plan.now.sample)
        → leaves_of (items_behind plan.now.sample at.new) ≡ drop (m + 1) (leaves plan.now.sample) }
{
    match plan.sample.pack(*at) {
        Some(leaf) => {
            plan.sample.put_leaf(*at, &leaf, into);
            *at = leaf.end;
        }
        None => {}
    }
}

/// Writes the levels above the leaves.
fn write_inner<D: Disk>(plan: &SamplePlan, usage: &Usage, disk: &mut D) -> Result<(), Fault>
    requires usage { IsUsage plan.now.sample usage.now }
    requires open { D.opened disk.old ≡ Some Access.Write }
    requires inside { usage.now.blocks ≤ D.size disk.old }
    ensures open { D.opened disk.new ≡ D.opened disk.old }
    ensures size { D.size disk.new ≡ D.size disk.old }
    ensures only { IsTrue D.tells → WritesOnly (λ b _. IsUsed usage.now b) (D.history disk.old) (D.history disk.new) }
    ensures written { IsTrue D.tells → OnOk result (reads (D.history disk.new) ≡ laid_over (inner_part plan.now.sample) (reads (D.history disk.old))) }
    ensures cause { HasCause (D.faults disk.old) (D.faults disk.new) result }
{
    let mut below = Level::leaves(plan.leaf_count);
    while below.nodes > 1 {
        write_level(plan, usage, &below, disk)?;
        below = below.above();
    }
    Ok(())
}

/// Writes the nodes above a level.
fn write_level<D: Disk>(
    plan: &SamplePlan,
    usage: &Usage,
    below: &Level,
    disk: &mut D,
) -> Result<(), Fault>
    requires usage { IsUsage plan.now.sample usage.now }
    requires level { below.now ≡ level_of plan.now.leaf_count below.now.number }
    requires low { 1 ≤ below.now.number }
    requires high { below.now.number ≤ 2 }
    requires many { 2 ≤ below.now.nodes }
    requires most { below.now.nodes ≤ 12123 }
    requires root { below.now.number < root_level plan.now.leaf_count }
    requires open { D.opened disk.old ≡ Some Access.Write }
    requires inside { usage.now.blocks ≤ D.size disk.old }
    ensures open { D.opened disk.new ≡ D.opened disk.old }
    ensures size { D.size disk.new ≡ D.size disk.old }
    ensures only { IsTrue D.tells → WritesOnly (λ b _. IsUsed usage.now b) (D.history disk.old) (D.history disk.new) }
    ensures written { IsTrue D.tells → OnOk result (reads (D.history disk.new) ≡ laid_over (level_part plan.now.sample below.now.number) (reads (D.history disk.old))) }
    ensures cause { HasCause (D.faults disk.old) (D.faults disk.new) result }
{
    let level = below.above();
    let mut walk = LeafWalk::new(plan);
    let mut block = Block::zero();
    for m in 0..level.nodes {
        plan.put_inner(below, m, &mut walk, &mut block);
        disk.write(plan.node_place(&level, m) as u64, &block)?;
    }
    Ok(())
}

/// Writes the bitmap blocks behind the first.
fn write_bitmaps<D: Disk>(usage: &Usage, disk: &mut D) -> Result<(), Fault>
    requires some { 1 ≤ usage.now.blocks }
    requires most { usage.now.blocks ≤ 2 ^ 29 }
    requires open { D.opened disk.old ≡ Some Access.Write }
    requires inside { usage.now.blocks ≤ D.size disk.old }
    ensures open { D.opened disk.new ≡ D.opened disk.old }
    ensures size { D.size disk.new ≡ D.size disk.old }
    ensures only { IsTrue D.tells → WritesOnly (λ b _. IsUsed usage.now b) (D.history disk.old) (D.history disk.new) }
    ensures written { IsTrue D.tells → OnOk result (reads (D.history disk.new) ≡ laid_over (bitmap_part usage.now.needed usage.now.blocks) (reads (D.history disk.old))) }
    ensures cause { HasCause (D.faults disk.old) (D.faults disk.new) result }
{
    let mut block = Block::zero();
    for k in 1..usage.bitmap_blocks() {
        usage.put_bitmap(k, &mut block);
        disk.write(BITS_IN_BLOCK * k as u64, &block)?;
    }
    Ok(())
}
