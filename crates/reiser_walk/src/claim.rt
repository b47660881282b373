ghost use Rattle.std.specs.Prelude.{◌≡◌, ◌≤◌, ◌<◌, ◌∷◌, [], ℕ, true, List, length, filter, OnOk, IfErr};
ghost use Rattle.reiser_walk.specs.Bodies.{is_body};
ghost use Rattle.reiser_walk.specs.Items.{blocks_named, held_by, is_no_hole};
ghost use Rattle.reiser_walk.specs.Rules.{reach_damage, reach_damages};
ghost use Rattle.reiser_walk.specs.Answers.{IsTreeRefusal};
ghost use Rattle.reiser_walk.specs.Marks.{MarksSeen, Claims, seen_after, unmarked};

use crate::block_pointer::BlockPointer;
use crate::bodies::is_save_link;
use crate::reiser_tree::ReiserTree;
use reiser_bitmap::{Bitmap, Rule, VolumeRefusal, is_system};
use reiser_items::{BlockNo, ItemHead, ItemKind, Pointers};

/// Marks a block as reached, if it may be.
pub fn claim(
    reached: &mut Bitmap,
    tree: &ReiserTree,
    map: &Bitmap,
    pointer: BlockPointer,
) -> Result<(), VolumeRefusal>
    requires same { length reached.old ≡ length map.now }
    ensures size { length reached.new ≡ length reached.old }
    ensures claimed { (seen : List ℕ) → MarksSeen reached.old seen → Claims (reach_damage tree.now map.now seen pointer) reached.new (pointer.block ∷ seen) result }
    ensures rules { IfErr result IsTreeRefusal }
    ensures within { OnOk result (pointer.block < length map.now) }
    ensures no_more { unmarked reached.new ≤ unmarked reached.old }
    ensures fewer { OnOk result (unmarked reached.new < unmarked reached.old) }
{
    let block = pointer.block;
    if block >= map.len() {
        return Err(VolumeRefusal::Damaged {
            block: pointer.holder,
            rule: Rule::BlockRange,
        });
    }
    if !map.is_used(block) {
        return Err(VolumeRefusal::Damaged {
            block,
            rule: Rule::BlockFree,
        });
    }
    if is_system(block, tree.journal_first, tree.journal_size) || reached.is_used(block) {
        return Err(VolumeRefusal::Damaged {
            block,
            rule: Rule::BlockTwice,
        });
    }
    reached.insert(block);
    Ok(())
}

/// The same of a pointer that may be a hole.
fn claim_unless_hole(
    reached: &mut Bitmap,
    tree: &ReiserTree,
    map: &Bitmap,
    pointer: BlockPointer,
) -> Result<(), VolumeRefusal>
    requires same { length reached.old ≡ length map.now }
    ensures size { length reached.new ≡ length reached.old }
    ensures claimed { (seen : List ℕ) → MarksSeen reached.old seen →
        Claims (reach_damages tree.now map.now seen (held_by pointer.holder (filter is_no_hole (pointer.block ∷ [])))) reached.new
        (seen_after seen (held_by pointer.holder (filter is_no_hole (pointer.block ∷ [])))) result }
    ensures rules { IfErr result IsTreeRefusal }
    ensures fewer { unmarked reached.new ≤ unmarked reached.old }
{
    if pointer.block == 0 {
        return Ok(());
    }
    claim(reached, tree, map, pointer)
}

/// Marks the blocks of a list of pointers.
fn claim_all(
    reached: &mut Bitmap,
    tree: &ReiserTree,
    map: &Bitmap,
    blocks: &Pointers<'_>,
    holder: BlockNo,
) -> Result<(), VolumeRefusal>
    requires same { length reached.old ≡ length map.now }
    ensures size { length reached.new ≡ length reached.old }
    ensures claimed { (seen : List ℕ) → MarksSeen reached.old seen →
        Claims (reach_damages tree.now map.now seen (held_by holder (filter is_no_hole blocks.now))) reached.new
        (seen_after seen (held_by holder (filter is_no_hole blocks.now))) result }
    ensures rules { IfErr result IsTreeRefusal }
    ensures fewer { unmarked reached.new ≤ unmarked reached.old }
{
    for i in 0..blocks.len() {
        let block = blocks.get(i) as u64;
        match claim_unless_hole(reached, tree, map, BlockPointer { block, holder }) {
            Ok(()) => {}
            Err(e) => return Err(e),
        }
    }
    Ok(())
}

/// Marks the blocks that an item names, whose body fits its head.
pub fn claim_named(
    reached: &mut Bitmap,
    tree: &ReiserTree,
    map: &Bitmap,
    head: &ItemHead,
    body: &[u8],
    holder: BlockNo,
) -> Result<(), VolumeRefusal>
    requires same { length reached.old ≡ length map.now }
    requires fits { is_body head.now body.now ≡ true }
    ensures size { length reached.new ≡ length reached.old }
    ensures claimed { (seen : List ℕ) → MarksSeen reached.old seen →
        Claims (reach_damages tree.now map.now seen (held_by holder (blocks_named head.now body.now))) reached.new
        (seen_after seen (held_by holder (blocks_named head.now body.now))) result }
    ensures rules { IfErr result IsTreeRefusal }
    ensures fewer { unmarked reached.new ≤ unmarked reached.old }
{
    match head.kind {
        ItemKind::Indirect => {}
        _ => return Ok(()),
    }
    if is_save_link(head) {
        return Ok(());
    }
    match Pointers::read(body) {
        Some(blocks) => claim_all(reached, tree, map, &blocks, holder),
        None => unreachable!(),
    }
}
