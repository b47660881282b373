ghost use Rattle.std.specs.Prelude.{◌≡◌, ◌≤◌};
ghost use Rattle.reiser_bitmap.specs.outside.Fault.{HasCause};

use reiser_bitmap::{BlockSource, Fault, Memory};
use reiser_items::{Block, BlockNo, InnerView};
use std::alloc::Global;

/// How many nodes of a level are told at most: 16 GiB, whose numbers take 32 MiB of memory.
const MOST: usize = 1 << 22;

/// Says to a source which leaves a walk of a tree will read. The root has the level `height` - 1.
///
/// For that it reads the inner nodes alone, level by level from the root on; leaves are some 170 times as many. What it
/// says is a hint, so no rule of the tree is looked at here: a node that is no inner node of its level has no children,
/// and one that lies behind the first `blocks` blocks is not read. Of a level it takes at most 2^22 nodes and no more than
/// there are blocks, so it ends soon whatever the tree is. Without memory nothing is said.
pub fn tell_leaves<S: BlockSource>(
    alloc: Global,
    src: &mut S,
    root: BlockNo,
    height: u16,
    blocks: u64,
) -> Result<(), Fault>
    requires { blocks ≤ S.size src.old }
    ensures kept { S.kept src.old src.new }
    ensures cause { HasCause (S.faults src.old) (S.faults src.new) result }
{
    let mut nodes = Vec::new(alloc);
    if nodes.push(root).is_err() {
        return Ok(());
    }
    for level in (2..height).rev() {
        tell_nodes(src, &nodes);
        nodes = children(alloc, src, &nodes, level, blocks)?;
    }
    src.will_read(nodes);
    Ok(())
}

/// Says to a source that these nodes come next; without memory nothing is said.
fn tell_nodes<S: BlockSource>(src: &mut S, nodes: &Vec<BlockNo>)
    ensures kept { S.kept src.old src.new }
    ensures faults { S.faults src.new ≡ S.faults src.old }
{
    if let Ok(told) = nodes.clone() {
        src.will_read(told);
    }
}

/// The children of these nodes of a level, in the order of keys; without memory none.
fn children<S: BlockSource>(
    alloc: Global,
    src: &mut S,
    nodes: &Vec<BlockNo>,
    level: u16,
    blocks: u64,
) -> Result<Vec<BlockNo>, Fault>
    requires { blocks ≤ S.size src.old }
    ensures kept { S.kept src.old src.new }
    ensures cause { HasCause (S.faults src.old) (S.faults src.new) result }
{
    let mut found = Vec::new(alloc);
    let mut block = Block::zero();
    for node in nodes {
        if *node >= blocks {
            continue;
        }
        src.read(*node, &mut block)?;
        if add_children(&mut found, &block, level, blocks).is_err() {
            return Ok(Vec::new(alloc));
        }
    }
    Ok(found)
}

/// Adds the children of a node, if it is an inner node of this level, as long as there are fewer than so many blocks.
fn add_children(
    found: &mut Vec<BlockNo>,
    block: &Block,
    level: u16,
    blocks: u64,
) -> Result<(), Memory> {
    let Some(node) = InnerView::read(block, level) else {
        return Ok(());
    };
    for i in 0..node.count() {
        if found.len() < MOST && (found.len() as u64) < blocks {
            found.push(node.child(i))?;
        }
    }
    Ok(())
}
