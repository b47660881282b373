ghost use Rattle.std.specs.Prelude.{◌≡◌, ◌≤◌, ◌+◌, ◌*◌, ◌/◌, ◌%◌, Some, length, take, drop, IsTrue, OnOk};
ghost use Rattle.btr_node.specs.outside.Fault.{HasCause};
ghost use Rattle.btr_node.specs.outside.History.{reads, WritesOnly};
ghost use Rattle.btr_tree.specs.Writing.{IsInNode, HoldBytes};

use btr_node::{Access, Block, Disk, Fault};

/// The bytes of a block.
const BLOCK_SIZE: usize = 4096;

/// Writes the bytes of a node, which are whole blocks, at an offset of the device, in bytes.
pub fn write_node<D: Disk>(disk: &mut D, offset: u64, bytes: &[u8]) -> Result<(), Fault>
    requires open { D.opened disk.old ≡ Some Access.Write }
    requires aligned { offset % 4096 ≡ 0 }
    requires in_range { offset + length bytes.now ≤ 4096 * D.size disk.old }
    ensures open { D.opened disk.new ≡ D.opened disk.old }
    ensures size { D.size disk.new ≡ D.size disk.old }
    ensures borrow { D.borrow disk.new ≡ D.borrow disk.old }
    ensures only { IsTrue D.tells → WritesOnly (λ b _. IsInNode (length bytes.now) offset b) (D.history disk.old) (D.history disk.new) }
    ensures written { IsTrue D.tells → OnOk result (HoldBytes (reads (D.history disk.new)) (offset / 4096) (length bytes.now / 4096) bytes.now) }
    ensures cause { HasCause (D.faults disk.old) (D.faults disk.new) result }
{
    for j in 0..bytes.len() / BLOCK_SIZE {
        let block = block_of(bytes, j);
        disk.write(offset / BLOCK_SIZE as u64 + j as u64, &block)?;
    }
    Ok(())
}

/// Block `j` of some bytes.
fn block_of(bytes: &[u8], j: usize) -> Block
    requires { 4096 * j + 4096 ≤ length bytes.now }
    ensures { result.bytes ≡ take 4096 (drop (4096 * j) bytes.now) }
{
    let mut block = Block::zero();
    block
        .bytes
        .copy_from_slice(&bytes[BLOCK_SIZE * j..BLOCK_SIZE * j + BLOCK_SIZE]);
    block
}
