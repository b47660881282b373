ghost use Rattle.std.specs.Prelude.{◌≡◌, ◌≤◌, List, IfOk, IfErr};
ghost use Rattle.reiser_volume_objects.specs.reiser_walk.Items.{ReiserItem};
ghost use Rattle.reiser_volume_files.specs.Bytes.{tail_block, target_bytes};
ghost use Rattle.reiser_volume_objects.specs.refusals.declared.answer.VolAnswer.{VolAnswer as Answer};

use fs_rows::Name;
use reiser_volume_files::target;
use reiser_volume_objects::{Block, VolAnswer};
use std::alloc::Global;

/// The target of a symlink of `size` bytes, whose bytes are in a block.
pub fn name_in(alloc: Global, block: &Block, size: u64) -> Result<Name, VolAnswer>
    requires { size ≤ 4096 }
    ensures name { (items : List ReiserItem) → block.now.bytes ≡ tail_block items size 0 → IfOk result (λ name. name ≡ target_bytes items size) }
    ensures memory { IfErr result (λ e. e ≡ Answer.Memory) }
{
    let name = Name::new(alloc, target(block, size as usize))?;
    Ok(name)
}
