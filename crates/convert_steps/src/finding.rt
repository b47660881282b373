// The format of a disk.
ghost use Rattle.std.specs.Prelude.{◌≡◌, IfOk};
ghost use Rattle.command_answers.specs.outside.Fault.{HasCause};
ghost use Rattle.command_answers.specs.outside.History.{OverTold};
ghost use Rattle.convert_steps.specs.Found.{IsFoundOn};

use btr_super::btrfs_format::block::SUPER_BLOCK;
use command_answers::{Block, BlockSource, Fault};
use reiser_volume::{Format, format_of};

/// Block 16 of a disk, zeros where there is none, and the format of the volume by it.
#[derive(Clone, Copy, Debug)]
pub struct FormatFound {
    pub format: Format,
    pub block: Block,
}

/// The format of block 16; without that block it is neither.
pub fn find_format<S: BlockSource>(src: &mut S) -> Result<FormatFound, Fault>
    ensures kept { S.kept src.old src.new }
    ensures found { OverTold S.tells (S.blocks src.old) (λ image. IfOk result (IsFoundOn image)) }
    ensures cause { HasCause (S.faults src.old) (S.faults src.new) result }
{
    let mut block = Block::zero();
    if src.len() <= SUPER_BLOCK {
        return Ok(FormatFound {
            format: Format::Neither,
            block,
        });
    }
    src.read(SUPER_BLOCK, &mut block)?;
    Ok(FormatFound {
        format: format_of(&block),
        block,
    })
}
