ghost use Rattle.std.specs.Prelude.{◌≡◌, ◌<◌, ◌/◌, IfSome, OnOk};
ghost use Rattle.std.specs.Option.{option_map};
ghost use Rattle.btr_reader_walk.specs.outside.Fault.{HasCause};
ghost use Rattle.btr_reader_walk.specs.outside.History.{OverTold};
ghost use Rattle.btr_reader_walk.specs.Map.{place};
ghost use Rattle.btr_reader_walk.specs.Walks.{LieOn};
ghost use Rattle.btr_reader_contents.specs.Blocks.{block_or_zeros};

use btr_reader_walk::{Block, BlockNo, BlockSource, Fault, MapRange, place};

/// The block of a device of `device` blocks that holds an address in bytes; None where that is in no chunk.
fn block_of(ranges: &[MapRange], address: u128, device: u64) -> Option<BlockNo>
    requires { LieOn device ranges.now }
    ensures block { result ≡ option_map (λ p. p / 4096) (place ranges.now address) }
    ensures within { IfSome result (λ n. n < device) }
{
    match place(ranges, address) {
        Some(at) => Some((at / 4096) as u64),
        None => None,
    }
}

/// Reads the block that holds an address in bytes, or gives zeros where that is in no chunk. After a fault `into` is any
/// block.
pub fn read_place<S: BlockSource>(
    src: &mut S,
    ranges: &[MapRange],
    address: u128,
    into: &mut Block,
) -> Result<(), Fault>
    requires inside { LieOn (S.size src.old) ranges.now }
    ensures kept { S.kept src.old src.new }
    ensures cause { HasCause (S.faults src.old) (S.faults src.new) result }
    ensures block { OverTold S.tells (S.blocks src.old) (λ image. OnOk result (into.new.bytes ≡ block_or_zeros image (place ranges.now address))) }
{
    let device = src.len();
    match block_of(ranges, address, device) {
        Some(block) => src.read(block, into),
        None => {
            *into = Block::zero();
            Ok(())
        }
    }
}
