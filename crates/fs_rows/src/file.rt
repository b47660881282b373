ghost use Rattle.std.specs.Prelude.{◌≤◌, ◌-◌, ◌*◌};

use crate::Marker;
use sink_text::Block;

/// The bytes of a file below its size, as far as they were put, in order. What is not put is zeros.
///
/// It holds one block of the file, which is gathered from bytes or put whole; what is left out costs nothing.
#[derive(Drop)]
pub struct FileBytes {
    /// The blocks of the file before the one in hand.
    pub(crate) marker: Marker,
    /// The block in hand.
    pub(crate) block: Block,
    /// Its number in the file; it is the first block, or begins below the size.
    pub(crate) next: u64,
    /// The size of the file in bytes.
    pub(crate) size: u64,
    ghost within: { 4096 * next ≤ size - 1 },
}
