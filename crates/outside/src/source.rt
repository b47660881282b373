ghost use Rattle.std.specs.Prelude.{◌≡◌, ◌<◌, ℕ, List, Bool, length, IsTrue, OnOk};
ghost use Rattle.outside.specs.Fault.{HasCause};
ghost use Rattle.outside.specs.History.{block_at};

use crate::Fault;
use vol_block::{Block, BlockNo};

/// Blocks that can be read.
///
/// A type of source tells what it holds, or tells nothing as a real file does; what contracts say of contents holds
/// of those that tell. Every clause on `kept` lets the owner of a source know that a call only read it.
pub trait BlockSource {
    /// Whether sources of this type tell what they hold. A real file doesn't.
    ghost tells: { Bool };

    /// The blocks that reads give, for a type that tells them.
    ghost blocks: { Self → List (List ℕ) };

    /// How many blocks can be read.
    ghost size: { Self → ℕ };

    /// How often a call has failed.
    ghost faults: { Self → ℕ };

    /// Nothing but reads lies between the two states.
    ghost kept: { Self → Self → Type 0 };

    /// The number of whole blocks; of a disk that is not open 0.
    fn len(&self) -> u64
        ensures { result ≡ size self.now };

    /// Reads block `n`. After a fault `into` is any block.
    fn read(&mut self, n: BlockNo, into: &mut Block) -> Result<(), Fault>
        requires { n < size self.old }
        ensures kept { kept self.old self.new }
        ensures block { IsTrue tells → OnOk result (into.new.bytes ≡ block_at (blocks self.old) n) }
        ensures cause { HasCause (faults self.old) (faults self.new) result };

    /// Says which blocks will be read next, in the order in which they will be. What was said before counts no more.
    ///
    /// It is a hint, by which a source may have them at hand sooner: it fails never, and no read gives another block or
    /// another fault for it. The blocks need not be read, other ones may be, and a number may lie past the end.
    fn will_read(&mut self, told: Vec<BlockNo>)
        ensures kept { kept self.old self.new }
        ensures faults { faults self.new ≡ faults self.old };

    ghost kept_refl: { (a : Self) → kept a a };

    ghost kept_trans: { (a b c : Self) → kept a b → kept b c → kept a c };

    ghost kept_size: { (a b : Self) → kept a b → size b ≡ size a };

    ghost kept_blocks: { (a b : Self) → IsTrue tells → kept a b → blocks b ≡ blocks a };

    ghost size_is: { (a : Self) → IsTrue tells → size a ≡ length (blocks a) };
}
