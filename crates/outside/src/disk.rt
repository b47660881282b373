ghost use Rattle.std.specs.Prelude.{◌≡◌, ◌<◌, ℕ, List, length, Option, Some, None, IsTrue, OnOk, OnErr};
ghost use Rattle.outside.specs.declared.disk.Access.{Access};
ghost use Rattle.outside.specs.declared.disk.Access.TheVariants.{Write};
ghost use Rattle.outside.specs.Fault.{HasCause};
ghost use Rattle.outside.specs.History.{History, reads, WritesBlock, Syncs};

use crate::{BlockSource, Fault};
use vol_block::{Block, BlockNo};

/// What a disk is opened for.
#[derive(Clone, Copy, Debug, PartialEq, Eq)]
pub enum Access {
    /// For reading alone.
    Read,
    /// For reading and writing.
    Write,
}

/// A device whose writes wait until a sync.
///
/// A crash leaves each sector of 512 bytes, by itself and whole, as at the last sync that succeeded or as any value has
/// it that was written to its block since. A write that failed counts as written or as not made, and a failed sync
/// settles nothing.
/// `len`, `open` and `read` change neither the blocks nor what a crash may leave.
pub trait Disk: BlockSource {
    /// What was done to the device, for a type that tells it.
    ghost history: { Self → History };

    /// What it is open for; before `open` nothing.
    ghost opened: { Self → Option Access };

    /// The borrow that it holds, by its name in contracts: a cache has that of its disk, and a device none. A call that
    /// keeps it lets the owner of what was borrowed know it again.
    ghost borrow: { Self → ℕ };

    /// The paths that it may be asked to open, and for what.
    ghost wants: { List ℕ → Access → Type 0 };

    /// Opens the device at a path. After a fault it is not open.
    fn open(&mut self, path: &str, access: Access) -> Result<(), Fault>
        requires closed { opened self.old ≡ None }
        requires wanted { wants path.now access }
        ensures opened { OnOk result (opened self.new ≡ Some access) }
        ensures failed { OnErr result (opened self.new ≡ None) }
        ensures borrow { borrow self.new ≡ borrow self.old }
        ensures unchanged { IsTrue Self.tells → history self.new ≡ history self.old }
        ensures cause { HasCause (Self.faults self.old) (Self.faults self.new) result };

    /// Writes block `n`. After a fault it may have been written or not; all other blocks stay.
    fn write(&mut self, n: BlockNo, from: &Block) -> Result<(), Fault>
        requires open { opened self.old ≡ Some Write }
        requires in_range { n < Self.size self.old }
        ensures open { opened self.new ≡ opened self.old }
        ensures size { Self.size self.new ≡ Self.size self.old }
        ensures borrow { borrow self.new ≡ borrow self.old }
        ensures effect { IsTrue Self.tells → WritesBlock (history self.old) n from.now.bytes result (history self.new) }
        ensures cause { HasCause (Self.faults self.old) (Self.faults self.new) result };

    /// After it a crash leaves what reads give. After a fault it may leave what it might have left before.
    fn sync(&mut self) -> Result<(), Fault>
        requires { opened self.old ≡ Some Write }
        ensures open { opened self.new ≡ opened self.old }
        ensures size { Self.size self.new ≡ Self.size self.old }
        ensures borrow { borrow self.new ≡ borrow self.old }
        ensures effect { IsTrue Self.tells → Syncs (history self.old) result (history self.new) }
        ensures cause { HasCause (Self.faults self.old) (Self.faults self.new) result };

    ghost kept_history: { (a b : Self) → IsTrue Self.tells → Self.kept a b → history b ≡ history a };

    ghost kept_opened: { (a b : Self) → Self.kept a b → opened b ≡ opened a };

    ghost kept_borrow: { (a b : Self) → Self.kept a b → borrow b ≡ borrow a };

    ghost open_blocks: { (a : Self) (access : Access) → IsTrue Self.tells → opened a ≡ Some access → Self.blocks a ≡ reads (history a) };

    ghost open_size: { (a : Self) (access : Access) → IsTrue Self.tells → opened a ≡ Some access → Self.size a ≡ length (reads (history a)) };

    ghost closed_size: { (a : Self) → opened a ≡ None → Self.size a ≡ 0 };
}
