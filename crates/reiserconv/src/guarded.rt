// A disk to which nothing is written before somebody lets it.
ghost use Rattle.std.specs.Prelude.{◌≡◌, refl, false, []};
ghost use Rattle.outside.specs.Fault.{HasCause};
ghost use Rattle.outside.specs.History.{nothing};
ghost use Rattle.host_edge.specs.FileDisk.{tells_nothing};

use outside::{Access, Block, BlockNo, BlockSource, Disk, Fault};

/// Who lets a command write.
pub trait Guard {
    /// Whether a block may be written now. It is asked before each.
    fn lets_write(&mut self) -> bool;
}

/// A disk with a guard. A write that the guard does not let through fails, and the disk stays as it is; each other call is that of the disk.
/// What fails is counted.
#[derive(Drop)]
pub struct GuardedDisk<D: Disk + Drop, G: Guard + Drop> {
    pub disk: D,
    guard: Option<G>,
    is_stopped: bool,
    faults: u64,
}

impl<D: Disk + Drop, G: Guard + Drop> GuardedDisk<D, G> {
    /// A disk with this guard. Without one each write goes through.
    pub fn new(disk: D, guard: Option<G>) -> GuardedDisk<D, G>
        ensures { result.disk ≡ disk }
    {
        GuardedDisk {
            disk,
            guard,
            is_stopped: false,
            faults: 0,
        }
    }

    /// Whether a write was not let through.
    pub fn is_stopped(&self) -> bool {
        self.is_stopped
    }

    fn lets_write(&mut self) -> bool
        ensures disk { self.new.disk ≡ self.old.disk }
        ensures faults { self.new.faults ≡ self.old.faults }
    {
        let lets = match &mut self.guard {
            Some(guard) => guard.lets_write(),
            None => true,
        };
        if !lets {
            self.is_stopped = true;
        }
        lets
    }

    /// Counts a call if it failed.
    fn counted(&mut self, done: Result<(), Fault>) -> Result<(), Fault>
        ensures same { result ≡ done }
        ensures cause { HasCause self.old.faults self.new.faults result }
        ensures disk { self.new.disk ≡ self.old.disk }
    {
        match done {
            Ok(()) => Ok(()),
            Err(Fault) => {
                self.faults = self.faults.saturating_add(1);
                Err(Fault)
            }
        }
    }
}

impl<D: Disk + Drop, G: Guard + Drop> BlockSource for GuardedDisk<D, G> {
    ghost tells = { false };

    ghost blocks = { λ d. [] };

    ghost size = { λ d. D.size d.disk };

    ghost faults = { λ d. d.faults };

    ghost kept = { λ a b. D.kept a.disk b.disk };

    ghost kept_refl = { λ a. D.kept_refl a.disk };

    ghost kept_trans = { λ a b c first second. D.kept_trans a.disk b.disk c.disk first second };

    ghost kept_size = { λ a b kept. D.kept_size a.disk b.disk kept };

    ghost kept_blocks = { λ a b tells kept. refl };

    ghost size_is = { λ a tells. absurd (tells_nothing tells) };

    fn len(&self) -> u64 {
        self.disk.len()
    }

    fn read(&mut self, n: BlockNo, into: &mut Block) -> Result<(), Fault> {
        let done = self.disk.read(n, into);
        self.counted(done)
    }

    fn will_read(&mut self, told: Vec<BlockNo>) {
        self.disk.will_read(told);
    }
}

impl<D: Disk + Drop, G: Guard + Drop> Disk for GuardedDisk<D, G> {
    ghost history = { λ d. nothing };

    ghost opened = { λ d. D.opened d.disk };

    ghost borrow = { λ d. D.borrow d.disk };

    ghost wants = { D.wants };

    ghost kept_history = { λ a b tells kept. refl };

    ghost kept_opened = { λ a b kept. D.kept_opened a.disk b.disk kept };

    ghost kept_borrow = { λ a b kept. D.kept_borrow a.disk b.disk kept };

    ghost open_blocks = { λ a access tells is. absurd (tells_nothing tells) };

    ghost open_size = { λ a access tells is. absurd (tells_nothing tells) };

    ghost closed_size = { λ a is. D.closed_size a.disk is };

    fn open(&mut self, path: &str, access: Access) -> Result<(), Fault> {
        let done = self.disk.open(path, access);
        self.counted(done)
    }

    fn write(&mut self, n: BlockNo, from: &Block) -> Result<(), Fault> {
        let done = if self.lets_write() {
            self.disk.write(n, from)
        } else {
            Err(Fault)
        };
        self.counted(done)
    }

    fn sync(&mut self) -> Result<(), Fault> {
        let done = self.disk.sync();
        self.counted(done)
    }
}
