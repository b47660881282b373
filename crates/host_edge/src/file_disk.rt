ghost use Rattle.std.specs.Prelude.{◌≡◌, ◌≤◌, None, IfOk, refl, false, []};
ghost use Rattle.outside.specs.Fault.{Rose};
ghost use Rattle.outside.specs.History.{nothing};
ghost use Rattle.host_edge.specs.FileDisk.{Kept, opened_for, length_of, kept_refl, kept_trans, closed_length, tells_nothing};

use crate::caches::{CACHES, drop_caches};
use crate::opened::{FailedWrite, Opened};
use crate::told::ToldBlocks;
use crate::trouble::{Cause, DiskCall, Trouble};
use crate::{FileIdentity, Signature, Use};
use host_edge_progress::{StatusLine, Task, Watch};
use outside::btrfs_format::block::SUPER_BLOCK;
use outside::{Access, Block, BlockNo, BlockSource, Disk, Fault, Format, format_of};
use std::fs::{File, Files, OpenOptions};
use std::io::ErrorKind;
use std::os::unix::fs::FileTypeExt;
use std::time::Clock;
use std::{fs, io};

/// A file or a device as a disk, read and written a whole block at a time at its place.
///
/// Its length is what seeking to its end gives, so that a block device has its own; a last part of less than a block
/// is no block. Each call of the system that fails is counted, and so is a read or a write that ends early.
///
/// Only a plain file or a block device is opened. For writing it is not opened where it is in use: where it is mounted,
/// swapped to, or below another device, where that is true of one of its partitions or of the device that it is a
/// partition of, where it is the file of a loop device, or where another program holds a lock on it; nor where it is a block device and the system
/// does not tell whether it is in use; nor where it is read-only. Each of these counts as a failure too. Why the last failure came is kept.
///
/// Once a block device is open for writing, what the system keeps of it in memory is dropped, where the system lets the program do so: blocks that an
/// earlier program wrote in vain may be among it. The disk has to be opened first, so that a write that fails from then on is told by its next sync.
///
/// Where all that it holds is to be overwritten ([`FileDisk::expect_blank`]), it is not opened for writing either where something lies there that the
/// rest of the program does not know: a table of partitions, another file system, swap space, a member of a RAID and the like. The rest of the
/// program looks by itself for volumes of ReiserFS and Btrfs.
///
/// On a terminal it shows how far the command is ([`FileDisk::expect`]).
///
/// Of the blocks that it is told will be read, those of a window of at most 64 MiB are read ahead in ascending order, once the reads reach the
/// window, so that the system has them in memory when they are asked for. A failure there is none of the disk's: the block is read again where it
/// is asked for. After one nothing more is read ahead of what was told. What is read ahead counts for the line on the terminal as it comes in.
#[derive(Drop)]
pub struct FileDisk<'a, R: Files<File = File> + AllocGlobal + Clock + Clone + Drop> {
    files: R,
    opened: Option<Opened>,
    faults: u64,
    trouble: Option<Trouble>,
    watch: Watch<'a>,
    is_overwritten: bool,
    told: ToldBlocks,
}

impl<'a, R: Files<File = File> + AllocGlobal + Clock + Clone + Drop> FileDisk<'a, R> {
    /// A disk that is not open. It will find its file by these files, and show on this line what it does.
    pub fn new(files: R, line: &'a StatusLine) -> Self
        ensures { opened_for result ≡ None }
    {
        let told = ToldBlocks::none(files.alloc());
        FileDisk {
            files,
            opened: None,
            faults: 0,
            trouble: None,
            watch: Watch::new(line),
            is_overwritten: false,
            told,
        }
    }

    /// Why the last failure came.
    pub fn trouble(&self) -> Option<Trouble> {
        self.trouble
    }

    /// From now on it is opened for writing to be overwritten.
    pub fn expect_blank(&mut self)
        ensures { opened_for self.new ≡ opened_for self.old }
    {
        self.is_overwritten = true;
    }

    /// What it is opened for, as it is told on a terminal.
    pub fn expect(&mut self, task: Task)
        ensures { opened_for self.new ≡ opened_for self.old }
    {
        self.watch.expect(task);
    }

    /// How many blocks were written, whole or in part.
    pub fn written(&self) -> u64 {
        self.watch.written()
    }

    fn open_file(&self, path: &str, access: Access) -> Result<Opened, Cause>
        ensures { IfOk result (λ opened. opened.access ≡ access) }
    {
        let kind = fs::metadata(&self.files, path)?.file_type();
        if !kind.is_file() && !kind.is_block_device() {
            return Err(Cause::Kind);
        }
        if access == Access::Write {
            self.check_free(path)?;
        }
        let file = OpenOptions::new()
            .read(true)
            .write(access == Access::Write)
            .open(&self.files, path)
            .map_err(unopened)?;
        if access == Access::Write && file.try_lock().is_err() {
            return Err(Cause::InUse(Use::Locked));
        }
        if access == Access::Write && kind.is_block_device() {
            // who may not have them dropped goes on with what the system keeps
            let _ = drop_caches(&self.files, CACHES);
        }
        let opened = Opened::new(file, access)?;
        if access == Access::Write && self.is_overwritten {
            check_blank(&opened)?;
        }
        Ok(opened)
    }

    /// Checks that nobody uses what stands at a path, and that it is not read-only.
    fn check_free(&self, path: &str) -> Result<(), Cause> {
        let place = FileIdentity::new(&self.files, path)?;
        if let Some(found) = Use::of(&self.files, &place)? {
            return Err(Cause::InUse(found));
        }
        if place.is_read_only(&self.files)? {
            return Err(Cause::ReadOnly);
        }
        Ok(())
    }

    /// Reads the next window of what was told, where a read of this block reaches it.
    fn read_ahead(&mut self, n: BlockNo)
        ensures faults { self.new.faults ≡ self.old.faults }
        ensures opened { self.new.opened ≡ self.old.opened }
    {
        if !self.told.is_reached(n) {
            return;
        }
        let window = self.told.open_window();
        if let Some(opened) = &self.opened {
            let done = opened.read_window(&self.told, &window, &mut self.watch, &self.files);
            if done.is_err() {
                self.told.forget();
            }
        }
    }

    /// Counts a failure, and keeps why it came.
    fn fail(&mut self, call: DiskCall, cause: Cause) -> Fault
        ensures rose { Rose self.old.faults self.new.faults }
        ensures later { self.old.faults ≤ self.new.faults }
        ensures opened { self.new.opened ≡ self.old.opened }
    {
        self.trouble = Some(Trouble { call, cause });
        self.faults = self.faults.saturating_add(1);
        Fault
    }
}

/// Why a file could not be opened.
fn unopened(e: io::Error) -> Cause {
    if e.kind() == ErrorKind::ReadOnlyFilesystem {
        Cause::ReadOnly
    } else {
        Cause::System(e)
    }
}

/// Checks that nothing lies on a file but what the rest of the program knows.
fn check_blank(opened: &Opened) -> Result<(), Cause> {
    if opened.blocks > SUPER_BLOCK {
        let mut block = Block::zero();
        opened.read(SUPER_BLOCK, &mut block)?;
        if format_of(&block) != Format::Neither {
            return Ok(());
        }
    }
    match Signature::of(&opened.file, opened.bytes)? {
        Some(found) => Err(Cause::Holds(found)),
        None => Ok(()),
    }
}

impl<R: Files<File = File> + AllocGlobal + Clock + Clone + Drop> BlockSource for FileDisk<'_, R> {
    ghost tells = { false };

    ghost blocks = { λ d. [] };

    ghost size = { λ d. length_of d.opened };

    ghost faults = { λ d. d.faults };

    ghost kept = { λ a b. Kept a.opened b.opened };

    ghost kept_refl = { λ a. kept_refl a.opened };

    ghost kept_trans = { λ a b c first second. kept_trans a.opened b.opened c.opened first second };

    ghost kept_size = { λ a b kept. kept.blocks };

    ghost kept_blocks = { λ a b tells kept. refl };

    ghost size_is = { λ a tells. absurd (tells_nothing tells) };

    fn len(&self) -> u64 {
        match &self.opened {
            Some(file) => file.blocks,
            None => 0,
        }
    }

    fn read(&mut self, n: BlockNo, into: &mut Block) -> Result<(), Fault> {
        self.read_ahead(n);
        let done = match &self.opened {
            Some(file) => file.read(n, into).map_err(Cause::System),
            None => Err(Cause::Closed),
        };
        match done {
            Ok(()) => {
                self.watch.reads(n, into);
                self.watch.look(&self.files);
                Ok(())
            }
            Err(cause) => Err(self.fail(DiskCall::Read(n), cause)),
        }
    }

    fn will_read(&mut self, told: Vec<BlockNo>) {
        self.told = ToldBlocks::new(told);
    }
}

impl<R: Files<File = File> + AllocGlobal + Clock + Clone + Drop> Disk for FileDisk<'_, R> {
    ghost history = { λ d. nothing };

    ghost opened = { λ d. opened_for d };

    ghost borrow = { λ _. 0 };

    ghost wants = { λ path access. Unit {0} };

    ghost kept_history = { λ a b tells kept. refl };

    ghost kept_opened = { λ a b kept. kept.access };

    ghost kept_borrow = { λ a b kept. refl };

    ghost open_blocks = { λ a access tells is. absurd (tells_nothing tells) };

    ghost open_size = { λ a access tells is. absurd (tells_nothing tells) };

    ghost closed_size = { λ a is. closed_length a.opened is };

    fn open(&mut self, path: &str, access: Access) -> Result<(), Fault> {
        match self.open_file(path, access) {
            Ok(opened) => {
                self.opened = Some(opened);
                self.watch.begin(&self.files);
                Ok(())
            }
            Err(cause) => Err(self.fail(DiskCall::Open, cause)),
        }
    }

    fn write(&mut self, n: BlockNo, from: &Block) -> Result<(), Fault> {
        let done = match &self.opened {
            Some(file) => file.write(n, from),
            None => Err(FailedWrite {
                cause: Cause::Closed,
                is_begun: false,
            }),
        };
        match done {
            Ok(()) => {
                self.watch.writes(n, from);
                self.watch.look(&self.files);
                Ok(())
            }
            Err(failed) => {
                self.watch.fails(failed.is_begun);
                Err(self.fail(DiskCall::Write(n), failed.cause))
            }
        }
    }

    fn sync(&mut self) -> Result<(), Fault> {
        let done = match &self.opened {
            Some(file) => file.file.sync_all().map_err(Cause::System),
            None => Err(Cause::Closed),
        };
        match done {
            Ok(()) => {
                self.watch.syncs();
                Ok(())
            }
            Err(cause) => Err(self.fail(DiskCall::Sync, cause)),
        }
    }
}
