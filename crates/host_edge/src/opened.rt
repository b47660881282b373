ghost use Rattle.std.specs.Prelude.{◌≡◌, ◌≤◌, ◌<◌, ◌*◌, ◌^◌, length, IfOk};

use crate::told::{BlockRun, RUN, ToldBlocks, Window};
use crate::trouble::Cause;
use host_edge_progress::Watch;
use outside::{Access, Block, BlockNo};
use std::fs::File;
use std::io;
use std::io::{ErrorKind, Seek, SeekFrom};
use std::os::unix::fs::FileExt;
use std::time::Clock;

const BLOCK_BYTES: u64 = 4096;

/// A write that failed.
#[derive(Drop)]
pub struct FailedWrite {
    pub cause: Cause,
    /// Whether a part of the block was written.
    pub is_begun: bool,
}

/// A file that was opened, how many bytes it has, and how many whole blocks.
#[derive(Drop)]
pub struct Opened {
    pub file: File,
    pub access: Access,
    pub bytes: u64,
    pub blocks: u64,
    ghost bounded: { blocks ≤ 2 ^ 52 },
}

impl Opened {
    /// Finds the length by seeking to the end, as a device has no length of its own to be asked for.
    pub fn new(mut file: File, access: Access) -> io::Result<Opened>
        ensures { IfOk result (λ opened. opened.access ≡ access) }
    {
        let end = file.seek(SeekFrom::End(0))?;
        Ok(Opened {
            file,
            access,
            bytes: end,
            blocks: end / BLOCK_BYTES,
        })
    }

    /// Reads a block at its place.
    pub fn read(&self, n: BlockNo, into: &mut Block) -> io::Result<()>
        requires { n < self.now.blocks }
    {
        let mut at = 0;
        while at < into.bytes.len() {
            match self
                .file
                .read_at(&mut into.bytes[at..], n * BLOCK_BYTES + at as u64)
            {
                Ok(0) => return Err(io::Error::from(ErrorKind::UnexpectedEof)),
                Err(e) => return Err(e),
                Ok(count) => at += count,
            }
        }
        Ok(())
    }

    /// Reads blocks that follow one another, for the system to keep them in memory, and has them watched.
    pub fn read_run<R: Clock + AllocGlobal>(
        &self,
        run: &BlockRun,
        room: &mut [u8],
        watch: &mut Watch<'_>,
        rt: &R,
    ) -> io::Result<()>
        requires inside { run.now.first < self.now.blocks }
        requires room { 4096 * run.now.count ≤ length room.old }
    {
        let part = &mut room[..4096 * run.count];
        match self.file.read_at(part, run.first * BLOCK_BYTES) {
            Ok(0) => Err(io::Error::from(ErrorKind::UnexpectedEof)),
            Ok(count) => {
                watch.reads_ahead(&part[..count], rt);
                Ok(())
            }
            Err(e) => Err(e),
        }
    }

    /// Reads the blocks of a window, for the system to keep them in memory, and has them watched. Those that the file has not
    /// come last, and are left out.
    pub fn read_window<R: Clock + AllocGlobal>(
        &self,
        told: &ToldBlocks,
        window: &Window,
        watch: &mut Watch<'_>,
        rt: &R,
    ) -> io::Result<()>
        requires order { window.now.start ≤ window.now.end }
        requires within { window.now.end ≤ length told.now.blocks.items }
    {
        let mut room = [0; RUN * 4096];
        let mut at = window.start;
        while at < window.end {
            let run = told.run(at, window.end);
            if run.first >= self.blocks {
                return Ok(());
            }
            self.read_run(&run, &mut room, watch, rt)?;
            at += run.count;
        }
        Ok(())
    }

    /// Writes a block at its place.
    pub fn write(&self, n: BlockNo, from: &Block) -> Result<(), FailedWrite>
        requires { n < self.now.blocks }
    {
        let mut at = 0;
        while at < from.bytes.len() {
            match self
                .file
                .write_at(&from.bytes[at..], n * BLOCK_BYTES + at as u64)
            {
                Ok(0) => return Err(unwritten(at, io::Error::from(ErrorKind::WriteZero))),
                Err(e) => return Err(unwritten(at, e)),
                Ok(count) => at += count,
            }
        }
        Ok(())
    }
}

/// A write that failed behind so many bytes of its block.
fn unwritten(count: usize, e: io::Error) -> FailedWrite {
    FailedWrite {
        cause: Cause::System(e),
        is_begun: count > 0,
    }
}
