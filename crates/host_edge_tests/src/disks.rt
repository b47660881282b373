// Disks over files.
ghost use Rattle.std.specs.Prelude.{◌≡◌, None};
ghost use Rattle.host_edge.specs.FileDisk.{opened_for};

use crate::folder::{Entry, Folder};
use host_edge::{FileDisk, StatusLine, hold_streams};
use outside::{Access, BlockSource, Disk, Fault};
use std::fs::OpenOptions;
use std::os::fd::AsRawFd;
use std::test::Fail;
use std::{fs, io};
use vol_block::Block;

type HostDisk<'a> = FileDisk<'a, &'a HostRuntime>;

/// Two blocks of sevens, and a part of a third.
const SEVENS: Entry = Entry::File(&[7; 9000]);

/// Files that a disk is opened over: one with a file system on it, volumes that the program knows, and others.
const FILES: &[(&str, Entry)] = &[
    ("ext4", Entry::Disk(81920, &[(1080, b"\x53\xef")])),
    ("reiserfs", Entry::Disk(81920, &[(65588, b"ReIsEr2Fs")])),
    ("btrfs", Entry::Disk(81920, &[(65600, b"_BHRfS_M")])),
    ("zeros", Entry::Disk(81920, &[(0, b"\0")])),
    ("locked", Entry::File(&[7; 8192])),
    ("short", Entry::File(&[7; 8192])),
];

/// What is done to a file.
#[derive(Clone, Copy)]
enum Done {
    /// It is opened for reading.
    Read,
    /// It is opened to be overwritten.
    Overwritten,
    /// It is opened for writing while it is open for writing.
    WrittenTwice,
    /// It is opened for writing while a disk is there that did not open it to be overwritten.
    WrittenBesideRefused,
    /// A block is read of it once it became shorter.
    ReadShortened,
}

/// Why a disk over a file does not do it; nothing where it does.
const TROUBLES: &[(&str, Done, &str)] = &[
    (
        "gone",
        Done::Read,
        "opening it: No such file or directory (os error 2)",
    ),
    // a folder
    (
        "",
        Done::Read,
        "opening it: it is neither a plain file nor a block device",
    ),
    (
        "ext4",
        Done::Overwritten,
        "opening it: it holds an ext2, ext3 or ext4 file system",
    ),
    ("ext4", Done::WrittenBesideRefused, ""),
    ("reiserfs", Done::Overwritten, ""),
    ("btrfs", Done::Overwritten, ""),
    ("zeros", Done::Overwritten, ""),
    (
        "locked",
        Done::WrittenTwice,
        "opening it: another program has locked it",
    ),
    (
        "short",
        Done::ReadShortened,
        "reading block 1: unexpected end of file",
    ),
];

/// Why the last failure of a disk came, if its call failed.
fn trouble_of(
    rt: &HostRuntime,
    disk: &HostDisk<'_>,
    call: Result<(), Fault>,
) -> io::Result<String> {
    match (call, disk.trouble()) {
        (Ok(()), _) => Ok(String::new(rt.alloc())),
        (Err(_), Some(trouble)) => Ok(format!(in rt.alloc(); "{}", trouble)?),
        (Err(_), None) => Ok(String::from_str(rt.alloc(), "no trouble")?),
    }
}

/// Does that with a disk.
fn call(rt: &HostRuntime, disk: &mut HostDisk<'_>, path: &str, done: Done) -> Result<(), Fault>
    requires closed { opened_for disk.old ≡ None }
{
    match done {
        Done::Read => disk.open(path, Access::Read),
        Done::Overwritten => {
            disk.expect_blank();
            disk.open(path, Access::Write)
        }
        Done::WrittenTwice => open_beside(rt, disk, path, false),
        Done::WrittenBesideRefused => open_beside(rt, disk, path, true),
        Done::ReadShortened => read_shortened(rt, disk, path),
    }
}

/// Opens a disk while another one is there that the same file was to be opened by before, maybe to be overwritten.
fn open_beside(
    rt: &HostRuntime,
    disk: &mut HostDisk<'_>,
    path: &str,
    is_overwritten: bool,
) -> Result<(), Fault>
    requires closed { opened_for disk.old ≡ None }
{
    let line = StatusLine::none();
    let mut first = FileDisk::new(rt, &line);
    if is_overwritten {
        first.expect_blank();
    }
    let _ = first.open(path, Access::Write);
    disk.open(path, Access::Write)
}

/// Reads a block of a file that becomes shorter once it is open.
fn read_shortened(rt: &HostRuntime, disk: &mut HostDisk<'_>, path: &str) -> Result<(), Fault>
    requires closed { opened_for disk.old ≡ None }
{
    disk.open(path, Access::Read)?;
    if disk.len() < 2 || fs::write(rt, path, [7; 5000].as_slice()).is_err() {
        return Ok(());
    }
    disk.read(1, &mut Block::zero())
}

/// Why a disk does not do that; nothing where it does.
fn trouble(rt: &HostRuntime, path: &str, done: Done) -> io::Result<String> {
    let line = StatusLine::none();
    let mut disk = FileDisk::new(rt, &line);
    let called = call(rt, &mut disk, path, done);
    trouble_of(rt, &disk, called)
}

/// Whether that is told of a file of a folder.
fn is_told(
    rt: &HostRuntime,
    folder: &Folder,
    name: &str,
    done: Done,
    text: &str,
) -> io::Result<bool> {
    let path = folder.path(rt, name)?;
    let found = trouble(rt, path.as_str(), done)?;
    Ok(found.as_str() == text)
}

#[test]
fn a_disk_tells_why_it_does_not_do_it(rt: HostRuntime) -> io::Result<()> {
    let folder = Folder::filled(&rt, "disks", FILES)?;
    for (name, done, text) in TROUBLES {
        assert!(rt; is_told(&rt, &folder, *name, *done, *text)?, "of {name}");
    }
    folder.remove(&rt)
}

/// Whether a block of a disk has these bytes alone.
fn has(disk: &mut HostDisk<'_>, n: u64, byte: u8) -> Result<bool, Fault> {
    if n >= disk.len() {
        return Err(Fault);
    }
    let mut block = Block::zero();
    disk.read(n, &mut block)?;
    Ok(block.bytes == [byte; 4096])
}

/// Whether block 1 has nines, and block 0 sevens.
fn are_kept(disk: &mut HostDisk<'_>) -> Result<[bool; 2], Fault> {
    let nines = has(disk, 1, 9)?;
    let sevens = has(disk, 0, 7)?;
    Ok([nines, sevens])
}

/// Opens a disk, and writes nines to block 1, with a sync behind it or without.
fn write_nines(disk: &mut HostDisk<'_>, path: &str, is_synced: bool) -> Result<(), Fault>
    requires closed { opened_for disk.old ≡ None }
{
    disk.open(path, Access::Write)?;
    if disk.len() < 2 {
        return Err(Fault);
    }
    disk.write(1, &Block { bytes: [9; 4096] })?;
    if is_synced { disk.sync() } else { Ok(()) }
}

/// The lengths of a disk before and behind its use, how many blocks were written, whether nothing failed, and whether both blocks
/// are kept.
type Used = ([u64; 2], u64, bool, [bool; 2]);

/// Writes nines to a file by a disk.
fn used(rt: &HostRuntime, path: &str, is_synced: bool) -> Result<Used, Fault> {
    let line = StatusLine::none();
    let mut disk = FileDisk::new(rt, &line);
    let before = disk.len();
    write_nines(&mut disk, path, is_synced)?;
    let kept = are_kept(&mut disk)?;
    let is_well = disk.trouble().is_none();
    Ok(([before, disk.len()], disk.written(), is_well, kept))
}

/// The same of a new file of sevens in a folder, and the length of the file behind it.
fn used_file(rt: &HostRuntime, folder: &Folder, is_synced: bool) -> Result<(Used, usize), Fail> {
    folder.fill(rt, &[("disk", SEVENS)])?;
    let path = folder.path(rt, "disk")?;
    let used = used(rt, path.as_str(), is_synced)?;
    Ok((used, fs::read(rt, path.as_str())?.len()))
}

#[test]
fn a_file_is_a_disk(rt: HostRuntime) -> Result<(), Fail> {
    let folder = Folder::new(&rt, "disk")?;
    for is_synced in &[false, true] {
        let wanted = (([0, 2], 1, true, [true; 2]), 9000);
        assert!(rt; used_file(&rt, &folder, *is_synced)? == wanted);
    }
    Ok(folder.remove(&rt)?)
}

#[test]
fn no_file_gets_the_number_of_a_standard_stream(rt: HostRuntime) -> io::Result<()> {
    hold_streams(&rt)?;
    let file = OpenOptions::new().read(true).open(&rt, "/dev/null")?;
    assert!(rt; file.as_raw_fd() > 2);
    Ok(())
}
