// The rows of a small volume, by their text.
ghost use Rattle.std.specs.Prelude.{◌≡◌, None, IfOk, length};

use super::items::{StatData, add_entries, add_stat, stat};
use fs_rows::write_rows;
use outside::{Access, Disk, Memory};
use outside_mem::{MemDisk, MemSink};
use refusals::VolAnswer;
use reiser_volume::Volume;
use reiser_volume_files::{FileRun, RunFrom};
use std::alloc::Global;
use std::test::*;
use vol_block::{Block, put_u16, put_u32};
use volume_samples::{Entry, Item, Leaf, Object, Part, change, with_leaf};

/// The attributes that rows have.
const ALL: u16 = 0xF8;

const ROOT_ENTRIES: &[Entry] = &[
    (2, 9, ".reiserfs_priv"),
    (2, 5, "d"),
    (2, 6, "dev"),
    (2, 4, "f"),
    (2, 7, "ln"),
    (2, 10, "pipe"),
    (2, 8, "sparse"),
];

const BELOW: &[Entry] = &[(2, 11, "tty"), (2, 4, "x")];

/// The stat data of a device with this number.
fn device(mode: u16, rdev: u32) -> StatData {
    let mut device = stat(mode, 0);
    device.rdev = rdev;
    device
}

/// A file with two names, of 5 bytes in an item of 11.
fn add_file(leaf: &mut Leaf, object: Object) {
    let file = StatData {
        mode: 0o104755,
        attrs: ALL,
        size: 5,
        owner: 1000,
        group: 100,
        times: [1, 2, 3],
        rdev: 7,
    };
    add_stat(leaf, object, &file);
    leaf.add(Item::of(object, Part::Bytes(1)), b"hello, more");
}

/// The volume with this file, devices, a symlink, a file of a hole, a block and a byte more, a pipe, and an empty private
/// directory.
fn sample(alloc: Global, super_flags: &[u8; 4]) -> Result<MemDisk, Memory>
    ensures size { IfOk result (λ d. length d.history.start ≡ 2048) }
    ensures closed { IfOk result (λ d. d.opened ≡ None) }
{
    let mut leaf = Leaf::new();
    add_stat(&mut leaf, Object(1, 2), &stat(0o40755, 48));
    add_entries(alloc, &mut leaf, Object(1, 2), ROOT_ENTRIES)?;
    add_file(&mut leaf, Object(2, 4));
    add_stat(&mut leaf, Object(2, 5), &stat(0o40700, 48));
    add_entries(alloc, &mut leaf, Object(2, 5), BELOW)?;
    add_stat(&mut leaf, Object(2, 6), &device(0o60660, 0x0010_082C));
    let mut link = stat(0o120777, 3);
    link.attrs = ALL;
    add_stat(&mut leaf, Object(2, 7), &link);
    leaf.add(Item::of(Object(2, 7), Part::Bytes(1)), b"d/x\0\0\0\0\0");
    add_stat(&mut leaf, Object(2, 8), &stat(0o100600, 8193));
    leaf.add(
        Item::of(Object(2, 8), Part::Pointers(1)),
        b"\0\0\0\0\x34\0\0\0\0\0\0\0",
    );
    add_stat(&mut leaf, Object(2, 9), &stat(0o40700, 48));
    let mut pipe = stat(0o10644, 0);
    pipe.times[0] = 0xFFFF_FFFF;
    add_stat(&mut leaf, Object(2, 10), &pipe);
    add_stat(&mut leaf, Object(2, 11), &device(0o20620, 0x0501));
    let mut disk = with_leaf(alloc, 2048, &[(0, 53)], &leaf.finish())?;
    change(&mut disk, 16, 80, super_flags)?;
    change(&mut disk, 52, 0, &[b'x'; 4096])?;
    Ok(disk)
}

/// The text of the rows of the volume on a disk.
fn text(alloc: Global, disk: &mut MemDisk) -> Result<MemSink, VolAnswer>
    requires { disk.old.opened ≡ None }
{
    disk.open("x", Access::Read)?;
    let volume = Volume::open(alloc, disk)?;
    let rows = volume.rows(alloc, disk)?;
    let mut out = MemSink::new(alloc);
    write_rows(&rows, &mut out)?;
    Ok(out)
}

/// By Python's hashlib: the marks of `hello`, and of 4096 zeros, 4096 letters x and a zero.
const ROWS: &str = "d 0755 0 0 0 0 0 - - - - - /\n\
    d 0700 0 0 0 0 0 - - - - - /d\n\
    c 0620 0 0 0 0 0 - 5:1 1 - - /d/tty\n\
    f 4755 1000 100 1 2 3 SiadA - 2 5 cb4b4177fe244e9efa3d815e24d1511b4151d6b59cf23fde8ed7481792c3dc17 /d/x\n\
    b 0660 0 0 0 0 0 - 8:300 1 - - /dev\n\
    f 4755 1000 100 1 2 3 SiadA - 2 5 cb4b4177fe244e9efa3d815e24d1511b4151d6b59cf23fde8ed7481792c3dc17 /f = /d/x\n\
    l 0777 0 0 0 0 0 SdA - 1 3 - /ln -> d/x\n\
    p 0644 0 0 4294967295 0 0 - - 1 - - /pipe\n\
    f 0600 0 0 0 0 0 - - 1 8193 8a5221f22dec6831b0ae4d3322a0d6809b1975f4aa5572404ad389de9b5ea4c8 /sparse\n";

/// The same where the superblock says nothing of attributes.
const WITHOUT_FLAGS: &str = "d 0755 0 0 0 0 0 - - - - - /\n\
    d 0700 0 0 0 0 0 - - - - - /d\n\
    c 0620 0 0 0 0 0 - 5:1 1 - - /d/tty\n\
    f 4755 1000 100 1 2 3 - - 2 5 cb4b4177fe244e9efa3d815e24d1511b4151d6b59cf23fde8ed7481792c3dc17 /d/x\n\
    b 0660 0 0 0 0 0 - 8:300 1 - - /dev\n\
    f 4755 1000 100 1 2 3 - - 2 5 cb4b4177fe244e9efa3d815e24d1511b4151d6b59cf23fde8ed7481792c3dc17 /f = /d/x\n\
    l 0777 0 0 0 0 0 - - 1 3 - /ln -> d/x\n\
    p 0644 0 0 4294967295 0 0 - - 1 - - /pipe\n\
    f 0600 0 0 0 0 0 - - 1 8193 8a5221f22dec6831b0ae4d3322a0d6809b1975f4aa5572404ad389de9b5ea4c8 /sparse\n";

/// The rows of the volume, where the superblock has these flags.
const FLAGS: [(&[u8; 4], &str); 3] = [
    (b"\x01\0\0\0", ROWS),
    (b"\x03\0\0\0", ROWS),
    (b"\x02\0\0\0", WITHOUT_FLAGS),
];

#[test]
fn rows_are_made(rt: HostRuntime) -> Result<(), Fail> {
    for (flags, rows) in &FLAGS {
        let mut disk = sample(rt.alloc(), *flags)?;
        let out = text(rt.alloc(), &mut disk)?;
        assert!(rt; out.bytes() == rows.as_bytes());
    }
    Ok(())
}

/// Why there are no rows where that call of the disk fails.
fn failure(alloc: Global, call: u64) -> Result<Option<VolAnswer>, Memory> {
    let mut disk = sample(alloc, b"\x01\0\0\0")?;
    disk.fail_call(call)?;
    Ok(text(alloc, &mut disk).err())
}

#[test]
fn each_read_may_fail(rt: HostRuntime) -> Result<(), Memory> {
    // Opening reads the superblock, 33 blocks of the journal, the bitmap and the leaf. Then the leaf is read for the first
    // blocks of both files, for the mark of the one that has none, for the blocks that are told of the other, and for its
    // mark, behind which its block is read; and last for the symlink.
    for call in 36..44 {
        assert!(rt; failure(rt.alloc(), call)? == Some(VolAnswer::Fault));
    }
    assert!(rt; failure(rt.alloc(), 44)?.is_none());
    Ok(())
}

/// The stat data of a file of user 1000 and group 100.
fn owned(size: u64) -> StatData {
    let mut file = stat(0o100644, size);
    file.owner = 1000;
    file.group = 100;
    file.times = [1000000001, 1000000001, 1000000001];
    file
}

/// Adds the stat data of version 0 of an empty file of user 7 and group 8, with all times 5.
fn add_old_file(leaf: &mut Leaf, object: Object) {
    let mut body = Block::zero();
    let bytes = &mut body.bytes;
    put_u16(bytes, 0, 0o100600);
    put_u16(bytes, 2, 1);
    put_u16(bytes, 4, 7);
    put_u16(bytes, 6, 8);
    put_u32(bytes, 12, 5);
    put_u32(bytes, 16, 5);
    put_u32(bytes, 20, 5);
    let item = Item {
        object,
        part: Part::Stat,
        old: true,
    };
    leaf.add(item, &body.bytes[..32]);
}

/// A volume with an empty file, one of version 0, a symlink whose target is filled up with zeros, and a pipe with a space in
/// its name.
fn plain_sample(alloc: Global) -> Result<MemDisk, Memory>
    ensures size { IfOk result (λ d. length d.history.start ≡ 2048) }
    ensures closed { IfOk result (λ d. d.opened ≡ None) }
{
    let mut leaf = Leaf::new();
    add_stat(&mut leaf, Object(1, 2), &stat(0o40755, 48));
    add_entries(
        alloc,
        &mut leaf,
        Object(1, 2),
        &[(2, 4, "a"), (2, 6, "a b"), (2, 5, "ln"), (2, 7, "old")],
    )?;
    add_stat(&mut leaf, Object(2, 4), &owned(0));
    add_stat(&mut leaf, Object(2, 5), &stat(0o120777, 13));
    leaf.add(
        Item::of(Object(2, 5), Part::Bytes(1)),
        b"../some/place\0\0\0",
    );
    add_stat(&mut leaf, Object(2, 6), &stat(0o10644, 0));
    add_old_file(&mut leaf, Object(2, 7));
    let mut disk = with_leaf(alloc, 2048, &[(0, 52)], &leaf.finish())?;
    change(&mut disk, 16, 80, b"\x01\0\0\0")?;
    Ok(disk)
}

/// A volume with a file of three names in two directories, and one of 2^40 bytes of which only the last block is there.
fn linked_sample(alloc: Global) -> Result<MemDisk, Memory>
    ensures size { IfOk result (λ d. length d.history.start ≡ 2048) }
    ensures closed { IfOk result (λ d. d.opened ≡ None) }
{
    let mut leaf = Leaf::new();
    add_stat(&mut leaf, Object(1, 2), &stat(0o40755, 48));
    add_entries(
        alloc,
        &mut leaf,
        Object(1, 2),
        &[(2, 4, "a"), (2, 5, "b"), (2, 7, "end")],
    )?;
    add_stat(&mut leaf, Object(2, 4), &stat(0o40700, 48));
    add_entries(alloc, &mut leaf, Object(2, 4), &[(2, 6, "x"), (2, 6, "y")])?;
    add_stat(&mut leaf, Object(2, 5), &stat(0o40700, 48));
    add_entries(alloc, &mut leaf, Object(2, 5), &[(2, 6, "z")])?;
    add_stat(&mut leaf, Object(2, 6), &owned(4));
    leaf.add(Item::of(Object(2, 6), Part::Bytes(1)), b"same");
    add_stat(&mut leaf, Object(2, 7), &owned(1 << 40));
    leaf.add(
        Item::of(Object(2, 7), Part::Pointers((1 << 40) - 4095)),
        b"\x34\0\0\0",
    );
    let mut disk = with_leaf(alloc, 2048, &[(0, 53)], &leaf.finish())?;
    change(&mut disk, 52, 0, &[b'x'; 4096])?;
    Ok(disk)
}

const PLAIN_ROWS: &str = "d 0755 0 0 0 0 0 - - - - - /\n\
    f 0644 1000 100 1000000001 1000000001 1000000001 - - 1 0 e3b0c44298fc1c149afbf4c8996fb92427ae41e4649b934ca495991b7852b855 /a\n\
    p 0644 0 0 0 0 0 - - 1 - - /a\\x20b\n\
    l 0777 0 0 0 0 0 - - 1 13 - /ln -> ../some/place\n\
    f 0600 7 8 5 5 5 - - 1 0 e3b0c44298fc1c149afbf4c8996fb92427ae41e4649b934ca495991b7852b855 /old\n";

/// By Python's hashlib: the marks of `same`, and of block 2^28 - 1 of letters x.
const LINKED_ROWS: &str = "d 0755 0 0 0 0 0 - - - - - /\n\
    d 0700 0 0 0 0 0 - - - - - /a\n\
    f 0644 1000 100 1000000001 1000000001 1000000001 - - 3 4 f9147ddef81ad4f5bb8838f4e2c74774ce3f7d94fe42b7667ca25fec078f6cff /a/x\n\
    f 0644 1000 100 1000000001 1000000001 1000000001 - - 3 4 f9147ddef81ad4f5bb8838f4e2c74774ce3f7d94fe42b7667ca25fec078f6cff /a/y = /a/x\n\
    d 0700 0 0 0 0 0 - - - - - /b\n\
    f 0644 1000 100 1000000001 1000000001 1000000001 - - 3 4 f9147ddef81ad4f5bb8838f4e2c74774ce3f7d94fe42b7667ca25fec078f6cff /b/z = /a/x\n\
    f 0644 1000 100 1000000001 1000000001 1000000001 - - 1 1099511627776 a2be989856b9810e839a34c3f486d762183d8356e1b702b99610cc4522da290a /end\n";

#[test]
fn names_and_sizes(rt: HostRuntime) -> Result<(), Fail> {
    let mut plain = plain_sample(rt.alloc())?;
    let out = text(rt.alloc(), &mut plain)?;
    assert!(rt; out.bytes() == PLAIN_ROWS.as_bytes());
    let mut linked = linked_sample(rt.alloc())?;
    let out = text(rt.alloc(), &mut linked)?;
    assert!(rt; out.bytes() == LINKED_ROWS.as_bytes());
    Ok(())
}

/// The map of the large file.
#[test]
fn maps_of_files(rt: HostRuntime) -> Result<(), Fail> {
    let alloc = rt.alloc();
    let mut disk = linked_sample(alloc)?;
    disk.open("x", Access::Read)?;
    let volume = Volume::open(alloc, &mut disk)?;
    let large = 4;
    assert!(rt; large < volume.count());
    let map = volume.file_map(alloc, &mut disk, large)?;
    let run = FileRun {
        at: (1 << 28) - 1,
        count: 1,
        from: RunFrom::Disk(52),
    };
    assert_eq!(rt; map.len(), 1);
    assert_eq!(rt; map.get(0), run);
    Ok(())
}

/// The block of the small file.
#[test]
fn tails_of_files(rt: HostRuntime) -> Result<(), Fail> {
    let alloc = rt.alloc();
    let mut disk = linked_sample(alloc)?;
    disk.open("x", Access::Read)?;
    let volume = Volume::open(alloc, &mut disk)?;
    let small = 3;
    assert!(rt; small < volume.count());
    let mut block = Block::zero();
    volume.tail(&mut disk, small, 0, &mut block)?;
    assert!(rt; block.bytes.starts_with(b"same\0"));
    Ok(())
}
