// The bodies of the items of a sample.
ghost use Rattle.std.specs.Prelude.{◌≡◌};

use crate::sample::{BLOCKS, CHUNK, DEVICE, FILE_LEAF, FSID, MOMENT, Origin, SYSTEM_MADE};
use btr_keys::{DirEntry, Inode, InodeRef, Key, Stamp};
use btr_space_items::{Chunk, Device, RootItem, Stripe};
use btrfs_format::flag::{BLOCK_GROUP_DUP, BLOCK_GROUP_METADATA};

pub fn key(objectid: u64, kind: u8, offset: u64) -> Key
    ensures { result ≡ record { objectid = objectid; kind = kind; offset = offset } }
{
    Key {
        objectid,
        kind,
        offset,
    }
}

/// The only device.
pub fn device() -> Device {
    Device {
        devid: 1,
        total_bytes: BLOCKS * 4096,
        bytes_used: 2 * CHUNK,
        io_align: 4096,
        io_width: 4096,
        sector_size: 4096,
        kind: 0,
        generation: 0,
        start_offset: 0,
        dev_group: 0,
        seek_speed: 0,
        bandwidth: 0,
        uuid: DEVICE,
        fsid: FSID,
    }
}

/// The chunk of 1 MiB whose address and place are these; 2 is the kind of a system chunk and 4 that of metadata.
pub fn chunk(at: u64, kind: u64) -> [u8; 80] {
    let chunk = Chunk {
        length: CHUNK,
        owner: 2,
        stripe_len: 65536,
        kind,
        io_align: 4096,
        io_width: 4096,
        sector_size: 4096,
        num_stripes: 1,
        sub_stripes: 0,
        stripe: stripe(at),
    };
    let mut body = [0; 80];
    chunk.write(&mut body);
    body
}

/// The same of a metadata chunk in two copies, of which the second one begins at `mirror`.
pub fn chunk_twice(at: u64, mirror: u64) -> [u8; 112] {
    let mut body = [0; 112];
    body[..80].copy_from_slice(&chunk(at, BLOCK_GROUP_METADATA | BLOCK_GROUP_DUP));
    body[44] = 2;
    body[80..].copy_from_slice(&stripe(mirror).to_bytes());
    body
}

/// A stripe that begins there on the device.
fn stripe(offset: u64) -> Stripe {
    Stripe {
        devid: 1,
        offset,
        device_uuid: DEVICE,
    }
}

/// An inode with one name.
pub fn inode(mode: u32, size: u64, origin: Origin, atime: Stamp) -> Inode {
    Inode {
        generation: 1,
        transid: 1,
        size,
        nbytes: 0,
        block_group: 0,
        nlink: 1,
        uid: origin.uid,
        gid: origin.gid,
        mode,
        rdev: 0,
        flags: 0,
        sequence: 0,
        atime,
        ctime: origin.moment,
        mtime: origin.moment,
        otime: origin.moment,
    }
}

/// The root item of the file tree.
pub fn file_root() -> [u8; 439] {
    let root = RootItem {
        inode: inode(0o40755, 3, SYSTEM_MADE, MOMENT),
        generation: 1,
        root_dirid: 256,
        bytenr: FILE_LEAF,
        byte_limit: 0,
        bytes_used: 16384,
        last_snapshot: 0,
        flags: 0,
        refs: 1,
        drop_progress: key(0, 0, 0),
        drop_level: 0,
        level: 0,
        generation_v2: 1,
        uuid: [0; 16],
        parent_uuid: [0; 16],
        received_uuid: [0; 16],
        ctransid: 1,
        otransid: 0,
        stransid: 0,
        rtransid: 0,
        ctime: MOMENT,
        otime: MOMENT,
        stime: MOMENT,
        rtime: MOMENT,
    };
    let mut body = [0; 439];
    root.write(&mut body);
    body
}

/// The entry of `a`, whose inode is 257.
pub fn entry() -> [u8; 31] {
    let entry = DirEntry {
        location: key(257, 1, 0),
        transid: 1,
        data_length: 0,
        kind: 1,
        name: b"a",
    };
    let mut body = [0; 31];
    entry.write(&mut body);
    body
}

/// The name of the root directory, which is its own parent.
pub fn root_name() -> [u8; 12] {
    let name = InodeRef {
        index: 0,
        name: b"..",
    };
    let mut body = [0; 12];
    name.write(&mut body);
    body
}

/// The name of `a`.
pub fn file_name() -> [u8; 11] {
    let name = InodeRef {
        index: 2,
        name: b"a",
    };
    let mut body = [0; 11];
    name.write(&mut body);
    body
}
