// Two nodes of a volume that `mkfs.btrfs` 6.2 made, with nodes of 4096 bytes:
//
//     mkfs.btrfs --nodesize 4096 -m single -d single -U 22222222-2222-2222-2222-222222222222 --rootdir DIR VOLUME
//
// where DIR has 2,000 files, f00000 to f01999. The leaf is that of the device tree, at 5259264, and the inner node is the
// root of the file tree, at 5763072. Only their bytes other than zeros are kept here. What the tests expect is what
// `btrfs inspect-internal dump-tree` prints.

/// The leaf's head, and the heads of its three items.
pub const LEAF_FRONT: [u8; 173] = [
    0xA2, 0xDF, 0xBE, 0x41, 0, 0, 0, 0, 0, 0, 0, 0, 0, 0, 0, 0, 0, 0, 0, 0, 0, 0, 0, 0, 0, 0, 0, 0,
    0, 0, 0, 0, 0x22, 0x22, 0x22, 0x22, 0x22, 0x22, 0x22, 0x22, 0x22, 0x22, 0x22, 0x22, 0x22, 0x22,
    0x22, 0x22, 0, 0x40, 0x50, 0, 0, 0, 0, 0, 1, 0, 0, 0, 0, 0, 0, 1, 0xF6, 0x93, 0xD1, 0x97, 5,
    0x9A, 0x47, 0x76, 0xAA, 0x56, 0xBD, 0x21, 0x75, 0x9C, 0xEE, 0xFA, 5, 0, 0, 0, 0, 0, 0, 0, 4, 0,
    0, 0, 0, 0, 0, 0, 3, 0, 0, 0, 0, 1, 0, 0, 0, 0, 0, 0, 0, 0xCC, 0, 0, 0x10, 0, 0, 0, 0, 0, 0x6B,
    0x0F, 0, 0, 0x30, 0, 0, 0, 1, 0, 0, 0, 0, 0, 0, 0, 0xCC, 0, 0, 0x50, 0, 0, 0, 0, 0, 0x3B, 0x0F,
    0, 0, 0x30, 0, 0, 0, 1, 0, 0, 0, 0, 0, 0, 0, 0xCC, 0, 0, 0xD0, 0, 0, 0, 0, 0, 0x0B, 0x0F, 0, 0,
    0x30,
];

/// The leaf's last 144 bytes, the data of its items.
pub const LEAF_BACK: [u8; 144] = [
    3, 0, 0, 0, 0, 0, 0, 0, 0, 1, 0, 0, 0, 0, 0, 0, 0, 0, 0xD0, 0, 0, 0, 0, 0, 0, 0, 0x80, 0, 0, 0,
    0, 0, 0xF6, 0x93, 0xD1, 0x97, 5, 0x9A, 0x47, 0x76, 0xAA, 0x56, 0xBD, 0x21, 0x75, 0x9C, 0xEE,
    0xFA, 3, 0, 0, 0, 0, 0, 0, 0, 0, 1, 0, 0, 0, 0, 0, 0, 0, 0, 0x50, 0, 0, 0, 0, 0, 0, 0, 0x80, 0,
    0, 0, 0, 0, 0xF6, 0x93, 0xD1, 0x97, 5, 0x9A, 0x47, 0x76, 0xAA, 0x56, 0xBD, 0x21, 0x75, 0x9C,
    0xEE, 0xFA, 3, 0, 0, 0, 0, 0, 0, 0, 0, 1, 0, 0, 0, 0, 0, 0, 0, 0, 0x10, 0, 0, 0, 0, 0, 0, 0,
    0x40, 0, 0, 0, 0, 0, 0xF6, 0x93, 0xD1, 0x97, 5, 0x9A, 0x47, 0x76, 0xAA, 0x56, 0xBD, 0x21, 0x75,
    0x9C, 0xEE, 0xFA,
];

/// The inner node's head, and its four children.
pub const INNER_FRONT: [u8; 233] = [
    0x3E, 0x53, 0x57, 0xC2, 0, 0, 0, 0, 0, 0, 0, 0, 0, 0, 0, 0, 0, 0, 0, 0, 0, 0, 0, 0, 0, 0, 0, 0,
    0, 0, 0, 0, 0x22, 0x22, 0x22, 0x22, 0x22, 0x22, 0x22, 0x22, 0x22, 0x22, 0x22, 0x22, 0x22, 0x22,
    0x22, 0x22, 0, 0xF0, 0x57, 0, 0, 0, 0, 0, 1, 0, 0, 0, 0, 0, 0, 1, 0xF6, 0x93, 0xD1, 0x97, 5,
    0x9A, 0x47, 0x76, 0xAA, 0x56, 0xBD, 0x21, 0x75, 0x9C, 0xEE, 0xFA, 7, 0, 0, 0, 0, 0, 0, 0, 5, 0,
    0, 0, 0, 0, 0, 0, 4, 0, 0, 0, 2, 0, 1, 0, 0, 0, 0, 0, 0, 1, 0, 0, 0, 0, 0, 0, 0, 0, 0, 0x60,
    0x50, 0, 0, 0, 0, 0, 7, 0, 0, 0, 0, 0, 0, 0, 0, 1, 0, 0, 0, 0, 0, 0, 0x60, 0xE6, 4, 0, 0, 0, 0,
    0, 0, 0, 0x10, 0x5F, 0, 0, 0, 0, 0, 7, 0, 0, 0, 0, 0, 0, 0, 0x58, 0x68, 0xA7, 0, 0, 0, 0, 0, 1,
    0, 0, 0, 0, 0, 0, 0, 0, 0, 0xD0, 0x5F, 0, 0, 0, 0, 0, 7, 0, 0, 0, 0, 0, 0, 0, 0x75, 0x6B, 0xA7,
    0, 0, 0, 0, 0, 0x0C, 0, 1, 0, 0, 0, 0, 0, 0, 0, 0, 0x58, 0, 0, 0, 0, 0, 7, 0, 0, 0, 0, 0, 0, 0,
];

/// The leaf's 4096 bytes.
pub fn leaf() -> [u8; 4096] {
    let mut bytes = [0; 4096];
    bytes[..173].copy_from_slice(&LEAF_FRONT);
    bytes[3952..].copy_from_slice(&LEAF_BACK);
    bytes
}

/// The inner node's 4096 bytes.
pub fn inner() -> [u8; 4096] {
    let mut bytes = [0; 4096];
    bytes[..233].copy_from_slice(&INNER_FRONT);
    bytes
}
