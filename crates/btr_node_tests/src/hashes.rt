use castagnoli::{crc32c, data_ref_hash, extref_hash, name_hash, raw_crc};

/// The check value that catalogues of CRCs give for CRC-32/ISCSI, and the examples of RFC 3720, appendix B.4, whose bytes are
/// printed in the order of the wire.
const SUMS: &[(&[u8], u32)] = &[
    (b"123456789", 0xE306_9283),
    (&[0; 32], 0x8A91_36AA),
    (&[0xFF; 32], 0x62A8_AB43),
    (
        &[
            0, 1, 2, 3, 4, 5, 6, 7, 8, 9, 10, 11, 12, 13, 14, 15, 16, 17, 18, 19, 20, 21, 22, 23,
            24, 25, 26, 27, 28, 29, 30, 31,
        ],
        0x46DD_794E,
    ),
    (
        &[
            31, 30, 29, 28, 27, 26, 25, 24, 23, 22, 21, 20, 19, 18, 17, 16, 15, 14, 13, 12, 11, 10,
            9, 8, 7, 6, 5, 4, 3, 2, 1, 0,
        ],
        0x113F_DB5C,
    ),
];

/// The same, of which proofs are told nothing.
fn sums() -> &'static [(&'static [u8], u32)] {
    SUMS
}

#[test]
fn checksums(rt: HostRuntime) {
    for (bytes, sum) in sums() {
        assert!(rt; crc32c(*bytes) == *sum);
    }
}

/// A name of a file with 400 names on a volume that Linux 6.1 wrote.
const NAME: &[u8] = b"n386-xxxxxxxxxxxxxxxxxxxxxxxxxxxxxxxxxxxxxxxx";

/// The offset of the key of the entry `default` in every root tree that mkfs.btrfs makes, hashes of no bytes, which leave the
/// start, and the offset of the key of that name.
#[test]
fn names(rt: HostRuntime) {
    let found = [
        name_hash(b"default"),
        raw_crc(7, b""),
        extref_hash((1 << 40) + 7, b""),
        extref_hash(582, NAME),
    ];
    assert!(rt; found == [2378154706, 7, 7, 135676301]);
}

// The order in which Linux 6.1 wrote the two references of one extent, on two volumes.
#[test]
fn references_in_the_order_of_linux(rt: HostRuntime) {
    for (first, second) in &[(586, 580), (563, 557)] {
        assert!(rt; data_ref_hash(5, *first, 0) > data_ref_hash(5, *second, 0));
    }
}
