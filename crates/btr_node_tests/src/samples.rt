use std::test::Fail;
use vol_block::Block;
use volume_samples::Sample;

/// Where the superblock and the leaves begin, and the checksums that another program, made from the description of the
/// sample alone, wrote there.
const SUMS: [(u64, [u8; 4]); 4] = [
    (16, [0x90, 0xd0, 0x07, 0x3f]),
    (8448, [0x35, 0xa9, 0x8d, 0xbd]),
    (8704, [0xdb, 0xb3, 0x26, 0x45]),
    (8708, [0x8f, 0x79, 0x8d, 0x98]),
];

#[test]
fn checksums(rt: HostRuntime) -> Result<(), Fail> {
    let disk = Sample::PLAIN.disk(rt.alloc())?;
    for (n, sum) in &SUMS {
        assert!(rt; *n < 12288);
        let mut block = Block::zero();
        disk.block(*n, &mut block);
        assert!(rt; block.bytes.starts_with(sum), "of block {n}");
    }
    Ok(())
}
