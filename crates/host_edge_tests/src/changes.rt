use outside::Block;

/// Bytes, and where they are put in a block.
pub type Change = (usize, &'static [u8]);

/// Puts bytes into a block.
pub fn change(block: &mut Block, changes: &[Change]) {
    for (at, bytes) in changes {
        put(block, *at, *bytes);
    }
}

fn put(block: &mut Block, at: usize, bytes: &[u8]) {
    if at <= 4096 && bytes.len() <= 4096 - at {
        block.bytes[at..at + bytes.len()].copy_from_slice(bytes);
    }
}
