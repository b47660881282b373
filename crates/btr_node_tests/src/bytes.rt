/// The first bytes of some.
pub fn front(bytes: &[u8], count: usize) -> &[u8] {
    &bytes[..count.min(bytes.len())]
}

/// The bytes from a place on.
pub fn behind(bytes: &[u8], at: usize) -> &[u8] {
    &bytes[at.min(bytes.len())..]
}
