// Bodies of directory items.
use outside::Memory;
use std::alloc::Global;

/// A name in a directory: the object that it names, by the number of that object's directory and its own, and the name.
pub type Entry = (u32, u32, &'static str);

/// How many bytes of a directory item a name takes behind so many letters: it is filled up with zeros.
fn area(letters: usize, name: &str) -> u16 {
    (letters.saturating_add(name.len()).div_ceil(8) % 512 * 8) as u16
}

/// The body of a directory item with these entries, at most 255. Their offsets are `first` and each next multiple of 128, and each name
/// stands behind so many letters `x`.
pub fn entries_body(
    alloc: Global,
    first: u32,
    letters: usize,
    entries: &[Entry],
) -> Result<Vec<u8>, Memory> {
    let mut end = (entries.len() % 256 * 16) as u16;
    for entry in entries {
        end = end.wrapping_add(area(letters, entry.2));
    }
    let mut body = Vec::new(alloc);
    let mut offset = first;
    for entry in entries {
        end = end.wrapping_sub(area(letters, entry.2));
        body.extend_from_slice(&offset.to_le_bytes())?;
        body.extend_from_slice(&entry.0.to_le_bytes())?;
        body.extend_from_slice(&entry.1.to_le_bytes())?;
        body.extend_from_slice(&end.to_le_bytes())?;
        body.extend_from_slice(&[4, 0])?;
        offset = offset.wrapping_add(128);
    }
    for entry in entries.iter().rev() {
        let end = body.len().saturating_add(area(letters, entry.2) as usize);
        body.resize(body.len().saturating_add(letters), b'x')?;
        body.extend_from_slice(entry.2.as_bytes())?;
        body.resize(end, 0)?;
    }
    Ok(body)
}
