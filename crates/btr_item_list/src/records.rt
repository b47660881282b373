// Records of items, appended to a body.
ghost use Rattle.std.specs.Prelude.{◌≡◌, ◌≤◌, ◌<◌, ◌++◌, length, OnOk};
ghost use Rattle.btr_node.specs.btr_keys.DirEntry.{dir_entry_value, dir_entry_bytes};
ghost use Rattle.btr_node.specs.btr_keys.Extref.{extref_value, extref_bytes};
ghost use Rattle.btr_node.specs.btr_keys.FileExtent.{file_extent_value, file_extent_bytes, file_extent_size};
ghost use Rattle.btr_node.specs.btr_keys.InodeRef.{inode_ref_value, inode_ref_bytes};

use btr_node::{DirEntry, ExtentContent, Extref, FileExtent, InodeRef, Memory};

/// A name of at most 65,535 bytes, as each record has; names of an accepted volume have at most 255.
pub fn short(name: &[u8]) -> &[u8]
    ensures small { length result.now < 65536 }
    ensures same { length name.now < 65536 → result.now ≡ name.now }
{
    &name[..name.len().min(65535)]
}

/// Appends an inode ref's record.
pub fn put_inode_ref(body: &mut Vec<u8>, name: &InodeRef<'_>) -> Result<(), Memory>
    requires { length name.now.name.now < 65536 }
    ensures { OnOk result (body.new.items ≡ body.old.items ++ inode_ref_bytes (inode_ref_value name.now)) }
{
    let at = body.len();
    body.resize(at + 10 + name.name.len(), 0)?;
    name.write(&mut body[at..]);
    Ok(())
}

/// Appends an extref's record.
pub fn put_extref(body: &mut Vec<u8>, name: &Extref<'_>) -> Result<(), Memory>
    requires { length name.now.name.now < 65536 }
    ensures { OnOk result (body.new.items ≡ body.old.items ++ extref_bytes (extref_value name.now)) }
{
    let at = body.len();
    body.resize(at + 18 + name.name.len(), 0)?;
    name.write(&mut body[at..]);
    Ok(())
}

/// Appends a directory's entry.
pub fn put_dir_entry(body: &mut Vec<u8>, entry: &DirEntry<'_>) -> Result<(), Memory>
    requires { length entry.now.name.now < 65536 }
    ensures { OnOk result (body.new.items ≡ body.old.items ++ dir_entry_bytes (dir_entry_value entry.now)) }
{
    let at = body.len();
    body.resize(at + 30 + entry.name.len(), 0)?;
    entry.write(&mut body[at..]);
    Ok(())
}

/// Appends a file extent, of at most 65,535 inline bytes.
pub fn put_extent(body: &mut Vec<u8>, extent: &FileExtent<'_>) -> Result<(), Memory>
    requires { file_extent_size (file_extent_value extent.now) < 65536 }
    ensures { OnOk result (body.new.items ≡ body.old.items ++ file_extent_bytes (file_extent_value extent.now)) }
{
    let at = body.len();
    body.resize(at + size_of(extent), 0)?;
    extent.write(&mut body[at..]);
    Ok(())
}

/// How many bytes a file extent takes.
fn size_of(extent: &FileExtent<'_>) -> usize
    requires { file_extent_size (file_extent_value extent.now) < 65536 }
    ensures { result ≡ file_extent_size (file_extent_value extent.now) }
{
    match extent.content {
        ExtentContent::Inline(bytes) => 21 + bytes.len(),
        ExtentContent::Regular(_) | ExtentContent::Prealloc(_) => 53,
    }
}
