use std::fs;
use std::fs::Files;
use std::os::unix::fs::FileTypeExt;

/// Whether a block device is at this path. Where nobody can tell there is none.
pub fn is_device<R: Files>(files: &R, path: &str) -> bool {
    match fs::metadata(files, path) {
        Ok(status) => status.file_type().is_block_device(),
        Err(_) => false,
    }
}

/// Which of these words is the path of a folder, from 0 on: the first one. Where nobody can tell there is none.
pub fn folder_in<R: Files>(files: &R, words: &[String]) -> Option<usize> {
    let mut n = 0_usize;
    for word in words {
        if is_folder(files, word.as_str()) {
            return Some(n);
        }
        n = n.saturating_add(1);
    }
    None
}

fn is_folder<R: Files>(files: &R, path: &str) -> bool {
    match fs::metadata(files, path) {
        Ok(status) => status.file_type().is_dir(),
        Err(_) => false,
    }
}
