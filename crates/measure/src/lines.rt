//! Manifests of directories with 62 or 63 files each.
use crate::names::EACH;
use eden_base::NoMemory;
use manifest::Manifest;
use std::alloc::{AllocError, Global};

/// Returns line `i` of a manifest. Each sixty-fourth line is a directory, and the lines after it are the directory's
/// files.
fn line_of(alloc: Global, i: u64) -> Result<String, AllocError> {
    let dir = i / EACH;
    if i % EACH == 0 {
        format!(in alloc; "dir directory{dir}\n")
    } else {
        format!(in alloc; "file 0644 {i} directory{dir}/file{i}.txt\n")
    }
}

/// Appends line `i` of a manifest to `text`.
fn put_line(alloc: Global, text: &mut Vec<u8>, i: u64) -> Result<(), AllocError> {
    let line = line_of(alloc, i)?;
    let done = text.extend_from_slice(line.as_bytes());
    drop(line);
    done
}

/// Makes the text of a manifest: the commit, line 0, which is a directory, and the lines from `first` up to but not
/// including `end`.
pub(crate) fn manifest_text(alloc: Global, first: u64, end: u64) -> Result<Vec<u8>, AllocError> {
    let mut text = Vec::from_slice(alloc, b"commit 0123456789abcdef0123456789abcdef01234567\n")?;
    put_line(alloc, &mut text, 0)?;
    for i in first..end {
        put_line(alloc, &mut text, i)?;
    }
    Ok(text)
}

/// Reads the manifest that `text` writes. It does write one, so only memory can be refused.
pub(crate) fn manifest_from(alloc: Global, text: Vec<u8>) -> Result<Manifest, NoMemory> {
    match Manifest::read(alloc, text.as_slice()) {
        Ok(manifest) => Ok(manifest),
        Err(_fault) => Err(NoMemory),
    }
}
