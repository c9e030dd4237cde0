//! Calls that take memory, each made once more if memory was refused.
use manifest::{Manifest, ManifestFault};
use std::alloc::Global;

/// Reads the manifest in `text`, and tries once more if the first call failed.
pub(crate) fn manifest_of(alloc: Global, text: &[u8]) -> Result<Manifest, ManifestFault> {
    match Manifest::read(alloc, text) {
        Ok(manifest) => Ok(manifest),
        Err(_refused) => Manifest::read(alloc, text),
    }
}

/// Appends `part` to `all`, and tries once more if memory was refused. Returns whether memory sufficed.
fn is_put(all: &mut Vec<u8>, part: &[u8]) -> bool {
    all.extend_from_slice(part).is_ok() || all.extend_from_slice(part).is_ok()
}

/// Appends `parts` to `all`, each once more if memory was refused. Returns whether memory sufficed.
pub(crate) fn are_put(all: &mut Vec<u8>, parts: &[&[u8]]) -> bool {
    let mut so = true;
    for part in parts {
        so = so && is_put(all, part);
    }
    so
}
