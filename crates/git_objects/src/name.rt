//! The names of blobs.
ghost use Rattle.std.specs.Prelude.{◌≡◌, ◌++◌, [], length, IfOk};
ghost use Rattle.sha1.specs.Sha1.{Holds};
ghost use Rattle.git_objects.specs.Content.{blob_name, hash_head};

use eden_base::NoMemory;
use sha1::Sha1;
use std::alloc::Global;

/// Begins the hash of a blob of `size` bytes.
pub(crate) fn hasher_of(alloc: Global, size: u64) -> Result<Sha1, NoMemory>
    ensures head { IfOk result (λ hasher. Holds hasher (hash_head size)) }
{
    let head = format!(in alloc; "blob {size}\0")?;
    let mut hasher = Sha1::new();
    hasher.update(head.as_bytes());
    Ok(hasher)
}

/// Returns the name of the blob that has these bytes.
pub(crate) fn name_of(alloc: Global, bytes: &[u8]) -> Result<[u8; 20], NoMemory>
    ensures name { IfOk result (λ name. name ≡ blob_name bytes.now) }
{
    let mut hasher = hasher_of(alloc, bytes.len() as u64)?;
    hasher.update(bytes);
    Ok(hasher.finalize())
}
