//! A part of bytes that are known, filled with zeros.
ghost use Rattle.std.specs.Prelude.{◌≡◌, length, IfOk};
ghost use Rattle.blob_store.specs.Blob.{filled, part};

use eden_base::NoMemory;
use std::alloc::Global;

/// Returns the bytes of `blob` from `offset` on, at most `len` of them.
fn held_part(blob: &[u8], offset: u64, len: usize) -> &[u8]
    ensures part { result.now ≡ part offset len blob.now }
{
    if offset >= blob.len() as u64 {
        return &[];
    }
    let rest = &blob[offset as usize..];
    if rest.len() <= len {
        return rest;
    }
    &rest[..len]
}

/// Copies the bytes of `blob` from `offset` on, at most `len` of them, and fills them with zeros up to `len`.
pub(crate) fn filled_part(
    alloc: Global,
    blob: &[u8],
    offset: u64,
    len: usize,
) -> Result<Vec<u8>, NoMemory>
    ensures len { IfOk result (λ bytes. length bytes.items ≡ len) }
    ensures filled { IfOk result (λ bytes. bytes.items ≡ filled len (part offset len blob.now)) }
{
    let mut bytes = Vec::with_capacity(alloc, len)?;
    bytes.extend_from_slice(held_part(blob, offset, len))?;
    bytes.resize(len, 0)?;
    Ok(bytes)
}
