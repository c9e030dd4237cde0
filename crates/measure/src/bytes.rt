//! Bytes that are written one after another.
use std::alloc::AllocError;

/// Appends each of `parts` to `text`.
pub(crate) fn put_all(text: &mut Vec<u8>, parts: &[&[u8]]) -> Result<(), AllocError> {
    for part in parts {
        text.extend_from_slice(part)?;
    }
    Ok(())
}
