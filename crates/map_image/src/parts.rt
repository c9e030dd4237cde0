//! The parts in which a text is sent if it isn't sent whole.
ghost use Rattle.std.specs.Prelude.{◌≡◌, ◌≤◌, length, IfOk};
ghost use Rattle.map_image.specs.Parts.{AreParts};

use byte_codec::Bytes;
use eden_base::NoMemory;
use std::alloc::Global;
use std::sync::Arc;

/// The length of each part but the last.
pub const PART_LEN: usize = 4_096;

/// Copies a part that came, for a `PartReader` to keep.
pub(crate) fn copied(alloc: Global, part: &[u8]) -> Result<Bytes, NoMemory>
    ensures { IfOk result (λ copy. copy ≡ part.now) }
{
    match part.to_vec(alloc) {
        Ok(bytes) => Ok(Bytes::of(bytes)),
        Err(_) => Err(NoMemory),
    }
}

/// Cuts a text into parts of 4,096 bytes, of which the last may be shorter. The parts share the text: memory is taken for
/// their list, and for what counts the owners of the text.
pub fn cut(alloc: Global, text: Vec<u8>) -> Result<Vec<Bytes>, NoMemory>
    requires some { 1 ≤ length text.items }
    ensures parts { IfOk result (λ parts. AreParts text.items parts.items) }
{
    let Ok(mut parts) = Vec::with_capacity(alloc, text.len().div_ceil(PART_LEN)) else {
        return Err(NoMemory);
    };
    let whole = Arc::new(alloc, text)?;
    let mut from = 0;
    let mut rest = whole.as_slice();
    while rest.len() > PART_LEN {
        parts.push_reserved(Bytes::shared(&whole, from, PART_LEN)?);
        from += PART_LEN;
        let (_part, behind) = rest.split_at(PART_LEN);
        rest = behind;
    }
    parts.push_reserved(Bytes::shared(&whole, from, rest.len())?);
    Ok(parts)
}
