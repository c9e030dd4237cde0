//! A piece of an image, read after the rest of the pieces before it.
ghost use Rattle.std.specs.Prelude.{◌≡◌, ◌++◌, IfOk, OnOk};
ghost use Rattle.map_image.specs.Feeding.{Feeds, IsCut, KnowsParents, OnlyAdds, Reads};

use crate::ImageFault;
use crate::reading::Reading;
use eden_base::NoMemory;
use std::alloc::Global;

/// Makes a copy of `bytes`.
fn copied_bytes(alloc: Global, bytes: &[u8]) -> Result<Vec<u8>, NoMemory>
    ensures { IfOk result (λ copy. copy.items ≡ bytes.now) }
{
    let mut copy = Vec::new(alloc);
    copy.extend_from_slice(bytes)?;
    Ok(copy)
}

/// Makes one list of `first` and then `second`.
fn joined(alloc: Global, first: &[u8], second: &[u8]) -> Result<Vec<u8>, NoMemory>
    ensures { IfOk result (λ both. both.items ≡ first.now ++ second.now) }
{
    let mut both = copied_bytes(alloc, first)?;
    both.extend_from_slice(second)?;
    Ok(both)
}

/// Reads what is whole of `bytes`, which come next, and returns a copy of the rest.
fn take(reading: &mut Reading, bytes: &[u8]) -> Result<Vec<u8>, ImageFault>
    ensures reads { Reads (λ rest. rest.items) reading.old bytes.now reading.new result }
    ensures cut { IfOk result (λ rest. IsCut reading.new rest.items) }
    ensures adds { OnlyAdds reading.old reading.new }
    ensures parents { KnowsParents reading.old → OnOk result (KnowsParents reading.new) }
{
    let alloc = reading.alloc;
    let rest = reading.take(bytes)?;
    match copied_bytes(alloc, rest) {
        Ok(copy) => Ok(copy),
        Err(NoMemory) => Err(ImageFault::NoMemory),
    }
}

/// Reads what is whole of `tail` and then `piece`, and returns a copy of the rest. If `tail` is empty, `piece` is read
/// without being copied first.
fn take_behind(reading: &mut Reading, tail: &[u8], piece: &[u8]) -> Result<Vec<u8>, ImageFault>
    ensures reads { Reads (λ rest. rest.items) reading.old (tail.now ++ piece.now) reading.new result }
    ensures cut { IfOk result (λ rest. IsCut reading.new rest.items) }
    ensures adds { OnlyAdds reading.old reading.new }
    ensures parents { KnowsParents reading.old → OnOk result (KnowsParents reading.new) }
{
    if tail.is_empty() {
        return take(reading, piece);
    }
    let Ok(both) = joined(reading.alloc, tail, piece) else {
        return Err(ImageFault::NoMemory);
    };
    take(reading, both.as_slice())
}

/// Reads what is whole of `tail` and then `piece`, and makes the rest the new `tail`. If memory is refused, `reading`
/// and `tail` are unchanged.
pub(crate) fn feed(
    reading: &mut Reading,
    tail: &mut Vec<u8>,
    piece: &[u8],
) -> Result<(), ImageFault>
    ensures feeds { Feeds reading.old tail.old.items piece.now reading.new tail.new.items result }
    ensures parents { KnowsParents reading.old → OnOk result (KnowsParents reading.new) }
{
    let mark = reading.mark();
    match take_behind(reading, tail.as_slice(), piece) {
        Ok(rest) => {
            *tail = rest;
            Ok(())
        }
        Err(fault) => match fault {
            ImageFault::NoMemory => {
                reading.back_to(mark);
                Err(ImageFault::NoMemory)
            }
            _ => Err(fault),
        },
    }
}
