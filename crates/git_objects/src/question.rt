//! The texts of a question and of the heads of its answers.
ghost use Rattle.std.specs.Prelude.{◌≡◌, IfOk};
ghost use Rattle.git_objects.specs.CatFile.{head_of, head_start, question_of};

use eden_base::NoMemory;
use std::alloc::Global;

/// Returns the question for `object`.
pub(crate) fn question_of(alloc: Global, object: &[u8; 20]) -> Result<Vec<u8>, NoMemory>
    ensures question { IfOk result (λ text. text.items ≡ question_of object.now) }
{
    let id = hex::encode(alloc, *object)?;
    let mut text = Vec::from_slice(alloc, id.as_bytes())?;
    text.push(b'\n')?;
    Ok(text)
}

/// Returns what the head of an answer begins with: the id of `object`, a space and `word`.
pub(crate) fn head_start(alloc: Global, object: &[u8; 20], word: &[u8]) -> Result<Vec<u8>, NoMemory>
    ensures start { IfOk result (λ text. text.items ≡ head_start object.now word.now) }
{
    let id = hex::encode(alloc, *object)?;
    let mut text = Vec::from_slice(alloc, id.as_bytes())?;
    text.push(b' ')?;
    text.extend_from_slice(word)?;
    Ok(text)
}

/// Returns the head of the answer that has the blob `object` of `size` bytes.
pub(crate) fn head_of(alloc: Global, object: &[u8; 20], size: u64) -> Result<Vec<u8>, NoMemory>
    ensures head { IfOk result (λ text. text.items ≡ head_of object.now size) }
{
    let mut text = head_start(alloc, object, b"blob ")?;
    let digits = format!(in alloc; "{size}")?;
    text.extend_from_slice(digits.as_bytes())?;
    text.push(b'\n')?;
    Ok(text)
}
