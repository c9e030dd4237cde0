//! The answer to a question, which is read from git's output.
ghost use Rattle.std.specs.Prelude.{◌≡◌, ◌++◌, ◌∷◌, ◌≤◌, [], length, true, false, Option, Some, None, IfOk, IfErr, OnOk, ◌≢◌};
ghost use Rattle.std.specs.Io.KnownBytes.{Appends, Consumes};
ghost use Rattle.git_objects.specs.CatFile.{Copies, CopiesAs, IsCopied, answer_of, fault_of, is_of_another_type, is_of_type, head_of, head_start, missing_of, told_by};

use crate::fault::ObjectFault;
use crate::name::hasher_of;
use crate::question::{head_of, head_start};
use crate::sought::Sought;
use eden_base::NoMemory;
use sha1::Sha1;
use std::alloc::Global;
use std::io::{self, Error, ErrorKind, Read, Write};

/// How many bytes the head of an answer has at most, with its LF.
const MAX_HEAD: usize = 128;

/// How many bytes of a blob are copied to a file at a time.
const PIECE: u64 = 1 << 20;

/// Returns the fault of an answer that could not be read for `error`.
fn unread(error: Error) -> ObjectFault
    ensures { result ≢ ObjectFault.Missing }
{
    match error.kind() {
        ErrorKind::OutOfMemory => ObjectFault::NoMemory,
        ErrorKind::WouldBlock => ObjectFault::Late,
        ErrorKind::InvalidData => ObjectFault::Unreadable,
        _ => ObjectFault::Ended,
    }
}

/// Returns whether `line` is the head of an answer that has `object` as one of the type `word`.
fn is_of_type(alloc: Global, object: &[u8; 20], word: &[u8], line: &[u8]) -> Result<bool, NoMemory>
    ensures { IfOk result (λ is. is ≡ is_of_type object.now word.now line.now) }
{
    let start = head_start(alloc, object, word)?;
    Ok(line.starts_with(start.as_slice()))
}

/// Returns whether `line` is the head of an answer that has `object`, which is no blob.
fn is_of_another_type(alloc: Global, object: &[u8; 20], line: &[u8]) -> Result<bool, NoMemory>
    ensures { IfOk result (λ is. is ≡ is_of_another_type object.now line.now) }
{
    let is_tree = is_of_type(alloc, object, b"tree ", line)?;
    let is_commit = is_of_type(alloc, object, b"commit ", line)?;
    let is_tag = is_of_type(alloc, object, b"tag ", line)?;
    Ok(is_tree || is_commit || is_tag)
}

/// Returns the answer by which git has no blob for `object`, with `word` for the reason.
fn refusal(alloc: Global, object: &[u8; 20], word: &[u8]) -> Result<Vec<u8>, NoMemory>
    ensures { IfOk result (λ text. text.items ≡ head_start object.now word.now ++ 10 ∷ []) }
{
    let mut text = head_start(alloc, object, word)?;
    text.push(b'\n')?;
    Ok(text)
}

/// Returns the fault that `line` tells, which is no head of the wanted blob.
fn fault_of(alloc: Global, object: &[u8; 20], line: &[u8]) -> Result<ObjectFault, NoMemory>
    ensures { IfOk result (λ fault. fault ≡ fault_of object.now line.now) }
{
    let missing = refusal(alloc, object, b"missing")?;
    let ambiguous = refusal(alloc, object, b"ambiguous")?;
    let is_blob = is_of_type(alloc, object, b"blob ", line)?;
    let is_another = is_of_another_type(alloc, object, line)?;
    if line == missing.as_slice() {
        return Ok(ObjectFault::Missing);
    }
    if line == ambiguous.as_slice() {
        return Ok(ObjectFault::Ambiguous);
    }
    if is_blob {
        return Ok(ObjectFault::OtherSize);
    }
    if is_another {
        return Ok(ObjectFault::NotABlob);
    }
    Ok(ObjectFault::Unreadable)
}

/// Returns the fault that `line` tells against `blob`, or none if it is the head of the answer that has it.
fn told_by(alloc: Global, blob: Sought, line: &[u8]) -> Result<Option<ObjectFault>, NoMemory>
    ensures { IfOk result (λ told. told ≡ told_by blob.object blob.size line.now) }
{
    let head = head_of(alloc, &blob.object, blob.size)?;
    if line == head.as_slice() {
        return Ok(None);
    }
    Ok(Some(fault_of(alloc, &blob.object, line)?))
}

/// Reads a line of at most 128 bytes, with its LF.
#[tactic(auto, using(crate::proofs::Copying::known_more, crate::proofs::Copying::known_none))]
fn read_line<I: Read>(alloc: Global, input: &mut I) -> io::Result<Vec<u8>>
    ensures consumed { IfOk result (λ line. Consumes (I.remaining input.old) (I.remaining input.new) line.items) }
{
    let mut line = Vec::with_capacity(alloc, MAX_HEAD)?;
    for _byte in 0..MAX_HEAD {
        let mut byte = [0u8; 1];
        input.read_exact(&mut byte)?;
        line.push(byte[0])?;
        if byte[0] == b'\n' {
            return Ok(line);
        }
    }
    Err(Error::from(ErrorKind::InvalidData))
}

/// Reads the head of the answer that has `blob`.
fn read_head<I: Read>(alloc: Global, input: &mut I, blob: Sought) -> Result<(), ObjectFault>
    ensures head { OnOk result (Consumes (I.remaining input.old) (I.remaining input.new) (head_of blob.object blob.size)) }
    ensures missing { IfErr result (λ fault. fault ≡ ObjectFault.Missing
        → Consumes (I.remaining input.old) (I.remaining input.new) (missing_of blob.object)) }
{
    let line = read_line(alloc, input).map_err(unread)?;
    match told_by(alloc, blob, line.as_slice())? {
        None => Ok(()),
        Some(fault) => Err(fault),
    }
}

/// Reads `size` bytes.
fn read_bytes<I: Read>(alloc: Global, input: &mut I, size: usize) -> Result<Vec<u8>, ObjectFault>
    ensures bytes { IfOk result (λ bytes. Consumes (I.remaining input.old) (I.remaining input.new) bytes.items) }
    ensures size { IfOk result (λ bytes. length bytes.items ≡ size) }
    ensures fault { IfErr result (λ fault. fault ≢ ObjectFault.Missing) }
{
    let Ok(mut bytes) = Vec::with_capacity(alloc, size) else {
        return Err(ObjectFault::NoMemory);
    };
    if bytes.resize(size, 0).is_err() {
        return Err(ObjectFault::NoMemory);
    }
    input.read_exact(bytes.as_mut_slice()).map_err(unread)?;
    Ok(bytes)
}

/// Reads the LF behind a blob.
fn read_end<I: Read>(input: &mut I) -> Result<(), ObjectFault>
    ensures end { OnOk result (Consumes (I.remaining input.old) (I.remaining input.new) (10 ∷ [])) }
    ensures fault { IfErr result (λ fault. fault ≢ ObjectFault.Missing) }
{
    let mut end = [0u8; 1];
    input.read_exact(&mut end).map_err(unread)?;
    if end[0] == b'\n' {
        return Ok(());
    }
    Err(ObjectFault::Unreadable)
}

/// Reads the answer that has `blob`, and returns its bytes.
#[tactic(auto, using(crate::proofs::Copying::is_answered))]
pub(crate) fn read_blob<I: Read>(
    alloc: Global,
    input: &mut I,
    blob: Sought,
) -> Result<Vec<u8>, ObjectFault>
    ensures answered { IfOk result (λ bytes. Consumes (I.remaining input.old) (I.remaining input.new)
        (answer_of blob.object bytes.items)) }
    ensures size { IfOk result (λ bytes. length bytes.items ≡ blob.size) }
    ensures missing { IfErr result (λ fault. fault ≡ ObjectFault.Missing
        → Consumes (I.remaining input.old) (I.remaining input.new) (missing_of blob.object)) }
{
    read_head(alloc, input, blob)?;
    let bytes = read_bytes(alloc, input, blob.size as usize)?;
    read_end(input)?;
    Ok(bytes)
}

/// Copies a piece of `size` bytes to `out`, and hashes it.
#[tactic(auto, using(crate::proofs::Copying::copies))]
fn copy_piece<I: Read, W: Write>(
    alloc: Global,
    input: &mut I,
    size: usize,
    out: &mut W,
    hasher: &mut Sha1,
) -> Result<(), ObjectFault>
    ensures copied { OnOk result (Copies (I.remaining input.old) (I.remaining input.new)
        (W.contents out.old) (W.contents out.new) hasher.old hasher.new size) }
{
    let piece = read_bytes(alloc, input, size)?;
    if let Err(error) = out.write_all(piece.as_slice()) {
        return Err(ObjectFault::NoSpool(error));
    }
    hasher.update(piece.as_slice());
    Ok(())
}

/// Copies the `size` bytes of a blob to `out`, and returns the name that they have. Tells by `told` how many were written,
/// before each piece: those of the last one are known only once that name is.
#[tactic(auto, using(crate::proofs::Copying::copies_none, crate::proofs::Copying::copies_as))]
fn copy_bytes<I: Read, W: Write, F: FnMut(u64)>(
    alloc: Global,
    input: &mut I,
    size: u64,
    out: &mut W,
    told: F,
) -> Result<[u8; 20], ObjectFault>
    requires callable { F.IsAlwaysCallable told }
    ensures copied { IfOk result (CopiesAs (I.remaining input.old) (I.remaining input.new)
        (W.contents out.old) (W.contents out.new) size) }
{
    let mut told = told;
    let mut hasher = hasher_of(alloc, size)?;
    let mut left = size;
    while left > 0 {
        told(size - left);
        let piece = left.min(PIECE);
        copy_piece(alloc, input, piece as usize, out, &mut hasher)?;
        left -= piece;
    }
    Ok(hasher.finalize())
}

/// Reads the answer that has `blob`, and writes its bytes to `out`. Tells by `told` how many were written, but of the last
/// piece. Fails if the bytes have another name than was asked for.
pub(crate) fn copy_blob<I: Read, W: Write, F: FnMut(u64)>(
    alloc: Global,
    input: &mut I,
    blob: Sought,
    out: &mut W,
    told: F,
) -> Result<(), ObjectFault>
    requires callable { F.IsAlwaysCallable told }
    ensures answered { OnOk result (IsCopied (I.remaining input.old) (I.remaining input.new)
        (W.contents out.old) (W.contents out.new) blob.object blob.size) }
{
    read_head(alloc, input, blob)?;
    let name = copy_bytes(alloc, input, blob.size, out, told)?;
    read_end(input)?;
    if name != blob.object {
        return Err(ObjectFault::Damaged);
    }
    Ok(())
}
