//! Fields that are written and read with their highest byte first.
//!
//! `codec put BYTE TWO FOUR EIGHT LETTERS`: the bytes of numbers of one, two, four and eight bytes, and of letters.
//! `codec take BYTES`: the same fields, with three letters, at the front of BYTES, and what is behind them, or `Short`.
//! `codec number BYTES`: the number in two, four or eight BYTES. `codec bytes N BYTES`: BYTES without the first N, then the
//! memory that these give back, and the index in it at which they begin. `codec equal BYTES BYTES`. `codec cut N FRONT
//! BYTES`: BYTES without the first N, then with FRONT before them, and then whether two owners of these have the same, and
//! what the second one has.
ghost use Rattle.std.specs.Prelude.{◌+◌, length};
ghost use Rattle.byte_codec.specs.Writing.{HasRoom};

use byte_codec::{
    Bytes, byte_at, bytes_at, put_byte, put_slice, put_u16, put_u32, put_u64, u16_at, u16_in,
    u32_at, u32_in, u64_at, u64_in,
};
use row_words::{Output, RowFault, Words, chosen};

/// The calls of fields.
#[derive(Clone, Copy)]
enum CodecCall {
    Put,
    Take,
    Number,
    Bytes,
    Equal,
    Cut,
}

static CODEC_CALLS: [(&str, CodecCall); 6] = [
    ("put", CodecCall::Put),
    ("take", CodecCall::Take),
    ("number", CodecCall::Number),
    ("bytes", CodecCall::Bytes),
    ("equal", CodecCall::Equal),
    ("cut", CodecCall::Cut),
];

/// Says that a field is cut off.
#[derive(Clone, Copy)]
struct Short;

/// Appends fields to `out`.
#[tactic(auto, using(byte_codec::proofs::WriteLemmas::fields_written))]
fn put_fields(out: &mut Vec<u8>, numbers: [u64; 4], letters: &[u8])
    requires room { HasRoom out.old (15 + length letters.now) }
{
    put_byte(out, (numbers[0] % 256) as u8);
    put_u16(out, (numbers[1] % 65_536) as u16);
    put_u32(out, (numbers[2] % 4_294_967_296) as u32);
    put_u64(out, numbers[3]);
    put_slice(out, letters);
}

/// Writes the fields that `words` tell.
fn put(words: &mut Words<'_>, output: &mut Output) -> Result<(), RowFault> {
    let byte = words.number();
    let two = words.number();
    let four = words.number();
    let numbers = [byte, two, four, words.number()];
    let letters = words.bytes();
    let mut out = Vec::new(words.alloc());
    out.reserve(letters.len().saturating_add(15))?;
    put_fields(&mut out, numbers, letters.as_slice());
    output.bytes(out.as_slice());
    words.end()
}

/// Writes the fields at the front of `bytes`.
fn tell_fields(bytes: &[u8], output: &mut Output) -> Result<(), Short> {
    let (byte, rest) = byte_at(bytes, Short)?;
    let (two, rest) = u16_at(rest, Short)?;
    let (four, rest) = u32_at(rest, Short)?;
    let (eight, rest) = u64_at(rest, Short)?;
    let (letters, rest) = bytes_at(rest, 3, Short)?;
    output.number(u64::from(byte));
    output.number(u64::from(two));
    output.number(u64::from(four));
    output.number(eight);
    output.bytes(letters);
    output.bytes(rest);
    Ok(())
}

/// Writes the number that all of `field` tells.
fn tell_number(field: &[u8], output: &mut Output) {
    match field.len() {
        2 => output.number(u64::from(u16_in(field))),
        4 => output.number(u64::from(u32_in(field))),
        8 => output.number(u64_in(field)),
        _ => output.word("none"),
    }
}

/// Writes the fields at the front of `bytes`, or `Short`.
fn take(bytes: &[u8], output: &mut Output) {
    if tell_fields(bytes, output).is_err() {
        output.word("Short");
    }
}

/// Leaves the first `count` of `bytes` out, and writes the others, the memory that they give back, and where they begin.
fn tell_bytes(count: usize, bytes: Vec<u8>, output: &mut Output) -> Result<(), RowFault> {
    if count > bytes.len() {
        return Err(RowFault::BadRow);
    }
    let rest = Bytes::of(bytes).after(count);
    output.bytes(rest.as_slice());
    match rest.into_memory() {
        Some((memory, from)) => {
            output.bytes(memory.as_slice());
            output.number(from as u64);
        }
        None => output.word("shared"),
    }
    Ok(())
}

/// Cuts bytes, puts others before them, and shares them.
fn cut(words: &mut Words<'_>, output: &mut Output) -> Result<(), RowFault> {
    let alloc = words.alloc();
    let count = words.number() as usize;
    let front = words.bytes();
    let bytes = Bytes::of(words.bytes());
    words.end()?;
    if count > bytes.as_slice().len() {
        return Err(RowFault::BadRow);
    }
    let rest = bytes.after(count);
    output.bytes(rest.as_slice());
    let whole = rest.with_front(alloc, front.as_slice())?;
    output.bytes(whole.as_slice());
    let (first, second) = whole.twice(alloc)?;
    output.flag(first == second);
    output.bytes(second.as_slice());
    Ok(())
}

/// Makes a call of fields.
pub(crate) fn call_codec(words: &mut Words<'_>, output: &mut Output) -> Result<(), RowFault> {
    match chosen(&CODEC_CALLS, words.word()).ok_or(RowFault::BadRow)? {
        CodecCall::Put => return put(words, output),
        CodecCall::Cut => return cut(words, output),
        CodecCall::Take => take(words.bytes().as_slice(), output),
        CodecCall::Number => tell_number(words.bytes().as_slice(), output),
        CodecCall::Equal => output.flag(Bytes::of(words.bytes()) == Bytes::of(words.bytes())),
        CodecCall::Bytes => tell_bytes(words.number() as usize, words.bytes(), output)?,
    }
    words.end()
}
