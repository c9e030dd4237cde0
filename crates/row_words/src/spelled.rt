//! Requests, answers and their parts, spelled as scripts write and print them (docs/SCRIPTS.md):
//!
//! `lookup N NAME`, `create N MODE NAME`, `mkdir N MODE NAME`, `unlink N NAME`, `rmdir N NAME`, `rename N NEWDIR OLD/NEW`,
//! `getattr N`, `readlink N`, `read N OFFSET SIZE`, `readdir N OFFSET SIZE`, `other OPCODE N`, `forget N K`, and
//! `forgets N K ..` for a batch of forgets;
//! `entry M KIND PERM SIZE NLINK`, `opened ..`, `attr ..`, `done`, `buffer BYTES`, `extent FILE OFFSET LENGTH` and
//! `error ERRNO`.
//!
//! A request or an answer is the last of a call's words. What reads it ends the reading.
ghost use Rattle.std.specs.Prelude.{IfOk};
ghost use Rattle.fuse_wire.specs.Request.{IsSendable};

use crate::output::Output;
use crate::row_fault::RowFault;
use crate::table::chosen;
use crate::words::Words;
use byte_codec::Bytes;
use eden_base::{Attr, Errno, FileId, Kind, Name, NameFault, Number, Perm, cut};
use fuse_wire::{Answer, Batch, Buffer, Extent, Item, Items, Request, WireFault};
use std::alloc::Global;

static ERRNOS: [Errno; 13] = [
    Errno::ENOENT,
    Errno::EIO,
    Errno::ENOMEM,
    Errno::EEXIST,
    Errno::ENOTDIR,
    Errno::EISDIR,
    Errno::EINVAL,
    Errno::ENOSPC,
    Errno::ENAMETOOLONG,
    Errno::ENOSYS,
    Errno::ENOTEMPTY,
    Errno::EOVERFLOW,
    Errno::ESTALE,
];

/// The kinds of answers.
#[derive(Clone, Copy)]
enum AnswerKind {
    Entry,
    Opened,
    Attrs,
    Done,
    Buffer,
    Extent,
    Error,
}

static ANSWER_KINDS: [(&str, AnswerKind); 7] = [
    ("entry", AnswerKind::Entry),
    ("opened", AnswerKind::Opened),
    ("attr", AnswerKind::Attrs),
    ("done", AnswerKind::Done),
    ("buffer", AnswerKind::Buffer),
    ("extent", AnswerKind::Extent),
    ("error", AnswerKind::Error),
];

/// The kinds of requests that have a directory and a name in it, and nothing else.
#[derive(Clone, Copy)]
enum NamedKind {
    Lookup,
    Unlink,
    Rmdir,
}

/// The kinds of requests.
#[derive(Clone, Copy)]
enum RequestKind {
    Named(NamedKind),
    Create,
    Mkdir,
    Rename,
    Getattr,
    Readlink,
    Read,
    Readdir,
    Other,
    Forget,
    Forgets,
}

static REQUEST_KINDS: [(&str, RequestKind); 13] = [
    ("lookup", RequestKind::Named(NamedKind::Lookup)),
    ("unlink", RequestKind::Named(NamedKind::Unlink)),
    ("rmdir", RequestKind::Named(NamedKind::Rmdir)),
    ("create", RequestKind::Create),
    ("mkdir", RequestKind::Mkdir),
    ("rename", RequestKind::Rename),
    ("getattr", RequestKind::Getattr),
    ("readlink", RequestKind::Readlink),
    ("read", RequestKind::Read),
    ("readdir", RequestKind::Readdir),
    ("other", RequestKind::Other),
    ("forget", RequestKind::Forget),
    ("forgets", RequestKind::Forgets),
];

/// Returns how the fault of bytes that are no name is spelled.
pub fn name_fault(fault: NameFault) -> &'static str {
    match fault {
        NameFault::Empty => "Empty",
        NameFault::TooLong => "TooLong",
        NameFault::BadByte => "BadByte",
        NameFault::Dots => "Dots",
        NameFault::NoMemory => "NoMemory",
    }
}

/// Writes the fault of bytes that are no message. That of a name has `BadName` before it.
pub fn tell_wire_fault(output: &mut Output, fault: WireFault) {
    match fault {
        WireFault::Short => output.word("Short"),
        WireFault::BadLength => output.word("BadLength"),
        WireFault::BadBody => output.word("BadBody"),
        WireFault::BadCount => output.word("BadCount"),
        WireFault::NoMemory => output.word("NoMemory"),
        WireFault::BadName(fault) => {
            output.word("BadName");
            output.word(name_fault(fault));
        }
    }
}

/// Makes the name of `bytes`.
pub fn name_of(alloc: Global, bytes: &[u8]) -> Result<Name, RowFault> {
    match Name::parse(alloc, bytes) {
        Ok(name) => Ok(name),
        Err(NameFault::NoMemory) => Err(RowFault::NoMemory),
        Err(_) => Err(RowFault::BadRow),
    }
}

/// Returns the number that octal digits write, if it fits 16 bits.
pub fn octal(digits: &[u8]) -> Option<u16> {
    let mut value: u16 = 0;
    for byte in digits {
        let digit = byte.checked_sub(b'0')?;
        if digit > 7 {
            return None;
        }
        value = value.checked_mul(8)?.checked_add(u16::from(digit))?;
    }
    Some(value)
}

/// Reads the next word as permissions in octal digits.
pub fn read_perm(words: &mut Words<'_>) -> Perm {
    match octal(words.word()).and_then(Perm::of) {
        Some(perm) => perm,
        None => {
            words.refuse();
            Perm::DIRECTORY
        }
    }
}

/// Reads the next word as `file`, `dir` or `link`.
pub fn read_kind(words: &mut Words<'_>) -> Kind {
    match words.word() {
        b"file" => Kind::File,
        b"dir" => Kind::Dir,
        b"link" => Kind::Link,
        _ => {
            words.refuse();
            Kind::File
        }
    }
}

/// Reads the next word as a number of 32 bits.
pub fn read_u32(words: &mut Words<'_>) -> u32 {
    match u32::try_from(words.number()) {
        Ok(number) => number,
        Err(_) => {
            words.refuse();
            0
        }
    }
}

/// Reads the next word as an error.
pub fn read_errno(words: &mut Words<'_>) -> Errno {
    let word = words.word();
    for errno in &ERRNOS {
        if errno.name().as_bytes() == word {
            return *errno;
        }
    }
    words.refuse();
    Errno::EIO
}

/// Reads attributes: `KIND PERM SIZE NLINK`.
pub fn read_attr(words: &mut Words<'_>) -> Attr {
    let kind = read_kind(words);
    let perm = read_perm(words);
    let size = words.number();
    let nlink = read_u32(words);
    Attr {
        kind,
        perm,
        size,
        nlink,
    }
}

/// Reads a number and the attributes of its file.
fn read_file(words: &mut Words<'_>) -> (Number, Attr) {
    let number = Number(words.number());
    (number, read_attr(words))
}

/// Reads an extent: a file's id, an offset and a length.
fn read_extent(words: &mut Words<'_>) -> Extent {
    let file = FileId(words.number());
    let offset = words.number();
    let len = read_u32(words);
    Extent { file, offset, len }
}

/// Reads the words that are left as an answer.
pub fn read_answer(words: &mut Words<'_>) -> Result<Answer, RowFault> {
    let kind = chosen(&ANSWER_KINDS, words.word()).ok_or(RowFault::BadRow)?;
    let answer = match kind {
        AnswerKind::Entry => {
            let (number, attr) = read_file(words);
            Answer::Entry { number, attr }
        }
        AnswerKind::Opened => {
            let (number, attr) = read_file(words);
            Answer::Opened { number, attr }
        }
        AnswerKind::Attrs => {
            let (number, attr) = read_file(words);
            Answer::Attrs { number, attr }
        }
        AnswerKind::Done => Answer::Done,
        AnswerKind::Buffer => {
            let buffer = Buffer::of(Bytes::of(words.bytes()));
            Answer::Buffer(buffer.ok_or(RowFault::BadRow)?)
        }
        AnswerKind::Extent => Answer::Extent(read_extent(words)),
        AnswerKind::Error => Answer::Error(read_errno(words)),
    };
    words.end()?;
    Ok(answer)
}

/// Reads the words behind `getattr`.
fn read_getattr(words: &mut Words<'_>) -> Result<Request, RowFault>
    ensures sendable { IfOk result IsSendable }
{
    let node = Number(words.number());
    words.end()?;
    Ok(Request::Getattr { node })
}

/// Reads the words behind `readlink`.
fn read_readlink(words: &mut Words<'_>) -> Result<Request, RowFault>
    ensures sendable { IfOk result IsSendable }
{
    let node = Number(words.number());
    words.end()?;
    Ok(Request::Readlink { node })
}

/// Reads the words behind `read`.
fn read_read(words: &mut Words<'_>) -> Result<Request, RowFault>
    ensures sendable { IfOk result IsSendable }
{
    let node = Number(words.number());
    let offset = words.number();
    let size = read_u32(words);
    words.end()?;
    Ok(Request::Read { node, offset, size })
}

/// Reads the words behind `readdir`.
fn read_readdir(words: &mut Words<'_>) -> Result<Request, RowFault>
    ensures sendable { IfOk result IsSendable }
{
    let dir = Number(words.number());
    let offset = words.number();
    let size = read_u32(words);
    words.end()?;
    Ok(Request::Readdir { dir, offset, size })
}

/// Reads the words behind `other`.
#[tactic(auto, unfolding(fuse_wire::specs::Request::opcode_of))]
fn read_other(words: &mut Words<'_>) -> Result<Request, RowFault>
    ensures sendable { IfOk result IsSendable }
{
    let opcode = read_u32(words);
    let node = Number(words.number());
    words.end()?;
    Request::other(opcode, node).ok_or(RowFault::BadRow)
}

/// Reads the words behind `forget`.
fn read_forget(words: &mut Words<'_>) -> Result<Request, RowFault>
    ensures sendable { IfOk result IsSendable }
{
    let node = Number(words.number());
    let k = words.number();
    words.end()?;
    Ok(Request::Forget(Item { node, k }))
}

/// Reads an item, a number and a count, and adds it to `items`.
fn read_item(words: &mut Words<'_>, items: &mut Items) {
    let node = Number(words.number());
    let k = words.number();
    if items.len() < Items::MAX_LEN {
        items.push(Item { node, k });
    } else {
        words.refuse();
    }
}

/// Reads the words that are left as items.
pub fn read_items(words: &mut Words<'_>) -> Result<Items, RowFault> {
    let mut items = Items::new();
    for _item in 0..=Items::MAX_LEN {
        if !words.has_more() {
            break;
        }
        read_item(words, &mut items);
    }
    words.end()?;
    Ok(items)
}

/// Reads the words behind `forgets`.
fn read_forgets(alloc: Global, words: &mut Words<'_>) -> Result<Request, RowFault>
    ensures sendable { IfOk result IsSendable }
{
    let items = read_items(words)?;
    Ok(Request::BatchForget(Batch::of(alloc, items.as_slice())?))
}

/// Reads the words behind `lookup`, `unlink` or `rmdir`, as `kind` says.
fn read_named(alloc: Global, kind: NamedKind, words: &mut Words<'_>) -> Result<Request, RowFault>
    ensures sendable { IfOk result IsSendable }
{
    let dir = Number(words.number());
    let bytes = words.bytes();
    words.end()?;
    let name = name_of(alloc, bytes.as_slice())?;
    Ok(match kind {
        NamedKind::Lookup => Request::Lookup { dir, name },
        NamedKind::Unlink => Request::Unlink { dir, name },
        NamedKind::Rmdir => Request::Rmdir { dir, name },
    })
}

/// Reads the words behind `create`, or else behind `mkdir`.
fn read_made(alloc: Global, is_create: bool, words: &mut Words<'_>) -> Result<Request, RowFault>
    ensures sendable { IfOk result IsSendable }
{
    let dir = Number(words.number());
    let perm = read_perm(words);
    let bytes = words.bytes();
    words.end()?;
    let name = name_of(alloc, bytes.as_slice())?;
    if is_create {
        Ok(Request::Create { dir, name, perm })
    } else {
        Ok(Request::Mkdir { dir, name, perm })
    }
}

/// Reads the words behind `rename`.
fn read_move(alloc: Global, words: &mut Words<'_>) -> Result<Request, RowFault>
    ensures sendable { IfOk result IsSendable }
{
    let dir = Number(words.number());
    let to_dir = Number(words.number());
    let bytes = words.bytes();
    words.end()?;
    let (old, new) = cut(bytes.as_slice(), b'/').ok_or(RowFault::BadRow)?;
    let name = name_of(alloc, old)?;
    let to_name = name_of(alloc, new)?;
    Ok(Request::Rename {
        dir,
        name,
        to_dir,
        to_name,
    })
}

/// Reads the words that are left as a request.
pub fn read_request(alloc: Global, words: &mut Words<'_>) -> Result<Request, RowFault>
    ensures sendable { IfOk result IsSendable }
{
    let kind = chosen(&REQUEST_KINDS, words.word()).ok_or(RowFault::BadRow)?;
    match kind {
        RequestKind::Named(kind) => read_named(alloc, kind, words),
        RequestKind::Create => read_made(alloc, true, words),
        RequestKind::Mkdir => read_made(alloc, false, words),
        RequestKind::Rename => read_move(alloc, words),
        RequestKind::Getattr => read_getattr(words),
        RequestKind::Readlink => read_readlink(words),
        RequestKind::Read => read_read(words),
        RequestKind::Readdir => read_readdir(words),
        RequestKind::Other => read_other(words),
        RequestKind::Forget => read_forget(words),
        RequestKind::Forgets => read_forgets(alloc, words),
    }
}

/// Writes attributes.
pub fn tell_attr(output: &mut Output, attr: &Attr) {
    output.word(attr.kind.name());
    output.octal(attr.perm.bits());
    output.number(attr.size);
    output.number(u64::from(attr.nlink));
}

/// Writes `word`, a number, and the attributes of its file.
fn tell_file(output: &mut Output, word: &str, number: Number, attr: &Attr) {
    output.word(word);
    output.number(number.0);
    tell_attr(output, attr);
}

/// Writes an answer.
pub fn tell_answer(output: &mut Output, answer: &Answer) {
    match answer {
        Answer::Entry { number, attr } => tell_file(output, "entry", *number, attr),
        Answer::Opened { number, attr } => tell_file(output, "opened", *number, attr),
        Answer::Attrs { number, attr } => tell_file(output, "attr", *number, attr),
        Answer::Done => output.word("done"),
        Answer::Buffer(buffer) => {
            output.word("buffer");
            output.bytes(buffer.as_slice());
        }
        Answer::Extent(extent) => {
            output.word("extent");
            output.number(extent.file.0);
            output.number(extent.offset);
            output.number(u64::from(extent.len));
        }
        Answer::Error(errno) => {
            output.word("error");
            output.word(errno.name());
        }
    }
}

/// Writes the number and the count of each item.
pub fn tell_items(output: &mut Output, items: &[Item]) {
    for item in items {
        output.number(item.node.0);
        output.number(item.k);
    }
}

/// Writes `word`, a directory's number, and a name in it.
fn tell_named(output: &mut Output, word: &str, dir: Number, name: &Name) {
    output.word(word);
    output.number(dir.0);
    output.bytes(name.bytes());
}

/// Writes `word`, a directory's number, permissions, and a name in it.
fn tell_made(output: &mut Output, word: &str, dir: Number, perm: Perm, name: &Name) {
    output.word(word);
    output.number(dir.0);
    output.octal(perm.bits());
    output.bytes(name.bytes());
}

/// Writes a request.
pub fn tell_request(output: &mut Output, request: &Request) {
    match request {
        Request::Lookup { dir, name } => tell_named(output, "lookup", *dir, name),
        Request::Unlink { dir, name } => tell_named(output, "unlink", *dir, name),
        Request::Rmdir { dir, name } => tell_named(output, "rmdir", *dir, name),
        Request::Create { dir, name, perm } => tell_made(output, "create", *dir, *perm, name),
        Request::Mkdir { dir, name, perm } => tell_made(output, "mkdir", *dir, *perm, name),
        Request::Rename {
            dir,
            name,
            to_dir,
            to_name,
        } => {
            output.word("rename");
            output.number(dir.0);
            output.number(to_dir.0);
            output.bytes(name.bytes());
            output.behind_slash(to_name.bytes());
        }
        _ => tell_of_number(output, request),
    }
}

/// Writes `word`, a number, an offset and a size.
fn tell_range(output: &mut Output, word: &str, node: Number, offset: u64, size: u32) {
    output.word(word);
    output.number(node.0);
    output.number(offset);
    output.number(u64::from(size));
}

/// Writes a request that has no name.
fn tell_of_number(output: &mut Output, request: &Request) {
    match request {
        Request::Getattr { node } => {
            output.word("getattr");
            output.number(node.0);
        }
        Request::Readlink { node } => {
            output.word("readlink");
            output.number(node.0);
        }
        Request::Read { node, offset, size } => tell_range(output, "read", *node, *offset, *size),
        Request::Readdir { dir, offset, size } => {
            tell_range(output, "readdir", *dir, *offset, *size);
        }
        Request::Other { opcode, node } => {
            output.word("other");
            output.number(u64::from(*opcode));
            output.number(node.0);
        }
        Request::BatchForget(batch) => {
            output.word("forgets");
            tell_items(output, batch.as_slice());
        }
        _ => {
            output.word("forget");
            tell_items(output, request.items());
        }
    }
}
