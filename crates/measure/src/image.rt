//! What an image costs: it is read, restored, made again and written, once each, so that the instructions of a call can
//! be counted. `measure image ENTRIES UNLINKED` does so for ENTRIES entries, of which UNLINKED are unlinked. With the
//! word `times` it prints the nanoseconds of each call, divided by ENTRIES. An image that is too long is not written.
ghost use Rattle.std.specs.Prelude.{IfOk};
ghost use Rattle.map_image.specs.Fit.{CountsFit, IsFit};

use crate::bytes::put_all;
use crate::clock::{each_since, moment};
use crate::figures::Figures;
use crate::lines::manifest_from;
use crate::names::{EACH, name_text, parent_of};
use crate::words::number_at;
use eden_base::NoMemory;
use fuse_ops::Served;
use manifest::Manifest;
use map_codec::{RaiseFault, image_of, raise};
use map_image::{Image, ImageFault, ImageReader, NamedBy, WriteFault, read, write};
use std::alloc::{AllocError, Global};

/// Returns how many attributes may be loaded. If the caller wrote this number itself, the proof of `image_raised` would
/// take several times as long.
fn loaded_limit() -> usize {
    64
}

/// Appends the manifest's line for entry `i` to `text`.
fn put_line(alloc: Global, text: &mut Vec<u8>, i: u64) -> Result<(), AllocError> {
    let name = name_text(alloc, i)?;
    if i % EACH == 0 {
        return put_all(
            text,
            &[b"dir ".as_slice(), name.as_bytes(), b"\n".as_slice()],
        );
    }
    let dir = name_text(alloc, i - i % EACH)?;
    put_all(
        text,
        &[
            b"file 0644 1 ".as_slice(),
            dir.as_bytes(),
            b"/".as_slice(),
            name.as_bytes(),
            b"\n".as_slice(),
        ],
    )
}

/// Makes the text of a manifest with a line for each entry.
fn manifest_text(alloc: Global, entries: u64) -> Result<Vec<u8>, AllocError> {
    let mut text = Vec::from_slice(alloc, b"commit 0123456789abcdef0123456789abcdef01234567\n")?;
    for i in 0..entries {
        put_line(alloc, &mut text, i)?;
    }
    Ok(text)
}

/// Appends the bytes of entry `i`, which has its name and is counted once.
fn put_linked(alloc: Global, text: &mut Vec<u8>, i: u64) -> Result<(), AllocError> {
    let name = name_text(alloc, i)?;
    let number = i.wrapping_add(2).to_be_bytes();
    let parent = parent_of(i).to_be_bytes();
    let len = [name.len().min(255) as u8];
    put_all(
        text,
        &[
            number.as_slice(),
            [0, 0, 0, 0, 1].as_slice(),
            parent.as_slice(),
            len.as_slice(),
            name.as_bytes(),
        ],
    )
}

/// Appends the bytes of entry `i`, which is unlinked: its file was made and lost its name.
fn put_unlinked(text: &mut Vec<u8>, i: u64, file: u64) -> Result<(), AllocError> {
    let number = i.wrapping_add(2).to_be_bytes();
    let file = file.to_be_bytes();
    put_all(
        text,
        &[
            number.as_slice(),
            [1, 0, 0, 0, 1].as_slice(),
            file.as_slice(),
        ],
    )
}

/// Returns the four bytes of a count.
fn count_text(count: u64) -> [u8; 4] {
    (count.min(0xffff_ffff) as u32).to_be_bytes()
}

/// Appends the head of an image. The manifest's files have the lower ids, and the made files the higher ones.
fn put_head(text: &mut Vec<u8>, entries: u64, unlinked: u64) -> Result<(), AllocError> {
    let next = entries.wrapping_add(2);
    let next_number = next.to_be_bytes();
    let next_file = next.wrapping_add(unlinked).to_be_bytes();
    let count = count_text(entries);
    put_all(
        text,
        &[
            b"EDTK\0\x01".as_slice(),
            b"\x01\x23\x45\x67\x89\xab\xcd\xef\x01\x23\x45\x67\x89\xab\xcd\xef\x01\x23\x45\x67".as_slice(),
            b"\0\0\0\0\0\0\0\x01".as_slice(),
            next_number.as_slice(),
            next_file.as_slice(),
            count.as_slice(),
        ],
    )
}

/// Appends the bytes of all entries, of which the last `unlinked` are unlinked.
fn put_entries(
    alloc: Global,
    text: &mut Vec<u8>,
    entries: u64,
    unlinked: u64,
) -> Result<(), AllocError> {
    let linked = entries.saturating_sub(unlinked);
    for i in 0..entries {
        if i < linked {
            put_linked(alloc, text, i)?;
        } else {
            put_unlinked(text, i, i.wrapping_add(unlinked).wrapping_add(2))?;
        }
    }
    Ok(())
}

/// Appends the bytes of the files that were made.
fn put_made(text: &mut Vec<u8>, entries: u64, unlinked: u64) -> Result<(), AllocError> {
    for i in 0..unlinked {
        let file = entries.wrapping_add(2).wrapping_add(i).to_be_bytes();
        put_all(text, &[file.as_slice(), b"\0\x01\xa4".as_slice()])?;
    }
    Ok(())
}

/// Returns the bytes of an image of `entries` entries, of which the last `unlinked` are unlinked. No link was changed.
fn image_text(alloc: Global, entries: u64, unlinked: u64) -> Result<Vec<u8>, AllocError> {
    let mut text = Vec::new(alloc);
    put_head(&mut text, entries, unlinked)?;
    put_entries(alloc, &mut text, entries, unlinked)?;
    text.extend_from_slice(&count_text(unlinked))?;
    put_made(&mut text, entries, unlinked)?;
    text.extend_from_slice(&[0; 4])?;
    Ok(text)
}

#[inline(never)]
fn image_read(alloc: Global, text: &[u8]) -> Result<Image, ImageFault>
    ensures fit { IfOk result IsFit }
    ensures counts { IfOk result (λ image. CountsFit image.entries) }
{
    read(alloc, text)
}

/// Reads an image from `text` by a reader that is fed parts of 4,096 bytes.
#[inline(never)]
fn image_fed(alloc: Global, text: &[u8]) -> Result<Image, ImageFault> {
    let Ok(mut reader) = ImageReader::new(alloc) else {
        return Err(ImageFault::NoMemory);
    };
    for part in text.chunks(4096) {
        reader.feed(part)?;
    }
    reader.finish()
}

/// Feeds `text` to a reader, and returns the nanoseconds of that, divided by `entries`.
fn time_fed(rt: &HostRuntime, text: &[u8], entries: u64) -> u64 {
    let started = moment(rt);
    let fed = image_fed(rt.alloc(), text);
    let time = each_since(rt, started, entries);
    drop(fed);
    time
}

#[inline(never)]
fn image_raised(alloc: Global, image: Image, manifest: &Manifest) -> Result<Served, RaiseFault>
    requires fit { IsFit image }
    requires counts { CountsFit image.entries }
{
    raise(alloc, image, manifest, loaded_limit())
}

#[inline(never)]
fn image_taken(alloc: Global, served: &Served) -> Result<Image, NoMemory>
    ensures fit { IfOk result IsFit }
{
    image_of(alloc, served, 1, NamedBy::Commit)
}

#[inline(never)]
fn image_written(alloc: Global, image: &Image) -> Result<Vec<u8>, WriteFault>
    requires fit { IsFit image.now }
{
    write(alloc, image, 1)
}

/// What an image took: the nanoseconds of each call, divided by the entries, and how many bytes were written.
#[derive(Clone, Copy)]
struct Took {
    read: u64,
    feed: u64,
    raise: u64,
    image_of: u64,
    write: u64,
    bytes: u64,
}

/// Writes an image, unless it is too long. Returns the nanoseconds, divided by `entries`, and how many bytes were
/// written.
fn time_write(rt: &HostRuntime, image: &Image, entries: u64) -> (u64, u64)
    requires fit { IsFit image.now }
{
    let started = moment(rt);
    let written = image_written(rt.alloc(), image);
    let time = each_since(rt, started, entries);
    match written {
        Ok(bytes) => (time, bytes.len() as u64),
        Err(_fault) => (time, 0),
    }
}

/// Times making the image of `served`, and writing it.
fn time_taken(rt: &HostRuntime, served: &Served, entries: u64) -> Result<Took, NoMemory> {
    let started = moment(rt);
    let image = image_taken(rt.alloc(), served)?;
    let image_of = each_since(rt, started, entries);
    let (write, bytes) = time_write(rt, &image, entries);
    drop(image);
    Ok(Took {
        read: 0,
        feed: 0,
        raise: 0,
        image_of,
        write,
        bytes,
    })
}

/// Times the restoring of `image`, and each call after it. The manifest has the image's files, so only memory can be
/// refused.
fn time_raise(
    rt: &HostRuntime,
    image: Image,
    manifest: &Manifest,
    entries: u64,
) -> Result<Took, NoMemory>
    requires fit { IsFit image }
    requires counts { CountsFit image.entries }
{
    let started = moment(rt);
    let Ok(served) = image_raised(rt.alloc(), image, manifest) else {
        return Err(NoMemory);
    };
    let raise = each_since(rt, started, entries);
    let took = time_taken(rt, &served, entries);
    drop(served);
    Ok(Took { raise, ..took? })
}

/// Times the reading of an image, and each call after it. `text` has the bytes of an image, so only memory can be
/// refused.
fn time_read(
    rt: &HostRuntime,
    text: &[u8],
    manifest: &Manifest,
    entries: u64,
) -> Result<Took, NoMemory> {
    let started = moment(rt);
    let Ok(image) = image_read(rt.alloc(), text) else {
        return Err(NoMemory);
    };
    let read = each_since(rt, started, entries);
    let feed = time_fed(rt, text, entries);
    let took = time_raise(rt, image, manifest, entries)?;
    Ok(Took { read, feed, ..took })
}

/// Makes a manifest with a line for each entry.
fn manifest_of(alloc: Global, entries: u64) -> Result<Manifest, NoMemory> {
    manifest_from(alloc, manifest_text(alloc, entries)?)
}

/// Makes the bytes of an image over `manifest`, and times each call on the image.
fn time_all(
    rt: &HostRuntime,
    manifest: &Manifest,
    entries: u64,
    unlinked: u64,
) -> Result<Took, NoMemory> {
    let text = image_text(rt.alloc(), entries, unlinked)?;
    let took = time_read(rt, text.as_slice(), manifest, entries);
    drop(text);
    took
}

/// Makes a manifest and an image over it, and times each call on the image.
fn time_made(rt: &HostRuntime, entries: u64, unlinked: u64) -> Result<Took, NoMemory> {
    let manifest = manifest_of(rt.alloc(), entries)?;
    let took = time_all(rt, &manifest, entries, unlinked);
    drop(manifest);
    took
}

/// Times each call on an image, as `words` say.
pub(crate) fn measure(rt: &HostRuntime, words: &[&str]) -> Result<Option<Figures>, NoMemory> {
    let (Some(entries), Some(unlinked)) = (number_at(words, 0), number_at(words, 1)) else {
        return Ok(None);
    };
    let took = time_made(rt, u64::from(entries), u64::from(unlinked))?;
    match words {
        [_, _] => Ok(Some(Figures::of(&["bytes"], &[took.bytes]))),
        [_, _, "times"] => Ok(Some(Figures::of(
            &["read", "feed", "raise", "image_of", "write"],
            &[took.read, took.feed, took.raise, took.image_of, took.write],
        ))),
        _ => Ok(None),
    }
}
