//! Lists a directory of many files, so that the instructions of a READDIR can be counted. `measure listing FILES OTHERS`
//! lists a directory of FILES files, beside OTHERS files elsewhere, from random positions and from the start on. With
//! `changed` it does so after half of the names were removed and as many files made, and with `gone` from the start on
//! after the first nine tenths of the names were removed.
use crate::figures::Figures;
use crate::lines::{manifest_from, manifest_text};
use crate::names::named;
use crate::random::{DEFAULT_LIMIT, Random};
use crate::requests::{Hosted, number_told};
use crate::words::number_at;
use eden_base::{Name, NoMemory, Number, Perm};
use fuse_wire::{Answer, Buffer, Request};
use manifest::Manifest;
use std::alloc::{AllocError, Global};

/// How many requests go to random positions.
const ASKED: u64 = 1000;

/// How many bytes an answer may have.
const SIZE: u32 = 4096;

/// How many files have room in an answer: the entry of each takes 40 bytes.
const FULL: u64 = 102;

/// How many files the manifest has in the directory that is listed, and how many lines of other directories.
#[derive(Clone, Copy)]
struct Sizes {
    files: u64,
    others: u64,
}

/// The directory that is listed: its number, the position of its first file, and how many files the manifest has there.
#[derive(Clone, Copy)]
struct Listed {
    dir: Number,
    first: u64,
    files: u64,
}

impl Listed {
    /// Returns a random one of the first `count` positions of files behind which an answer is full.
    fn position(&self, random: &mut Random, count: u64) -> u64 {
        self.first
            .wrapping_add(random.below(count.wrapping_sub(FULL)))
    }
}

/// Returns the number in the name of file `i`. All have six digits, and they come in no order.
fn word_of(i: u64) -> u64 {
    (i.wrapping_mul(612_347) % 900_000).wrapping_add(100_000)
}

/// Appends the line of file `i` to the text of a manifest.
fn put_file(alloc: Global, text: &mut Vec<u8>, i: u64) -> Result<(), AllocError> {
    let word = word_of(i);
    let line = format!(in alloc; "file 0644 {i} listed/file{word}.txt\n")?;
    let done = text.extend_from_slice(line.as_bytes());
    drop(line);
    done
}

/// Makes the text of a manifest: the lines of other directories, and then those of the directory that is listed.
fn text_of(alloc: Global, sizes: Sizes) -> Result<Vec<u8>, AllocError> {
    let mut text = manifest_text(alloc, 1, sizes.others)?;
    text.extend_from_slice(b"dir listed\n")?;
    for i in 0..sizes.files {
        put_file(alloc, &mut text, i)?;
    }
    Ok(text)
}

/// Makes and reads the manifest.
fn manifest_of(alloc: Global, sizes: Sizes) -> Result<Manifest, NoMemory> {
    manifest_from(alloc, text_of(alloc, sizes)?)
}

/// Begins to serve the manifest.
fn begin(alloc: Global, sizes: Sizes) -> Result<Hosted, NoMemory> {
    Hosted::of(alloc, manifest_of(alloc, sizes)?, DEFAULT_LIMIT)
}

/// Looks the directory up.
fn look_up_dir(alloc: Global, served: &mut Hosted, sizes: Sizes) -> Result<Listed, NoMemory> {
    let name = named(alloc, format!(in alloc; "listed")?)?;
    let request = Request::Lookup {
        dir: Number::ROOT,
        name,
    };
    let dir = number_told(served.apply(alloc, &request));
    drop(request);
    let first = sizes.others.wrapping_add(3);
    let files = sizes.files;
    Ok(Listed { dir, first, files })
}

/// Returns the name of file `i` of the manifest.
fn name_of(alloc: Global, i: u64) -> Result<Name, NoMemory> {
    let word = word_of(i);
    named(alloc, format!(in alloc; "file{word}.txt")?)
}

/// Returns the name of made file `i`.
fn made_name(alloc: Global, i: u64) -> Result<Name, NoMemory> {
    let word = word_of(i);
    named(alloc, format!(in alloc; "made{word}.txt")?)
}

/// Looks file `i` up.
fn look_up(alloc: Global, served: &mut Hosted, dir: Number, i: u64) -> Result<(), NoMemory> {
    let name = name_of(alloc, i)?;
    let request = Request::Lookup { dir, name };
    served.apply(alloc, &request);
    drop(request);
    Ok(())
}

/// Removes the name of file `i`.
fn unlink(alloc: Global, served: &mut Hosted, dir: Number, i: u64) -> Result<(), NoMemory> {
    let name = name_of(alloc, i)?;
    let request = Request::Unlink { dir, name };
    served.apply(alloc, &request);
    drop(request);
    Ok(())
}

/// Makes file `i`.
fn create(alloc: Global, served: &mut Hosted, dir: Number, i: u64) -> Result<(), NoMemory> {
    let (name, perm) = (made_name(alloc, i)?, Perm::DIRECTORY);
    let request = Request::Create { dir, name, perm };
    served.apply(alloc, &request);
    drop(request);
    Ok(())
}

/// Returns a random one of two files that stand beside each other.
fn one_of(random: &mut Random, pair: u64) -> u64 {
    pair.wrapping_mul(2).wrapping_add(random.below(2))
}

/// Looks up half of the files, a random one of each two.
fn look_half_up(alloc: Global, served: &mut Hosted, listed: Listed) -> Result<(), NoMemory> {
    let mut random = Random::new();
    for pair in 0..listed.files / 2 {
        look_up(alloc, served, listed.dir, one_of(&mut random, pair))?;
    }
    Ok(())
}

/// Removes the names of half of the files, a random one of each two, and makes another file for each.
fn change_half(alloc: Global, served: &mut Hosted, listed: Listed) -> Result<(), NoMemory> {
    let mut random = Random::new();
    for pair in 0..listed.files / 2 {
        unlink(alloc, served, listed.dir, one_of(&mut random, pair))?;
        create(alloc, served, listed.dir, pair)?;
    }
    Ok(())
}

/// Removes the names of the first nine tenths of the files.
fn remove_most(alloc: Global, served: &mut Hosted, listed: Listed) -> Result<(), NoMemory> {
    for i in 0..listed.files - listed.files / 10 {
        unlink(alloc, served, listed.dir, i)?;
    }
    Ok(())
}

/// Makes one READDIR, and returns the bytes of its answer.
#[inline(always)]
fn list(alloc: Global, served: &mut Hosted, dir: Number, offset: u64) -> Option<Buffer> {
    let size = SIZE;
    let request = Request::Readdir { dir, offset, size };
    let answer = served.apply(alloc, &request);
    drop(request);
    match answer {
        Some(Answer::Buffer(buffer)) => Some(buffer),
        _ => None,
    }
}

/// Returns the position behind the last entry of an answer, or none if the answer is empty. The entry is a file's of 40
/// bytes, and tells the position in its second eight.
#[inline(always)]
fn next_in(bytes: &[u8]) -> Option<u64> {
    let (_, rest) = bytes.split_last_chunk::<32>()?;
    let (next, _) = rest.as_slice().split_first_chunk::<8>()?;
    Some(u64::from_le_bytes(*next))
}

/// Makes one READDIR, and returns the position behind the last entry of its answer.
#[inline(always)]
fn list_once(alloc: Global, served: &mut Hosted, dir: Number, offset: u64) -> Option<u64> {
    let answer = list(alloc, served, dir, offset)?;
    let next = next_in(answer.as_slice());
    drop(answer);
    next
}

/// Lists the whole directory, call after call. Returns the position behind its last entry.
#[inline(always)]
fn list_on(alloc: Global, served: &mut Hosted, listed: Listed) -> u64 {
    let mut from = 0;
    for _ in 0..listed.files {
        match list_once(alloc, served, listed.dir, from) {
            Some(next) => from = next,
            None => break,
        }
    }
    from
}

// ---- what is counted

#[inline(never)]
fn list_fresh(alloc: Global, served: &mut Hosted, dir: Number, offset: u64) -> Option<u64> {
    list_once(alloc, served, dir, offset)
}

#[inline(never)]
fn list_held(alloc: Global, served: &mut Hosted, dir: Number, offset: u64) -> u64 {
    list_once(alloc, served, dir, offset).unwrap_or(0)
}

#[inline(never)]
fn list_changed(alloc: Global, served: &mut Hosted, dir: Number, offset: u64) -> u64 {
    list_once(alloc, served, dir, offset).unwrap_or(1)
}

#[inline(never)]
fn list_gone(alloc: Global, served: &mut Hosted, dir: Number) -> u64 {
    list_once(alloc, served, dir, 0).unwrap_or(2)
}

#[inline(never)]
fn list_whole(alloc: Global, served: &mut Hosted, listed: Listed) -> u64 {
    list_on(alloc, served, listed)
}

#[inline(never)]
fn list_whole_changed(alloc: Global, served: &mut Hosted, listed: Listed) -> Option<u64> {
    Some(list_on(alloc, served, listed))
}

// ---- the runs

/// Lists from random positions. Returns the sum of the positions behind the answers.
fn ask_fresh(alloc: Global, served: &mut Hosted, listed: Listed) -> u64 {
    let (mut random, mut sum) = (Random::new(), 0u64);
    for _ in 0..ASKED {
        let offset = listed.position(&mut random, listed.files);
        let next = list_fresh(alloc, served, listed.dir, offset);
        sum = sum.wrapping_add(next.unwrap_or(0));
    }
    sum
}

/// Does the same where half of the files have a number.
fn ask_held(alloc: Global, served: &mut Hosted, listed: Listed) -> u64 {
    let (mut random, mut sum) = (Random::new(), 0u64);
    for _ in 0..ASKED {
        let offset = listed.position(&mut random, listed.files);
        sum = sum.wrapping_add(list_held(alloc, served, listed.dir, offset));
    }
    sum
}

/// Does the same where half of the names were removed, and as many files made, which stand behind the others.
fn ask_changed(alloc: Global, served: &mut Hosted, listed: Listed) -> u64 {
    let count = listed.files.wrapping_add(listed.files / 2);
    let (mut random, mut sum) = (Random::new(), 0u64);
    for _ in 0..ASKED {
        let offset = listed.position(&mut random, count);
        sum = sum.wrapping_add(list_changed(alloc, served, listed.dir, offset));
    }
    sum
}

/// Returns a sum of the bytes of an answer that goes on from `sum`, and tells their order.
fn sum_of(sum: u64, bytes: &[u8]) -> u64 {
    let mut sum = sum;
    for byte in bytes {
        sum = sum.wrapping_mul(31).wrapping_add(u64::from(*byte));
    }
    sum
}

/// Lists the whole directory, and returns a sum of all bytes. It goes before what is counted: the first answer after
/// names were freed pays for putting their memory together again.
fn sum_listed(alloc: Global, served: &mut Hosted, listed: Listed) -> u64 {
    let (mut from, mut sum) = (0, 0);
    for _ in 0..listed.files {
        let Some(answer) = list(alloc, served, listed.dir, from) else {
            break;
        };
        sum = sum_of(sum, answer.as_slice());
        let next = next_in(answer.as_slice());
        drop(answer);
        match next {
            Some(next) => from = next,
            None => break,
        }
    }
    sum
}

/// Lists the directory as the manifest has it.
fn list_all(alloc: Global, served: &mut Hosted, sizes: Sizes) -> Result<Figures, NoMemory> {
    let listed = look_up_dir(alloc, served, sizes)?;
    let bytes = sum_listed(alloc, served, listed);
    let fresh = ask_fresh(alloc, served, listed);
    look_half_up(alloc, served, listed)?;
    let held_bytes = sum_listed(alloc, served, listed);
    let held = ask_held(alloc, served, listed);
    let whole = list_whole(alloc, served, listed);
    Ok(Figures::of(
        &["bytes", "fresh", "held-bytes", "held", "whole"],
        &[bytes, fresh, held_bytes, held, whole],
    ))
}

/// Lists the directory after half of its names changed.
fn list_all_changed(alloc: Global, served: &mut Hosted, sizes: Sizes) -> Result<Figures, NoMemory> {
    let listed = look_up_dir(alloc, served, sizes)?;
    change_half(alloc, served, listed)?;
    let bytes = sum_listed(alloc, served, listed);
    let changed = ask_changed(alloc, served, listed);
    let whole = list_whole_changed(alloc, served, listed).unwrap_or(0);
    Ok(Figures::of(&["bytes", "changed", "whole"], &[bytes, changed, whole]))
}

/// Lists the directory from its start after most of its names were removed.
fn list_all_gone(alloc: Global, served: &mut Hosted, sizes: Sizes) -> Result<Figures, NoMemory> {
    let listed = look_up_dir(alloc, served, sizes)?;
    remove_most(alloc, served, listed)?;
    let bytes = sum_listed(alloc, served, listed);
    let gone = list_gone(alloc, served, listed.dir);
    Ok(Figures::of(&["bytes", "gone"], &[bytes, gone]))
}

/// How the directory is when it is listed.
#[derive(Clone, Copy)]
enum State {
    Whole,
    Changed,
    Gone,
}

/// Begins to serve the manifest, and lists the directory.
fn list_begun(alloc: Global, sizes: Sizes, state: State) -> Result<Figures, NoMemory> {
    let mut served = begin(alloc, sizes)?;
    let figures = match state {
        State::Whole => list_all(alloc, &mut served, sizes),
        State::Changed => list_all_changed(alloc, &mut served, sizes),
        State::Gone => list_all_gone(alloc, &mut served, sizes),
    };
    drop(served);
    figures
}

/// Measures READDIRs, as `words` say.
pub(crate) fn measure(alloc: Global, words: &[&str]) -> Result<Option<Figures>, NoMemory> {
    let (Some(files), Some(others)) = (number_at(words, 0), number_at(words, 1)) else {
        return Ok(None);
    };
    let state = match words {
        [_, _] => State::Whole,
        [_, _, "changed"] => State::Changed,
        [_, _, "gone"] => State::Gone,
        _ => return Ok(None),
    };
    let (files, others) = (u64::from(files), u64::from(others));
    list_begun(alloc, Sizes { files, others }, state).map(Some)
}
