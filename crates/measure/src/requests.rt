//! Makes what a daemon serves and a thousand requests of each kind on it, so that the instructions of one request can
//! be counted. `measure requests LINES DEPTH` has a manifest of LINES lines, and a directory at DEPTH. `measure
//! requests LINES random` asks for the attributes of random files of the manifest, with the limit that `edend` has
//! without an option.
use crate::figures::Figures;
use crate::lines::{manifest_from, manifest_text};
use crate::names::{EACH, named};
use crate::random::{ASKED as ASKED_RANDOMLY, DEFAULT_LIMIT, Random};
use crate::words::number_at;
use checkout::ManifestBacking;
use eden_base::{Kind, Name, NoMemory, Number, Perm};
use fuse_ops::Served;
use fuse_wire::{Answer, Batch, Item, Request};
use manifest::Manifest;
use std::alloc::{AllocError, Global};
use std::marker::Model;

/// How many requests of each kind are made.
const ASKED: u64 = 1000;

const LOADED_LIMIT: usize = 64;

/// What a daemon serves, with the manifest that is its backing.
#[derive(Drop)]
pub(crate) struct Hosted {
    pub(crate) served: Served,
    manifest: Manifest,
}

impl Model for Hosted {
    ghost use Rattle.std.specs.Prelude.{◌≡◌};
    ghost use Rattle.fuse_ops.specs.Served.{ServedState};
    ghost use Rattle.std.specs.Coded.{codes};
    ghost use Rattle.manifest.specs.Codes.{tree_code};

    ghost Value = { ServedState };

    ghost coded = { Prim.hlevel (codes, tree_code) };

    ghost view = { λ h. h.served };

    ghost invariant = { λ h. h.served.tree.manifest ≡ h.manifest };
}

impl Hosted {
    /// Begins to serve a manifest, with at most `limit` attributes loaded.
    pub(crate) fn of(alloc: Global, manifest: Manifest, limit: usize) -> Result<Hosted, NoMemory> {
        let served = Served::new(alloc, &manifest, limit)?;
        Ok(Hosted { served, manifest })
    }

    /// Answers a request.
    pub(crate) fn apply(&mut self, alloc: Global, request: &Request) -> Option<Answer> {
        let mut backing = ManifestBacking::of(&self.manifest);
        self.served.apply(alloc, &mut backing, request)
    }
}

/// Makes and reads a manifest of `lines` lines.
fn manifest_of(alloc: Global, lines: u64) -> Result<Manifest, NoMemory> {
    manifest_from(alloc, manifest_text(alloc, 1, lines)?)
}

/// Begins to serve a manifest of `lines` lines, with at most `limit` attributes loaded.
pub(crate) fn begin(alloc: Global, lines: u64, limit: usize) -> Result<Hosted, NoMemory> {
    Hosted::of(alloc, manifest_of(alloc, lines)?, limit)
}

/// Returns the name in line `i` of the manifest, as text.
fn name_text(alloc: Global, i: u64) -> Result<String, AllocError> {
    let dir = i / EACH;
    if i % EACH == 0 {
        format!(in alloc; "directory{dir}")
    } else {
        format!(in alloc; "file{i}.txt")
    }
}

/// Returns the name in line `i` of the manifest.
pub(crate) fn name_of(alloc: Global, i: u64) -> Result<Name, NoMemory> {
    named(alloc, name_text(alloc, i)?)
}

/// Returns the number of an entry, and the root's for any other answer.
pub(crate) fn number_told(answer: Option<Answer>) -> Number {
    match answer {
        Some(Answer::Entry { number, .. }) => number,
        _ => Number::ROOT,
    }
}

/// Looks a name up twice, and returns the number that the first reply gave.
fn look_up_twice(alloc: Global, served: &mut Hosted, dir: Number, name: Name) -> Number {
    let request = Request::Lookup { dir, name };
    let number = number_told(served.apply(alloc, &request));
    served.apply(alloc, &request);
    drop(request);
    number
}

/// Looks up twice each directory, and each file but one of every few. Returns the requests that look up the files left
/// out.
fn look_half_up(alloc: Global, served: &mut Hosted, lines: u64) -> Result<Vec<Request>, NoMemory> {
    let mut others = Vec::new(alloc);
    let every = (lines / ASKED).max(2);
    let mut dir = Number::ROOT;
    for i in 0..lines {
        let name = name_of(alloc, i)?;
        if i % EACH == 0 {
            dir = look_up_twice(alloc, served, Number::ROOT, name);
        } else if i % every == 1 {
            others.push(Request::Lookup { dir, name })?;
        } else {
            look_up_twice(alloc, served, dir, name);
        }
    }
    Ok(others)
}

/// Makes a directory in `dir`, and returns its number.
fn make_dir(alloc: Global, served: &mut Hosted, dir: Number, name: Name) -> Number {
    let perm = Perm::DIRECTORY;
    let request = Request::Mkdir { dir, name, perm };
    let number = number_told(served.apply(alloc, &request));
    drop(request);
    number
}

/// Makes `depth` directories, each in the one before it, and returns the number of the last.
fn make_deep(alloc: Global, served: &mut Hosted, depth: u64) -> Result<Number, NoMemory> {
    let mut dir = Number::ROOT;
    for _ in 0..depth {
        let name = named(alloc, format!(in alloc; "deeper")?)?;
        dir = make_dir(alloc, served, dir, name);
    }
    Ok(dir)
}

/// The requests that make a file, look it up and unlink it.
type Asked = (Request, Request, Request);

/// Returns the name of made file `j`.
fn made_name(alloc: Global, j: u64) -> Result<Name, NoMemory> {
    named(alloc, format!(in alloc; "made{j}.txt")?)
}

/// Returns the requests for made file `j` in `dir`.
fn asked_of(alloc: Global, dir: Number, j: u64) -> Result<Asked, NoMemory> {
    let perm = Perm::DIRECTORY;
    let made = made_name(alloc, j)?;
    let sought = made_name(alloc, j)?;
    let name = made_name(alloc, j)?;
    let create = Request::Create {
        dir,
        name: made,
        perm,
    };
    let lookup = Request::Lookup { dir, name: sought };
    Ok((create, lookup, Request::Unlink { dir, name }))
}

/// Lists the requests for all files that are made in `dir`.
fn list_asked(alloc: Global, dir: Number) -> Result<Vec<Asked>, NoMemory> {
    let mut list = Vec::new(alloc);
    for j in 0..ASKED {
        list.push(asked_of(alloc, dir, j)?)?;
    }
    Ok(list)
}

#[inline(never)]
fn look_up_held(alloc: Global, served: &mut Hosted, request: &Request, held: Number) -> bool {
    match served.apply(alloc, request) {
        Some(Answer::Entry { number, .. }) => number == held,
        _ => false,
    }
}

#[inline(never)]
fn look_up_fresh(alloc: Global, served: &mut Hosted, request: &Request) -> Option<Kind> {
    match served.apply(alloc, request) {
        Some(Answer::Entry { attr, .. }) => Some(attr.kind),
        _ => None,
    }
}

#[inline(never)]
fn look_up_unloaded(alloc: Global, served: &mut Hosted, request: &Request) -> Number {
    number_told(served.apply(alloc, request))
}

#[inline(never)]
fn look_up_loaded(alloc: Global, served: &mut Hosted, request: &Request, held: Number) -> bool {
    number_told(served.apply(alloc, request)) == held
}

#[inline(never)]
fn create(alloc: Global, served: &mut Hosted, request: &Request) -> Option<Number> {
    match served.apply(alloc, request) {
        Some(Answer::Opened { number, .. }) => Some(number),
        _ => None,
    }
}

#[inline(never)]
fn get_attr(alloc: Global, served: &mut Hosted, request: &Request) -> Option<u64> {
    match served.apply(alloc, request) {
        Some(Answer::Attrs { attr, .. }) => Some(attr.size),
        _ => None,
    }
}

#[inline(never)]
fn unlink(alloc: Global, served: &mut Hosted, request: &Request) -> bool {
    match served.apply(alloc, request) {
        Some(Answer::Done) => true,
        _ => false,
    }
}

#[inline(never)]
fn forget_one(alloc: Global, served: &mut Hosted, request: &Request) -> bool {
    served.apply(alloc, request).is_none()
}

#[inline(never)]
fn forget_last(alloc: Global, served: &mut Hosted, request: &Request) -> u8 {
    match served.apply(alloc, request) {
        Some(_) => 0,
        None => 2,
    }
}

#[inline(never)]
fn lower_batch(alloc: Global, served: &mut Hosted, request: &Request) -> u64 {
    match served.apply(alloc, request) {
        Some(_) => 1,
        None => 0,
    }
}

#[inline(never)]
fn forget_batch(alloc: Global, served: &mut Hosted, request: &Request) -> u64 {
    match served.apply(alloc, request) {
        Some(_) => 0,
        None => 1,
    }
}

/// Looks up names that have no number yet.
fn ask_others(alloc: Global, served: &mut Hosted, others: &[Request]) {
    for request in others {
        look_up_fresh(alloc, served, request);
    }
}

/// Forgets `node` once. Returns whether the forget has no answer.
fn take_back(alloc: Global, served: &mut Hosted, node: Number) -> bool {
    let back = Request::Forget(Item { node, k: 1 });
    let answer = served.apply(alloc, &back);
    drop(back);
    answer.is_none()
}

/// Looks up a name whose number has no attribute loaded, and then looks it up once more. Forgets the number once, so
/// that it is held twice as the others are. Returns whether both look-ups gave the same number.
fn ask_other_again(alloc: Global, served: &mut Hosted, request: &Request) -> bool {
    let node = look_up_unloaded(alloc, served, request);
    let same = look_up_loaded(alloc, served, request, node);
    same && node != Number::ROOT && take_back(alloc, served, node)
}

/// Looks most names up twice, and the other names three times. Returns how many of the other names had one number in
/// the last two look-ups.
fn ask_fresh(alloc: Global, served: &mut Hosted, lines: u64) -> Result<u64, NoMemory> {
    let others = look_half_up(alloc, served, lines)?;
    ask_others(alloc, served, &others);
    let mut found = 0u64;
    for request in others.as_slice() {
        if ask_other_again(alloc, served, request) {
            found = found.wrapping_add(1);
        }
    }
    drop(others);
    Ok(found)
}

/// Asks for the attributes of `node`. Returns whether the answer has some.
fn is_shown(alloc: Global, served: &mut Hosted, node: Number) -> bool {
    let request = Request::Getattr { node };
    let shown = get_attr(alloc, served, &request).is_some();
    drop(request);
    shown
}

/// Forgets a file once, unlinks it and forgets it again. Returns whether the unlink was done, and no forget was
/// answered.
fn is_forgotten(alloc: Global, served: &mut Hosted, node: Number, unlinking: &Request) -> bool {
    let forget = Request::Forget(Item { node, k: 1 });
    let lowered = forget_one(alloc, served, &forget);
    let gone = unlink(alloc, served, unlinking);
    let dropped = forget_last(alloc, served, &forget) == 2;
    drop(forget);
    lowered && gone && dropped
}

/// Looks up a made file once more, asks for its attributes, forgets it once, unlinks it and forgets it again. Returns
/// whether the look-up gave `number`, attributes came, the unlink was done, and no forget was answered.
fn ask_one(
    alloc: Global,
    served: &mut Hosted,
    number: Number,
    lookup: &Request,
    unlinking: &Request,
) -> bool {
    let same = look_up_held(alloc, served, lookup, number);
    let shown = is_shown(alloc, served, number);
    let forgotten = is_forgotten(alloc, served, number, unlinking);
    same && shown && forgotten
}

/// Makes files, and calls `ask_one` with each. Returns how many calls returned true.
fn ask_listed(alloc: Global, served: &mut Hosted, list: &[Asked]) -> u64 {
    let mut done = 0u64;
    for (making, lookup, unlinking) in list {
        if let Some(number) = create(alloc, served, making) {
            if ask_one(alloc, served, number, lookup, unlinking) {
                done = done.wrapping_add(1);
            }
        }
    }
    done
}

/// Makes files in a directory at `depth`, and calls `ask_one` with each. Returns how many calls returned true.
fn ask_made(alloc: Global, served: &mut Hosted, depth: u64) -> Result<u64, NoMemory> {
    let dir = make_deep(alloc, served, depth)?;
    let list = list_asked(alloc, dir)?;
    let done = ask_listed(alloc, served, &list);
    drop(list);
    Ok(done)
}

/// Returns a batch that forgets 256 numbers once each, from `first` on.
fn batch_from(alloc: Global, first: u64) -> Result<Batch, NoMemory> {
    let mut items = [Item {
        node: Number::ROOT,
        k: 1,
    }; 256];
    let mut next = first;
    for item in &mut items {
        item.node = Number(next);
        next = next.wrapping_add(1);
    }
    Batch::of(alloc, &items)
}

/// Forgets the numbers of a batch twice. Returns 1 if neither forget was answered, else 0.
fn ask_batch(alloc: Global, served: &mut Hosted, request: &Request) -> u64 {
    if lower_batch(alloc, served, request) == 0 {
        forget_batch(alloc, served, request)
    } else {
        0
    }
}

/// Forgets the first 1,024 numbers twice, in four batches: the first forget lowers a count, and the second drops the
/// number. Returns how many batches were forgotten so.
fn ask_batches(alloc: Global, served: &mut Hosted) -> Result<u64, NoMemory> {
    let mut batches = 0u64;
    for &first in &[2, 258, 514, 770] {
        let request = Request::BatchForget(batch_from(alloc, first)?);
        batches = batches.wrapping_add(ask_batch(alloc, served, &request));
        drop(request);
    }
    Ok(batches)
}

/// Makes all requests, and returns the figures.
fn ask_all(
    alloc: Global,
    served: &mut Hosted,
    lines: u64,
    depth: u64,
) -> Result<Figures, NoMemory> {
    let found = ask_fresh(alloc, served, lines)?;
    let done = ask_made(alloc, served, depth)?;
    let batches = ask_batches(alloc, served)?;
    let next = served.served.map().next();
    Ok(Figures::of(
        &["found", "made", "batches", "next"],
        &[found, done, batches, next],
    ))
}

/// Begins to serve a manifest of `lines` lines, and makes all requests.
fn ask_begun(alloc: Global, lines: u64, depth: u64) -> Result<Figures, NoMemory> {
    let mut served = begin(alloc, lines, LOADED_LIMIT)?;
    let figures = ask_all(alloc, &mut served, lines, depth);
    drop(served);
    figures
}

/// Looks each name of the manifest up once.
pub(crate) fn look_all_up(alloc: Global, served: &mut Hosted, lines: u64) -> Result<(), NoMemory> {
    let mut parent = Number::ROOT;
    for i in 0..lines {
        let name = name_of(alloc, i)?;
        let dir = if i % EACH == 0 { Number::ROOT } else { parent };
        let request = Request::Lookup { dir, name };
        let number = number_told(served.apply(alloc, &request));
        drop(request);
        if i % EACH == 0 {
            parent = number;
        }
    }
    Ok(())
}

/// Asks for the attributes of random numbers. Returns how many have some.
fn ask_random(alloc: Global, served: &mut Hosted, lines: u64) -> Result<Figures, NoMemory> {
    look_all_up(alloc, served, lines)?;
    let mut random = Random::new();
    let mut shown = 0u64;
    for _ in 0..ASKED_RANDOMLY {
        if is_shown(alloc, served, random.number(lines)) {
            shown = shown.wrapping_add(1);
        }
    }
    Ok(Figures::of(&["shown"], &[shown]))
}

/// Begins to serve a manifest of `lines` lines, and asks for the attributes of random numbers.
fn ask_begun_random(alloc: Global, lines: u64) -> Result<Figures, NoMemory> {
    let mut served = begin(alloc, lines, DEFAULT_LIMIT)?;
    let figures = ask_random(alloc, &mut served, lines);
    drop(served);
    figures
}

/// Measures requests, as `words` say.
pub(crate) fn measure(alloc: Global, words: &[&str]) -> Result<Option<Figures>, NoMemory> {
    let Some(lines) = number_at(words, 0) else {
        return Ok(None);
    };
    if let [_, "random"] = words {
        return ask_begun_random(alloc, u64::from(lines)).map(Some);
    }
    let Some(depth) = number_at(words, 1) else {
        return Ok(None);
    };
    ask_begun(alloc, u64::from(lines), u64::from(depth)).map(Some)
}
