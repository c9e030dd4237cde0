//! Lookups in the state that a desk lends, and the manifests of these tests.
ghost use Rattle.std.specs.Prelude.{◌≡◌};

use crate::again::are_put;
use checkout::ManifestBacking;
use daemon::Lease;
use eden_base::{Name, Number};
use fuse_ops::Served;
use fuse_wire::{Answer, Request};
use manifest::Manifest;
use std::alloc::Global;

/// A manifest of one directory.
pub(super) const CHECKOUT: &[u8] = b"commit 0123456789abcdef0123456789abcdef01234567\ndir src\n";

/// The length of each long name. Sixteen names of that length make an image of more than one part.
const NAME_LEN: usize = 255;

/// The letters of the long names. Each name is one letter again and again.
const LETTERS: &[u8; 16] = b"abcdefghijklmnop";

/// Returns the number of `answer`, if it is an entry.
fn number_in(answer: Option<Answer>) -> Option<u64> {
    match answer {
        Some(Answer::Entry { number, .. }) => Some(number.0),
        _ => None,
    }
}

/// Makes the request to look `name` up in the root, if memory suffices.
fn lookup_of(alloc: Global, name: &[u8]) -> Option<Request> {
    match Name::parse(alloc, name) {
        Ok(name) => Some(Request::Lookup {
            dir: Number::ROOT,
            name,
        }),
        Err(_refused) => None,
    }
}

/// Looks `name` up in the root, and returns its number, or none.
fn number_of(alloc: Global, manifest: &Manifest, served: &mut Served, name: &[u8]) -> Option<u64>
    requires over { served.old.tree.manifest ≡ manifest.now }
    ensures same_manifest { served.new.tree.manifest ≡ served.old.tree.manifest }
{
    let Some(request) = lookup_of(alloc, name) else {
        return None;
    };
    let mut backing = ManifestBacking::of(manifest);
    let answer = served.apply(alloc, &mut backing, &request);
    drop(backing);
    drop(request);
    number_in(answer)
}

/// Calls `number_of`, and once more if the first call returned none.
fn found_number(alloc: Global, manifest: &Manifest, served: &mut Served, name: &[u8]) -> Option<u64>
    requires over { served.old.tree.manifest ≡ manifest.now }
    ensures same_manifest { served.new.tree.manifest ≡ served.old.tree.manifest }
{
    match number_of(alloc, manifest, served, name) {
        None => number_of(alloc, manifest, served, name),
        number => number,
    }
}

/// Looks `name` up in the state of `lease`. Returns whether it has this number.
fn is_found(alloc: Global, lease: &mut Lease, name: &[u8], number: u64) -> bool {
    found_number(alloc, &lease.manifest, &mut lease.served, name) == Some(number)
}

/// Returns whether `src` has the number `first` in the state of `lease`. With `is_each`, looks each long name up, and
/// returns whether their numbers follow one another, from `first` on.
pub(super) fn are_found(alloc: Global, lease: &mut Lease, first: u64, is_each: bool) -> bool {
    if !is_each {
        return is_found(alloc, lease, b"src", first);
    }
    let mut number = first;
    let mut so = true;
    for letter in LETTERS {
        let name = [*letter; NAME_LEN];
        so = so && is_found(alloc, lease, name.as_slice(), number);
        number = number.saturating_add(1);
    }
    so
}

/// Appends the text of a manifest of one directory, and of a file with each long name. Returns whether memory sufficed.
pub(super) fn is_long_put(text: &mut Vec<u8>) -> bool {
    let mut so = are_put(text, &[CHECKOUT]);
    for letter in LETTERS {
        let name = [*letter; NAME_LEN];
        so = so
            && are_put(
                text,
                &[
                    b"file 0644 0 ".as_slice(),
                    name.as_slice(),
                    b"\n".as_slice(),
                ],
            );
    }
    so
}
