//! The first changed link whose target another link gives too.
ghost use Rattle.std.specs.Prelude.{◌≡◌, ℕ, None, IfOk, IsTrue};
ghost use Rattle.std.specs.List.{IsDistinct};
ghost use Rattle.std.specs.BTreeMap.{get as mark_of, IsOrdered};
ghost use Rattle.std.specs.Ordering.{eq_by_cmp, nat_cmp};
ghost use Rattle.checkout.specs.UnlinkedFiles.{is_gone};
ghost use Rattle.checkout.specs.Rounds.{first_of, ids_given, is_given_twice, is_marked, marked};

use crate::overlay::is_left;
use crate::unlinked_files::UnlinkedFiles;
use eden_base::NoMemory;
use manifest::{LinkChange, Manifest};
use std::alloc::Global;
use std::collections::BTreeMap;

/// Returns the ids of the files that changed links give, in the order of the links.
fn ids_given(alloc: Global, links: &[LinkChange]) -> Result<Vec<u64>, NoMemory>
    ensures ids { IfOk result (λ ids. ids.items ≡ ids_given links.now) }
{
    let mut ids = Vec::with_capacity(alloc, links.len())?;
    for change in links {
        if let Some(file) = change.target {
            ids.push(file.0)?;
        }
    }
    Ok(ids)
}

/// Returns whether no id is in `ids` twice. Sorts the list in its own memory.
fn are_apart(ids: Vec<u64>) -> bool
    ensures apart { IsTrue result → IsDistinct (eq_by_cmp nat_cmp) ids.items }
{
    let mut ids = ids;
    ids.sort_unstable();
    for i in 1..ids.len() {
        if ids[i - 1] >= ids[i] {
            return false;
        }
    }
    true
}

/// Returns the ids of the files that several changed links give, each marked. If there are any, other files that changed
/// links give are there too, without a mark.
fn marks(alloc: Global, links: &[LinkChange]) -> Result<BTreeMap<u64, bool>, NoMemory>
    ensures ordered { IfOk result (λ marks. IsOrdered nat_cmp marks) }
    ensures marks { IfOk result (λ marks. (file : ℕ) →
        is_marked (mark_of nat_cmp marks file) ≡ is_marked (marked file None links.now)) }
{
    let ids = ids_given(alloc, links)?;
    if are_apart(ids) {
        return Ok(BTreeMap::new(alloc));
    }
    all_marks(alloc, links)
}

/// Returns the ids of the files that changed links give, each with whether several of these links give the file.
fn all_marks(alloc: Global, links: &[LinkChange]) -> Result<BTreeMap<u64, bool>, NoMemory>
    ensures ordered { IfOk result (λ marks. IsOrdered nat_cmp marks) }
    ensures marks { IfOk result (λ marks. (file : ℕ) → mark_of nat_cmp marks file ≡ marked file None links.now) }
{
    let mut marks = BTreeMap::new(alloc);
    for change in links {
        if let Some(file) = change.target {
            let again = marks.contains_key(&file.0);
            marks.insert(file.0, again)?;
        }
    }
    Ok(marks)
}

/// Returns whether a file is marked as one that several changes give.
fn is_marked(marks: &BTreeMap<u64, bool>, file: u64) -> bool
    requires ordered { IsOrdered nat_cmp marks.now }
    ensures { result ≡ is_marked (mark_of nat_cmp marks.now file) }
{
    match marks.get(&file) {
        Some(several) => *several,
        None => false,
    }
}

/// Returns whether another link gives the target of `change`: one that the manifest still has, or that of another
/// change.
fn is_given_twice(
    manifest: &Manifest,
    gone: &UnlinkedFiles,
    marks: &BTreeMap<u64, bool>,
    change: &LinkChange,
) -> bool
    requires ordered { IsOrdered nat_cmp marks.now }
    ensures { result ≡ is_given_twice manifest.now (is_gone gone.now) (mark_of nat_cmp marks.now) change.now }
{
    match change.target {
        Some(file) => is_left(manifest, gone, file) || is_marked(marks, file.0),
        None => false,
    }
}

/// Returns the index of the first changed link whose target another link gives too, or none.
pub fn first_given_twice(
    alloc: Global,
    manifest: &Manifest,
    gone: &UnlinkedFiles,
    links: &[LinkChange],
) -> Result<Option<usize>, NoMemory>
    ensures { IfOk result (λ found. found ≡ first_of
        (is_given_twice manifest.now (is_gone gone.now) (λ file. marked file None links.now)) 0 links.now) }
{
    let marks = marks(alloc, links)?;
    Ok(first_marked(manifest, gone, &marks, links))
}

/// Returns the index of the first changed link whose target a link of the manifest gives too, or `marks` has as one that
/// several give.
fn first_marked(
    manifest: &Manifest,
    gone: &UnlinkedFiles,
    marks: &BTreeMap<u64, bool>,
    links: &[LinkChange],
) -> Option<usize>
    requires ordered { IsOrdered nat_cmp marks.now }
    ensures { result ≡ first_of
        (is_given_twice manifest.now (is_gone gone.now) (mark_of nat_cmp marks.now)) 0 links.now }
{
    for i in 0..links.len() {
        if is_given_twice(manifest, gone, marks, &links[i]) {
            return Some(i);
        }
    }
    None
}
