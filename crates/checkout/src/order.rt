//! The order of changed links: names that give another file than in the manifest, or none.
ghost use Rattle.std.specs.Prelude.{◌≡◌};
ghost use Rattle.std.specs.Ordering.{is_lt};
ghost use Rattle.std.specs.List.Sorted.{IsPermutation, IsSortedBy};
ghost use Rattle.checkout.specs.Changes.{place_of};
ghost use Rattle.manifest.specs.Tree.{link_cmp};

use manifest::LinkChange;
use std::cmp::Ordering;

/// Compares the places of two links: by directory, and then by the bytes of the name.
pub fn compare(a: &LinkChange, b: &LinkChange) -> Ordering
    ensures { result ≡ link_cmp (place_of a.now) (place_of b.now) }
{
    a.dir.0.cmp(&b.dir.0).then(a.name.cmp(&b.name))
}

/// Sorts links by place. Takes no memory.
pub fn sort(links: &mut Vec<LinkChange>)
    ensures permutation { IsPermutation links.old.items links.new.items }
    ensures sorted { IsSortedBy (λ a b. is_lt (link_cmp (place_of a) (place_of b))) links.new.items }
{
    links.sort_unstable_by(|a, b| compare(a, b));
}
