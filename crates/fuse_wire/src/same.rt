//! Whether two parts of a message are the same.
ghost use Rattle.std.specs.Prelude.{◌≡◌, ◌↔◌, IsTrue};

use eden_base::{Attr, Name, Number, Perm};

/// Returns whether `first` and `second` are the same permissions.
pub(crate) fn same_perm(first: Perm, second: Perm) -> bool
    ensures same { IsTrue result ↔ (first ≡ second) }
{
    first == second
}

/// Returns whether `first` and `second` are the same attributes.
pub(crate) fn same_attr(first: Attr, second: Attr) -> bool
    ensures same { IsTrue result ↔ (first ≡ second) }
{
    first.kind == second.kind
        && same_perm(first.perm, second.perm)
        && first.size == second.size
        && first.nlink == second.nlink
}

/// Returns whether `dir` is `other`, and `name` has the same bytes as `its`.
pub(crate) fn same_place(dir: Number, name: &Name, other: Number, its: &Name) -> bool
    ensures dir { IsTrue result → dir ≡ other }
    ensures name { IsTrue result → name.now ≡ its.now }
    ensures same { dir ≡ other → name.now ≡ its.now → IsTrue result }
{
    dir == other && name.is(its)
}
