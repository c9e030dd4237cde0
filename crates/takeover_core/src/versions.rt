//! The image versions that a daemon offers.
ghost use Rattle.std.specs.Prelude.{◌≡◌, ◌<◌, ◌≤◌, ◌==◌, [], ◌∷◌, ◌++◌, length, nat_eq};
ghost use Rattle.takeover_core.specs.Versions.{is_among, greatest_common};

use arrayvec::ArrayVec;
use std::marker::Model;

/// At most eight versions of an image, in the order in which they were listed.
#[derive(Drop)]
pub struct Versions {
    versions: ArrayVec<u16, 8>,
}

impl Model for Versions {
    ghost use Rattle.std.specs.Prelude.{◌≤◌, ℕ, List, length};

    ghost Value = { List ℕ };

    ghost view = { λ v. v.versions.items };

    ghost invariant = { λ v. length v.versions.items ≤ 8 };
}

impl Versions {
    /// The greatest count of versions. The limit is this project's own.
    pub const MAX_LEN: usize = 8;

    /// Makes a list of `versions`.
    pub fn of(versions: &[u16]) -> Versions
        requires at_most { length versions.now ≤ 8 }
        ensures versions { result ≡ versions.now }
    {
        Versions {
            versions: ArrayVec::try_from(versions).unwrap(),
        }
    }

    /// Returns the versions in their order.
    pub fn as_slice(&self) -> &[u16]
        ensures versions { result.now ≡ self.now }
        ensures at_most { length result.now ≤ 8 }
    {
        self.versions.as_slice()
    }

    /// Makes a copy of the list. Takes no memory.
    pub fn copy(&self) -> Versions
        ensures copy { result ≡ self.now }
    {
        Versions::of(self.as_slice())
    }

    /// Returns whether `version` is in the list.
    pub(crate) fn contains(&self, version: u16) -> bool
        ensures among { result ≡ is_among self.now version }
    {
        self.as_slice().iter().any(|own| *own == version)
    }

    /// Returns the greatest version that is in both lists, if there is one.
    pub(crate) fn greatest_common(&self, offered: &Versions) -> Option<u16>
        ensures greatest { result ≡ greatest_common self.now offered.now }
    {
        let offered = offered.as_slice();
        offered
            .iter()
            .copied()
            .filter(|version| self.contains(*version))
            .max()
    }
}

impl PartialEq for Versions {
    ghost use Rattle.std.specs.Cmp.{partial_equiv_from_equiv};
    ghost use Rattle.std.specs.Cmp.Lexicographic.{pointwise, nat_list_eq_equiv};

    ghost eq = { λ x y. pointwise nat_eq x y };

    ghost laws = { partial_equiv_from_equiv nat_list_eq_equiv };

    fn eq(&self, other: &Versions) -> bool {
        self.as_slice() == other.as_slice()
    }
}

impl Eq for Versions {
    ghost use Rattle.std.specs.Cmp.Lexicographic.{nat_list_eq_equiv};

    ghost laws = { nat_list_eq_equiv };
}
