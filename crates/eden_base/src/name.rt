//! The name of a directory entry.
ghost use Rattle.std.specs.Prelude.{◌≡◌, ℕ, ◌≤◌, Bool, ◌↔◌, List, length, Some, IsOk, IfOk, IfErr, OnOk, IsTrue, nat_eq};
ghost use Rattle.std.specs.List.{list_any};
ghost use Rattle.std.specs.Ordering.{nat_cmp};
ghost use Rattle.std.specs.Cmp.Lexicographic.{pointwise, slice_cmp, nat_list_eq_equiv, nat_list_cmp_total, texts_ties, texts_po};
ghost use Rattle.std.specs.Cmp.{partial_equiv_from_equiv};
ghost use Rattle.std.proofs.Common.{refl};
ghost use Rattle.eden_base.specs.Name.{is_separator, is_dots, name_fault, IsNameText, IsNameRefusal};

use crate::order::compare_bytes;
use crate::{NameRoom, NoMemory};
use smallvec::SmallVec;
use std::alloc::Global;
use std::cmp::Ordering;
use std::marker::Model;
use thiserror::Error;

/// How many bytes of a name stand in its `Name` itself. Most names of a checkout have no more bytes, and so take no
/// memory. With a greater `SHORT`, a `Name` would take more than 32 bytes.
const SHORT: usize = 16;

/// The name of a directory entry, as `path_resolution(7)` defines it. Its bytes need not be UTF-8.
pub struct Name {
    bytes: SmallVec<u8, SHORT>,
}

impl Drop for Name {
    fn drop(self) {
        let Name { bytes: _ } = self;
    }
}

impl Model for Name {
    ghost Value = { List ℕ };

    ghost view = { λ name. name.bytes.items };

    ghost invariant = { λ name. IsNameText name.bytes.items };
}

const _: () = prove!(size_of::<Name>() <= 32);

/// Why bytes are no name. If several variants apply, the first in this order is the fault.
#[derive(Clone, Copy, Debug, PartialEq, Eq, Error)]
pub enum NameFault {
    #[error("the name is empty")]
    Empty,
    #[error("the name is longer than 255 bytes")]
    TooLong,
    #[error("the name has a slash or a NUL")]
    BadByte,
    #[error("the name is `.` or `..`")]
    Dots,
    #[error("out of memory")]
    NoMemory,
}

impl Name {
    /// The length of the longest name, in bytes (`NAME_MAX` of `linux/limits.h`).
    pub const MAX_LEN: usize = 255;

    /// Makes a name of `bytes`, or returns why they are no name.
    pub fn parse(alloc: Global, bytes: &[u8]) -> Result<Name, NameFault>
        ensures name { IfOk result (λ name. name ≡ bytes.now) }
        ensures accepted { OnOk result (IsNameText bytes.now) }
        ensures refused { IfErr result (IsNameRefusal bytes.now) }
        ensures short { length bytes.now ≤ 16 → ¬ (result ≡ Err NameFault.NoMemory) }
    {
        if let Some(fault) = Name::fault(bytes) {
            return Err(fault);
        }
        match Name::of(alloc, bytes) {
            Ok(name) => Ok(name),
            Err(NoMemory) => Err(NameFault::NoMemory),
        }
    }

    /// Makes a name of `bytes`, which must be a valid name.
    pub fn of(alloc: Global, bytes: &[u8]) -> Result<Name, NoMemory>
        requires { IsNameText bytes.now }
        ensures name { IfOk result (λ name. name ≡ bytes.now) }
        ensures short { length bytes.now ≤ 16 → IsOk result }
    {
        match SmallVec::from_slice(alloc, bytes) {
            Ok(bytes) => Ok(Name { bytes }),
            Err(_refused) => Err(NoMemory),
        }
    }

    /// Makes a name of `bytes`, which must be a valid name, in the memory of `room`.
    pub fn of_to(room: NameRoom, bytes: &[u8]) -> Name
        requires { IsNameText bytes.now }
        ensures name { result ≡ bytes.now }
    {
        let NameRoom { bytes: mut taken } = room;
        taken.extend_from_slice(bytes).unwrap();
        Name {
            bytes: SmallVec::from_vec(taken),
        }
    }

    /// Returns why `bytes` are no name, or none if they are a name. `NoMemory` is never returned.
    pub fn fault(bytes: &[u8]) -> Option<NameFault>
        ensures fault { result ≡ name_fault bytes.now }
    {
        if bytes.is_empty() {
            return Some(NameFault::Empty);
        }
        if bytes.len() > Name::MAX_LEN {
            return Some(NameFault::TooLong);
        }
        if has_separator(bytes) {
            return Some(NameFault::BadByte);
        }
        if is_dots(bytes) {
            return Some(NameFault::Dots);
        }
        None
    }

    /// Returns the bytes of the name, which need not be UTF-8.
    pub fn bytes(&self) -> &[u8]
        ensures bytes { result.now ≡ self.now }
        ensures is_name { IsNameText result.now }
    {
        self.bytes.as_slice()
    }

    /// Makes a copy of the name. The copy of a name of up to 16 bytes takes no memory.
    pub fn copy(&self, alloc: Global) -> Result<Name, NoMemory>
        ensures copy { IfOk result (λ name. name ≡ self.now) }
        ensures short { length self.now ≤ 16 → IsOk result }
    {
        Name::of(alloc, self.bytes())
    }

    /// Makes a copy of the name in the memory of `room`.
    pub fn copy_to(&self, room: NameRoom) -> Name
        ensures copy { result ≡ self.now }
    {
        Name::of_to(room, self.bytes())
    }

    /// Returns whether `self` and `other` have the same bytes.
    pub fn is(&self, other: &Name) -> bool
        ensures same { IsTrue result ↔ (self.now ≡ other.now) }
        ensures value { result ≡ pointwise nat_eq self.now other.now }
    {
        self.bytes() == other.bytes()
    }
}

/// Returns whether a slash or a NUL is among the bytes. Each is looked for by itself, since std tests many bytes at once
/// for one value.
fn has_separator(bytes: &[u8]) -> bool
    ensures { result ≡ list_any is_separator bytes.now }
{
    bytes.contains(&b'/') || bytes.contains(&0)
}

/// Returns whether the bytes are `.` or `..`.
fn is_dots(bytes: &[u8]) -> bool
    ensures { result ≡ is_dots bytes.now }
{
    match bytes {
        [b'.'] => true,
        [b'.', b'.'] => true,
        _ => false,
    }
}

impl PartialEq for Name {
    ghost eq = { λ x y. pointwise nat_eq x y };

    ghost laws = { partial_equiv_from_equiv nat_list_eq_equiv };

    fn eq(&self, other: &Name) -> bool {
        self.is(other)
    }
}

impl Eq for Name {
    ghost laws = { nat_list_eq_equiv };
}

impl PartialOrd for Name {
    ghost partial_cmp = { λ x y. Some (slice_cmp nat_cmp x y) };

    ghost laws = { texts_po };

    fn partial_cmp(&self, other: &Name) -> Option<Ordering> {
        Some(self.cmp(other))
    }
}

impl Ord for Name {
    ghost cmp = { λ x y. slice_cmp nat_cmp x y };

    ghost total = { nat_list_cmp_total };

    ghost matches_partial_cmp = { λ x y. refl };

    ghost matches_eq = { λ x y. texts_ties x y };

    fn cmp(&self, other: &Name) -> Ordering {
        compare_bytes(self.bytes(), other.bytes())
    }
}
