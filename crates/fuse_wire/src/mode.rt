//! The mode of a file.
ghost use Rattle.std.specs.Prelude.{◌≡◌, ◌+◌};
ghost use Rattle.fuse_wire.specs.Mode.{perm_of, type_bits};
ghost use Rattle.fuse_wire.specs.ReplyReading.{kind_of};

use eden_base::{Kind, Perm};

/// The bits of a mode that are permissions.
const PERM_BITS: u32 = 0o7777;

/// The type bits of a regular file.
const S_IFREG: u32 = 0o100000;

/// The type bits of a directory.
const S_IFDIR: u32 = 0o040000;

/// The type bits of a symbolic link.
const S_IFLNK: u32 = 0o120000;

/// Returns the permissions of a mode.
pub(crate) fn perm_of(mode: u32) -> Perm
    ensures { result ≡ perm_of mode }
{
    Perm::of((mode & PERM_BITS) as u16).unwrap()
}

/// Returns the type bits of a kind.
fn type_bits(kind: Kind) -> u32
    ensures { result ≡ type_bits kind }
{
    match kind {
        Kind::File => S_IFREG,
        Kind::Dir => S_IFDIR,
        Kind::Link => S_IFLNK,
    }
}

/// Returns the kind of a regular file's, a directory's or a symbolic link's mode. For any other mode, one of the three
/// is returned.
pub(crate) fn kind_of(mode: u32) -> Kind
    ensures { result ≡ kind_of mode }
{
    if mode < S_IFREG {
        Kind::Dir
    } else if mode < S_IFLNK {
        Kind::File
    } else {
        Kind::Link
    }
}

/// Returns the mode of a file of this kind with these permissions.
pub(crate) fn mode_of(kind: Kind, perm: Perm) -> u32
    ensures { result ≡ type_bits kind + perm.bits }
{
    type_bits(kind) + u32::from(perm.bits())
}
