//! What a checkout knows of a file, besides its names.
ghost use Rattle.std.specs.Prelude.{◌≡◌};
ghost use Rattle.manifest.specs.Tree.{nlink_of_kind};

use eden_base::{Kind, Perm};

/// The kind, the permissions and the size of a file. The tree knows how many names lead to the file, since names come
/// and go.
#[derive(Clone, Copy)]
pub struct Content {
    pub kind: Kind,
    pub perm: Perm,
    /// The size in bytes; 0 for a directory. A symbolic link has that of its target.
    pub size: u64,
}

/// Returns the link count that stat(2) has for a linked file of this kind: 2 for a directory, since it names itself.
pub fn nlink_of_kind(kind: Kind) -> u32
    ensures nlink { result ≡ nlink_of_kind kind }
{
    match kind {
        Kind::File => 1,
        Kind::Dir => 2,
        Kind::Link => 1,
    }
}
