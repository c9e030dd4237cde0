//! The modes of git's entries.
ghost use Rattle.std.specs.Prelude.{◌≡◌, ◌==◌, ◌<◌, ◌≤◌, IfSome, length, not, position};
ghost use Rattle.std.specs.List.{list_all};
ghost use Rattle.std.specs.Option.{option_copied};
ghost use Rattle.eden_base.specs.Limits.{greatest_size};
ghost use Rattle.manifest.specs.Text.{is_octal};
ghost use Rattle.git_tree.specs.GitMode.{file_mode, file_of, mode_of, rights_mode, size_in, unpadded};

use eden_base::{Kind, Perm};
use manifest::{Content, size_of};

/// What the mode and the type of an entry say that it is.
#[derive(Clone, Copy)]
pub enum GitMode {
    /// A directory.
    Tree,
    /// The place of another repository, whose files git does not have.
    Submodule,
    /// A symbolic link.
    Link,
    /// A regular file that its owner may execute.
    Executable,
    /// Any other regular file.
    Regular,
}

/// The least length of a size's field.
const SIZE_WIDTH: usize = 7;

/// The permissions of a file that may be executed: 0o755.
const EXECUTABLE: Perm = Perm { bits: 493 };

/// The permissions of any other file: 0o644.
const REGULAR: Perm = Perm { bits: 420 };

impl GitMode {
    /// Returns what an entry with this mode and this type of object is, or none if there is no such entry.
    pub fn of(mode: &[u8], object_type: &[u8]) -> Option<GitMode>
        ensures mode { result ≡ mode_of mode.now object_type.now }
    {
        if mode == b"040000".as_slice() && object_type == b"tree".as_slice() {
            return Some(GitMode::Tree);
        }
        if mode == b"160000".as_slice() && object_type == b"commit".as_slice() {
            return Some(GitMode::Submodule);
        }
        if mode == b"120000".as_slice() && object_type == b"blob".as_slice() {
            return Some(GitMode::Link);
        }
        if object_type == b"blob".as_slice() {
            return file_mode(mode);
        }
        None
    }

    /// Returns the size that the field of a record says, or none: `-` for what is no blob.
    pub fn size(self, field: &[u8]) -> Option<u64>
        ensures size { result ≡ size_in self field.now }
        ensures small { IfSome result (λ n. n ≤ greatest_size) }
    {
        let text = unpadded(field)?;
        match self {
            GitMode::Link | GitMode::Executable | GitMode::Regular => size_of(text),
            GitMode::Tree | GitMode::Submodule => {
                if text == b"-".as_slice() {
                    Some(0)
                } else {
                    None
                }
            }
        }
    }

    /// Returns the file that a checkout has for an entry with a blob of this size.
    pub fn content(self, size: u64) -> Content
        ensures file { result ≡ file_of self size }
    {
        match self {
            GitMode::Tree | GitMode::Submodule => Content {
                kind: Kind::Dir,
                perm: Perm::DIRECTORY,
                size: 0,
            },
            GitMode::Link => Content {
                kind: Kind::Link,
                perm: Perm::LINK,
                size,
            },
            GitMode::Executable => Content {
                kind: Kind::File,
                perm: EXECUTABLE,
                size,
            },
            GitMode::Regular => Content {
                kind: Kind::File,
                perm: REGULAR,
                size,
            },
        }
    }
}

/// Returns what a blob of this mode is, where the mode is that of a regular file.
fn file_mode(mode: &[u8]) -> Option<GitMode>
    ensures { result ≡ file_mode mode.now }
{
    let rights = mode.strip_prefix(b"100".as_slice())?;
    rights_mode(rights)
}

/// Returns what a blob with these rights is, or none if they are not three octal digits.
fn rights_mode(rights: &[u8]) -> Option<GitMode>
    ensures { result ≡ rights_mode rights.now }
{
    if rights.len() != 3 || !is_octal(rights) {
        return None;
    }
    if rights[0] % 2 == 1 {
        return Some(GitMode::Executable);
    }
    Some(GitMode::Regular)
}

/// Returns whether each of `digits` is an octal digit.
fn is_octal(digits: &[u8]) -> bool
    ensures { result ≡ list_all is_octal digits.now }
{
    digits.iter().all(|d| *d >= b'0' && *d <= b'7')
}

/// Returns the text that was padded with spaces on its left, if `field` has the right length.
fn unpadded(field: &[u8]) -> Option<&[u8]>
    ensures { option_copied result ≡ unpadded field.now }
{
    let start = first_other(field)?;
    let text = &field[start..];
    if field.len() != text.len().max(SIZE_WIDTH) {
        return None;
    }
    Some(text)
}

/// Returns the index of the first byte that is no space, if there is one.
fn first_other(field: &[u8]) -> Option<usize>
    ensures place { result ≡ position (λ b. not (b == 32)) field.now }
    ensures within { IfSome result (λ i. i < length field.now) }
{
    field.iter().position(|b| *b != b' ')
}
