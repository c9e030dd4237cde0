//! The attributes of a file.
ghost use Rattle.std.specs.Prelude.{◌≡◌, ◌≤◌, ◌↔◌, IfSome, IsSome};
ghost use Rattle.eden_base.specs.Words.{kind_name};
ghost use Rattle.eden_base.specs.Kinds.{kind_made};

/// A regular file, a directory or a symbolic link. Devices, pipes and sockets are no part of a checkout here.
#[derive(Clone, Copy, PartialEq, Eq)]
pub enum Kind {
    File,
    Dir,
    Link,
}

impl Kind {
    /// Returns the word for `self` in manifests and printed lines.
    pub fn name(self) -> &'static str
        ensures name { result.now ≡ kind_name self }
    {
        match self {
            Kind::File => "file",
            Kind::Dir => "dir",
            Kind::Link => "link",
        }
    }
}

/// The kind of a file that a request makes: CREATE makes a regular file, and MKDIR a directory.
#[derive(Clone, Copy, PartialEq, Eq)]
pub enum MadeKind {
    File,
    Dir,
}

impl MadeKind {
    /// Returns the kind that the file has once it is made.
    pub fn kind(self) -> Kind
        ensures kind { result ≡ kind_made self }
    {
        match self {
            MadeKind::File => Kind::File,
            MadeKind::Dir => Kind::Dir,
        }
    }
}

/// The low twelve bits of a mode: setuid, setgid and sticky, then read, write and execute three times.
#[derive(Clone, Copy, PartialEq, Eq)]
pub struct Perm {
    pub bits: u16,
    pub ghost in_range: { bits ≤ 4095 },
}

impl Perm {
    /// The greatest value of the bits: 0o7777.
    pub const MAX_BITS: u16 = 4095;

    /// The permissions of every directory of a manifest: 0o755.
    pub const DIRECTORY: Perm = Perm { bits: 493 };

    /// The permissions of every symbolic link: 0o777. Linux follows a link whatever they are (symlink(7)).
    pub const LINK: Perm = Perm { bits: 511 };

    /// Returns the permissions with these `bits`, or none if a bit above the twelfth is set.
    pub fn of(bits: u16) -> Option<Perm>
        ensures perm { IfSome result (λ perm. perm.bits ≡ bits) }
        ensures in_range { IsSome result ↔ (bits ≤ 4095) }
    {
        if bits <= Perm::MAX_BITS {
            Some(Perm { bits })
        } else {
            None
        }
    }

    /// Returns the bits that `of` was given.
    pub fn bits(self) -> u16
        ensures bits { result ≡ self.bits }
        ensures in_range { result ≤ 4095 }
    {
        self.bits
    }
}

/// The attributes of a file that a daemon tells the kernel. All other fields are constant, and are written with the
/// reply.
#[derive(Clone, Copy, PartialEq, Eq)]
pub struct Attr {
    pub kind: Kind,
    pub perm: Perm,
    /// The size in bytes; 0 for a directory. A symbolic link has that of its target.
    pub size: u64,
    /// The count of links: 0 for an unlinked file, else 2 for a directory and 1 for any other file.
    pub nlink: u32,
}
