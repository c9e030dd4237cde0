//! READ and READLINK: which bytes of a file are read. They are fetched elsewhere, outside the lock over what is served.
ghost use Rattle.std.specs.Prelude.{◌≡◌};
ghost use Rattle.fuse_wire.specs.declared.request.Request.TheVariants.{Read, Readlink};
ghost use Rattle.fuse_ops.specs.Extents.{bytes_from, whole_target};
ghost use Rattle.fuse_ops.specs.Work.{Reads};

use super::Served;
use eden_base::{Errno, Kind, Number};
use fuse_wire::{Answer, Extent};

/// The most bytes that a READ may ask for: as many as an answer has at most.
const MOST_READ: u32 = 65512;

/// The most bytes that a READLINK tells: those of the longest path, without its NUL (`PATH_MAX` of `linux/limits.h`).
const MOST_TARGET: u64 = 4095;

impl Served {
    /// Answers a READ: the extent of the file `node` that has `size` bytes from `offset` on, or fewer where the file ends.
    /// Takes no memory, and asks no backing.
    pub(super) fn read(&mut self, node: Number, offset: u64, size: u32) -> Answer
        ensures reads { Reads self.old (Read node offset size) node (bytes_from offset size) result }
        ensures unchanged { self.new ≡ self.old }
    {
        let Some(file) = self.file_of(node) else {
            return Answer::Error(Errno::ESTALE);
        };
        let Some(content) = self.tree.content(file) else {
            return Answer::Error(Errno::ESTALE);
        };
        match content.kind {
            Kind::Dir => return Answer::Error(Errno::EISDIR),
            Kind::Link => return Answer::Error(Errno::EINVAL),
            Kind::File => {}
        }
        if size > MOST_READ {
            return Answer::Error(Errno::EINVAL);
        }
        let rest = content.size.saturating_sub(offset);
        let len = rest.min(u64::from(size)) as u32;
        Answer::Extent(Extent { file, offset, len })
    }

    /// Answers a READLINK: the extent that has the whole target of the symbolic link `node`. Takes no memory, and asks no
    /// backing.
    pub(super) fn read_link(&mut self, node: Number) -> Answer
        ensures reads { Reads self.old (Readlink node) node whole_target result }
        ensures unchanged { self.new ≡ self.old }
    {
        let Some(file) = self.file_of(node) else {
            return Answer::Error(Errno::ESTALE);
        };
        let Some(content) = self.tree.content(file) else {
            return Answer::Error(Errno::ESTALE);
        };
        if content.kind != Kind::Link {
            return Answer::Error(Errno::EINVAL);
        }
        if content.size > MOST_TARGET {
            return Answer::Error(Errno::ENAMETOOLONG);
        }
        Answer::Extent(Extent {
            file,
            offset: 0,
            len: content.size as u32,
        })
    }
}
