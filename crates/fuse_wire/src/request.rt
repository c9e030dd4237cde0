//! The requests of the kernel, and their opcodes.
ghost use Rattle.std.specs.Prelude.{◌≡◌, ◌≤◌, ◌↔◌, length, IsTrue, IfOk, OnErr};
ghost use Rattle.fuse_wire.specs.Request.{code, opcode, opcode_of, nodeid, is_forget, form_of, is_ask, nodes, item_of, items_of, other_of};
ghost use Rattle.fuse_wire.specs.RequestBody.{TakesMemory};

use crate::memory::{Memory, RequestBuffers};
use crate::same::{same_perm, same_place};
use crate::{Batch, BatchRoom, Form, Item, NodeIds};
use eden_base::{Name, NameRoom, NoMemory, Number, Perm};
use std::alloc::Global;
use std::array;

/// A request without its unique. `dir` and `node` are the nodeid of the header; `dir` is a directory's.
#[derive(PartialEq, Eq, Drop)]
pub enum Request {
    Lookup {
        dir: Number,
        name: Name,
    },
    Getattr {
        node: Number,
    },
    /// The target of a symbolic link.
    Readlink {
        node: Number,
    },
    Create {
        dir: Number,
        name: Name,
        perm: Perm,
    },
    Mkdir {
        dir: Number,
        name: Name,
        perm: Perm,
    },
    Unlink {
        dir: Number,
        name: Name,
    },
    Rmdir {
        dir: Number,
        name: Name,
    },
    /// A move of the file under `name` in `dir` to `to_name` in `to_dir`.
    Rename {
        dir: Number,
        name: Name,
        to_dir: Number,
        to_name: Name,
    },
    /// The bytes of a file from `offset` on, at most `size` of them.
    Read {
        node: Number,
        offset: u64,
        size: u32,
    },
    /// The entries of a directory from `offset` on, in at most `size` bytes.
    Readdir {
        dir: Number,
        offset: u64,
        size: u32,
    },
    /// A forget of one item. It has no reply.
    Forget(Item),
    /// A forget of a batch of items. It has no reply.
    BatchForget(Batch),
    /// A request that is not served, with its opcode.
    Other {
        opcode: u32,
        node: Number,
    },
}

/// A request, and the `unique` that its reply has.
#[derive(PartialEq, Eq, Drop)]
pub struct Ask {
    pub unique: u64,
    pub what: Request,
}

/// The operation of a request (`enum fuse_opcode` of `linux/fuse.h`).
#[derive(Clone, Copy)]
pub(crate) enum Opcode {
    Lookup,
    Forget,
    Getattr,
    Readlink,
    Mkdir,
    Unlink,
    Rmdir,
    Rename,
    Read,
    Readdir,
    Create,
    BatchForget,
    /// Any other operation. The body of its requests is ignored.
    Other(u32),
}

impl Request {
    /// Makes a copy of the request in `memory`.
    fn copied<M: Memory>(&self, memory: M) -> Result<Request, NoMemory>
        ensures copy { IfOk result (λ copy. copy ≡ self.now) }
        ensures lack { OnErr result (IsTrue M.may_lack × TakesMemory self.now) }
    {
        match self {
            Request::Lookup { dir, name } => {
                let name = memory.copy_name(name)?;
                Ok(Request::Lookup { dir: *dir, name })
            }
            Request::Create { dir, name, perm } => {
                let name = memory.copy_name(name)?;
                Ok(Request::Create {
                    dir: *dir,
                    name,
                    perm: *perm,
                })
            }
            Request::Mkdir { dir, name, perm } => {
                let name = memory.copy_name(name)?;
                Ok(Request::Mkdir {
                    dir: *dir,
                    name,
                    perm: *perm,
                })
            }
            Request::Unlink { dir, name } => {
                let name = memory.copy_name(name)?;
                Ok(Request::Unlink { dir: *dir, name })
            }
            Request::Rmdir { dir, name } => {
                let name = memory.copy_name(name)?;
                Ok(Request::Rmdir { dir: *dir, name })
            }
            Request::Rename {
                dir,
                name,
                to_dir,
                to_name,
            } => {
                let (name, to_name) = memory.copy_names(name, to_name)?;
                Ok(Request::Rename {
                    dir: *dir,
                    name,
                    to_dir: *to_dir,
                    to_name,
                })
            }
            Request::Read { node, offset, size } => Ok(Request::Read {
                node: *node,
                offset: *offset,
                size: *size,
            }),
            Request::Readdir { dir, offset, size } => Ok(Request::Readdir {
                dir: *dir,
                offset: *offset,
                size: *size,
            }),
            Request::Getattr { node } => Ok(Request::Getattr { node: *node }),
            Request::Readlink { node } => Ok(Request::Readlink { node: *node }),
            Request::Forget(item) => Ok(Request::Forget(*item)),
            Request::BatchForget(batch) => {
                let batch = memory.copy_batch(batch)?;
                Ok(Request::BatchForget(batch))
            }
            Request::Other { opcode, node } => Ok(Request::Other {
                opcode: *opcode,
                node: *node,
            }),
        }
    }

    /// Makes a copy of the request, in memory that `alloc` gives.
    pub fn copy(&self, alloc: Global) -> Result<Request, NoMemory>
        ensures copy { IfOk result (λ copy. copy ≡ self.now) }
        ensures lack { OnErr result (TakesMemory self.now) }
    {
        self.copied(alloc)
    }

    /// Makes a copy of the request in rooms that were taken before: `first` for its name and `second` for a second
    /// one, or `batch`.
    pub fn copy_to(&self, first: NameRoom, second: NameRoom, batch: BatchRoom) -> Request
        ensures copy { result ≡ self.now }
    {
        let rooms = RequestBuffers {
            first,
            second,
            batch,
        };
        self.copied(rooms).unwrap()
    }

    /// Returns whether `self` and `other` are the same request.
    pub fn is(&self, other: &Request) -> bool
        ensures same { IsTrue result ↔ (self.now ≡ other.now) }
    {
        match self {
            Request::Lookup { dir, name } => {
                matches!(other, Request::Lookup { dir: second, name: its } if same_place(*dir, name, *second, its))
            }
            Request::Getattr { node } => {
                matches!(other, Request::Getattr { node: second } if node == second)
            }
            Request::Readlink { node } => {
                matches!(other, Request::Readlink { node: second } if node == second)
            }
            Request::Create { dir, name, perm } => {
                matches!(other, Request::Create { dir: second, name: its, perm: bits }
                    if same_place(*dir, name, *second, its) && same_perm(*perm, *bits))
            }
            Request::Mkdir { dir, name, perm } => {
                matches!(other, Request::Mkdir { dir: second, name: its, perm: bits }
                    if same_place(*dir, name, *second, its) && same_perm(*perm, *bits))
            }
            Request::Unlink { dir, name } => {
                matches!(other, Request::Unlink { dir: second, name: its } if same_place(*dir, name, *second, its))
            }
            Request::Rmdir { dir, name } => {
                matches!(other, Request::Rmdir { dir: second, name: its } if same_place(*dir, name, *second, its))
            }
            Request::Rename {
                dir,
                name,
                to_dir,
                to_name,
            } => {
                matches!(other, Request::Rename { dir: second, name: its, to_dir: target, to_name: new }
                    if same_place(*dir, name, *second, its) && same_place(*to_dir, to_name, *target, new))
            }
            Request::Read { node, offset, size } => {
                matches!(other, Request::Read { node: second, offset: from, size: most }
                    if node == second && offset == from && size == most)
            }
            Request::Readdir { dir, offset, size } => {
                matches!(other, Request::Readdir { dir: second, offset: from, size: most }
                    if dir == second && offset == from && size == most)
            }
            Request::Forget(item) => { matches!(other, Request::Forget(second) if item.is(second)) }
            Request::BatchForget(batch) => {
                matches!(other, Request::BatchForget(second) if batch.is(second))
            }
            Request::Other { opcode, node } => {
                matches!(other, Request::Other { opcode: second, node: its } if opcode == second && node == its)
            }
        }
    }

    /// Returns the request `Other` with this opcode, or none if another variant has the opcode.
    pub fn other(opcode: u32, node: Number) -> Option<Request>
        ensures other { result ≡ other_of opcode node }
    {
        match Opcode::of(opcode) {
            Opcode::Other(opcode) => Some(Request::Other { opcode, node }),
            _ => None,
        }
    }

    /// Returns whether the kernel waits for a reply, as it does for all but the two forgets.
    pub fn is_ask(&self) -> bool
        ensures ask { result ≡ is_ask self.now }
    {
        !matches!(self, Request::Forget(_) | Request::BatchForget(_))
    }

    /// Returns the form of the answer to the request, if the request does not fail.
    pub fn form(&self) -> Form
        ensures form { result ≡ form_of self.now }
    {
        match self {
            Request::Lookup { .. } | Request::Mkdir { .. } => Form::AnEntry,
            Request::Create { .. } => Form::AnOpenEntry,
            Request::Getattr { .. } => Form::Attributes,
            Request::Unlink { .. } | Request::Rmdir { .. } | Request::Rename { .. } => {
                Form::NoValue
            }
            Request::Readlink { .. } | Request::Read { .. } => Form::FileBytes,
            Request::Readdir { .. } => Form::ABuffer,
            Request::Forget(_) | Request::BatchForget(_) | Request::Other { .. } => {
                Form::OnlyAnError
            }
        }
    }

    /// Returns the operation of the request.
    pub(crate) fn opcode(&self) -> Opcode
        ensures { result ≡ opcode self.now }
    {
        match self {
            Request::Lookup { .. } => Opcode::Lookup,
            Request::Getattr { .. } => Opcode::Getattr,
            Request::Readlink { .. } => Opcode::Readlink,
            Request::Create { .. } => Opcode::Create,
            Request::Mkdir { .. } => Opcode::Mkdir,
            Request::Unlink { .. } => Opcode::Unlink,
            Request::Rmdir { .. } => Opcode::Rmdir,
            Request::Rename { .. } => Opcode::Rename,
            Request::Read { .. } => Opcode::Read,
            Request::Readdir { .. } => Opcode::Readdir,
            Request::Forget(_) => Opcode::Forget,
            Request::BatchForget(_) => Opcode::BatchForget,
            Request::Other { opcode, .. } => Opcode::Other(*opcode),
        }
    }

    /// Returns the nodeid that is written into the header: `dir` for a RENAME, and 0 for a batch.
    pub(crate) fn nodeid(&self) -> u64
        ensures { result ≡ nodeid self.now }
    {
        match self {
            Request::Lookup { dir, .. }
            | Request::Create { dir, .. }
            | Request::Mkdir { dir, .. }
            | Request::Unlink { dir, .. }
            | Request::Rmdir { dir, .. }
            | Request::Rename { dir, .. }
            | Request::Readdir { dir, .. } => dir.0,
            Request::Getattr { node }
            | Request::Readlink { node }
            | Request::Read { node, .. }
            | Request::Other { node, .. } => node.0,
            Request::Forget(item) => item.node.0,
            Request::BatchForget(_) => 0,
        }
    }

    /// Returns the numbers of the files that the request is for. The list is empty for a forget, whose numbers are in
    /// its items.
    pub fn nodes(&self) -> NodeIds
        ensures nodes { result ≡ nodes self.now }
    {
        match self {
            Request::Lookup { dir, .. }
            | Request::Create { dir, .. }
            | Request::Mkdir { dir, .. }
            | Request::Unlink { dir, .. }
            | Request::Rmdir { dir, .. }
            | Request::Readdir { dir, .. } => NodeIds::one(*dir),
            Request::Rename { dir, to_dir, .. } => NodeIds::two(*dir, *to_dir),
            Request::Getattr { node }
            | Request::Readlink { node }
            | Request::Read { node, .. }
            | Request::Other { node, .. } => NodeIds::one(*node),
            Request::Forget(_) | Request::BatchForget(_) => NodeIds::none(),
        }
    }

    /// Returns the item of a FORGET, or none for any other request, also for a batch.
    pub fn item(&self) -> Option<Item>
        ensures item { result ≡ item_of self.now }
    {
        match self {
            Request::Forget(item) => Some(*item),
            _ => None,
        }
    }

    /// Returns the items of a forget of either form, or no items for any other request.
    pub fn items(&self) -> &[Item]
        ensures items { result.now ≡ items_of self.now }
        ensures at_most { length result.now ≤ 256 }
    {
        match self {
            Request::Forget(item) => array::from_ref(item),
            Request::BatchForget(batch) => batch.as_slice(),
            _ => &[],
        }
    }
}

impl Opcode {
    /// Returns the operation whose opcode is `code`.
    #[tactic(auto, unfolding(crate::specs::Request::opcode_of))]
    pub(crate) fn of(code: u32) -> Opcode
        ensures { result ≡ opcode_of code }
    {
        match code {
            1 => Opcode::Lookup,
            2 => Opcode::Forget,
            3 => Opcode::Getattr,
            5 => Opcode::Readlink,
            9 => Opcode::Mkdir,
            10 => Opcode::Unlink,
            11 => Opcode::Rmdir,
            12 => Opcode::Rename,
            15 => Opcode::Read,
            28 => Opcode::Readdir,
            35 => Opcode::Create,
            42 => Opcode::BatchForget,
            other => Opcode::Other(other),
        }
    }

    /// Returns the opcode of the operation, as `linux/fuse.h` numbers it.
    pub(crate) fn code(self) -> u32
        ensures { result ≡ code self }
    {
        match self {
            Opcode::Lookup => 1,
            Opcode::Forget => 2,
            Opcode::Getattr => 3,
            Opcode::Readlink => 5,
            Opcode::Mkdir => 9,
            Opcode::Unlink => 10,
            Opcode::Rmdir => 11,
            Opcode::Rename => 12,
            Opcode::Read => 15,
            Opcode::Readdir => 28,
            Opcode::Create => 35,
            Opcode::BatchForget => 42,
            Opcode::Other(other) => other,
        }
    }

    /// Returns whether the operation is one of the two forgets, for which the kernel awaits no reply.
    pub(crate) fn is_forget(self) -> bool
        ensures { result ≡ is_forget self }
    {
        matches!(self, Opcode::Forget | Opcode::BatchForget)
    }
}

const _: () = prove!(size_of::<Request>() <= 88);

const _: () = prove!(size_of::<Ask>() <= 96);
