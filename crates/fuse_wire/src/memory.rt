//! The memory for the names or the batch of a request that is read or copied.
ghost use Rattle.std.specs.Prelude.{◌≡◌, ◌≤◌, ◌*◌, Bool, true, false, IsTrue, length, IfOk, OnErr};
ghost use Rattle.eden_base.specs.Name.{IsNameText};
ghost use Rattle.fuse_wire.specs.RequestBody.{IsLongName, IsLongEither, items_at};

use crate::{Batch, BatchRoom};
use eden_base::{Name, NameRoom, NoMemory};
use std::alloc::Global;

/// Memory for the names or the batch of one request: an allocator, which may refuse, or rooms that were taken before.
pub(crate) trait Memory: Drop {
    /// Whether this memory may be refused.
    ghost may_lack: { Bool };

    /// Makes a name of `bytes`, which must be a valid name.
    fn name(self, bytes: &[u8]) -> Result<Name, NoMemory>
        requires { IsNameText bytes.now }
        ensures name { IfOk result (λ name. name ≡ bytes.now) }
        ensures lack { OnErr result (IsTrue may_lack × IsLongName bytes.now) };

    /// Makes two names of `first` and `second`, which must be valid names.
    fn names(self, first: &[u8], second: &[u8]) -> Result<(Name, Name), NoMemory>
        requires is_first { IsNameText first.now }
        requires is_second { IsNameText second.now }
        ensures first { IfOk result (λ names. names.0 ≡ first.now) }
        ensures second { IfOk result (λ names. names.1 ≡ second.now) }
        ensures lack { OnErr result (IsTrue may_lack × IsLongEither first.now second.now) };

    /// Reads a batch of `count` items from `bytes`.
    fn batch(self, count: usize, bytes: &[u8]) -> Result<Batch, NoMemory>
        requires whole { length bytes.now ≡ 16 * count }
        requires at_most { count ≤ 256 }
        ensures items { IfOk result (λ batch. batch ≡ items_at count bytes.now) }
        ensures lack { OnErr result (IsTrue may_lack) };

    /// Copies a name.
    fn copy_name(self, name: &Name) -> Result<Name, NoMemory>
        ensures name { IfOk result (λ copy. copy ≡ name.now) }
        ensures lack { OnErr result (IsTrue may_lack × IsLongName name.now) };

    /// Copies two names.
    fn copy_names(self, first: &Name, second: &Name) -> Result<(Name, Name), NoMemory>
        ensures first { IfOk result (λ copies. copies.0 ≡ first.now) }
        ensures second { IfOk result (λ copies. copies.1 ≡ second.now) }
        ensures lack { OnErr result (IsTrue may_lack × IsLongEither first.now second.now) };

    /// Copies a batch.
    fn copy_batch(self, batch: &Batch) -> Result<Batch, NoMemory>
        ensures items { IfOk result (λ copy. copy ≡ batch.now) }
        ensures lack { OnErr result (IsTrue may_lack) };
}

impl Memory for Global {
    ghost may_lack = { true };

    /// Makes a name, in memory that is asked for if it is long.
    fn name(self, bytes: &[u8]) -> Result<Name, NoMemory> {
        Name::of(self, bytes)
    }

    /// Makes two names, each in memory that is asked for if it is long.
    fn names(self, first: &[u8], second: &[u8]) -> Result<(Name, Name), NoMemory> {
        let first = Name::of(self, first)?;
        let second = Name::of(self, second)?;
        Ok((first, second))
    }

    /// Reads a batch, in memory that is asked for.
    fn batch(self, count: usize, bytes: &[u8]) -> Result<Batch, NoMemory> {
        Batch::read(self, count, bytes)
    }

    /// Copies a name, into memory that is asked for if it is long.
    fn copy_name(self, name: &Name) -> Result<Name, NoMemory> {
        name.copy(self)
    }

    /// Copies two names, each into memory that is asked for if it is long.
    fn copy_names(self, first: &Name, second: &Name) -> Result<(Name, Name), NoMemory> {
        let first = first.copy(self)?;
        let second = second.copy(self)?;
        Ok((first, second))
    }

    /// Copies a batch, into memory that is asked for.
    fn copy_batch(self, batch: &Batch) -> Result<Batch, NoMemory> {
        batch.copy(self)
    }
}

/// Buffers that were taken before, for the names or the batch of any request.
#[derive(Drop)]
pub(crate) struct RequestBuffers {
    pub first: NameRoom,
    pub second: NameRoom,
    pub batch: BatchRoom,
}

impl Memory for RequestBuffers {
    ghost may_lack = { false };

    /// Makes a name in the first room.
    fn name(self, bytes: &[u8]) -> Result<Name, NoMemory> {
        Ok(Name::of_to(self.first, bytes))
    }

    /// Makes two names, in the first room and the second.
    fn names(self, first: &[u8], second: &[u8]) -> Result<(Name, Name), NoMemory> {
        let first = Name::of_to(self.first, first);
        let second = Name::of_to(self.second, second);
        Ok((first, second))
    }

    /// Reads a batch in its room.
    fn batch(self, count: usize, bytes: &[u8]) -> Result<Batch, NoMemory> {
        Ok(Batch::read_to(self.batch, count, bytes))
    }

    /// Copies a name into the first room.
    fn copy_name(self, name: &Name) -> Result<Name, NoMemory> {
        Ok(name.copy_to(self.first))
    }

    /// Copies two names, into the first room and the second.
    fn copy_names(self, first: &Name, second: &Name) -> Result<(Name, Name), NoMemory> {
        let first = first.copy_to(self.first);
        let second = second.copy_to(self.second);
        Ok((first, second))
    }

    /// Copies a batch into its room.
    fn copy_batch(self, batch: &Batch) -> Result<Batch, NoMemory> {
        Ok(batch.copy_to(self.batch))
    }
}
