//! What is agreed with a kernel.
ghost use Rattle.std.specs.Prelude.{◌≡◌};
ghost use Rattle.mount_wire.specs.Init.{agreement_of};

use crate::{KernelMessageFault, Offer};

/// What the program that mounts answers to an offer that it takes.
#[derive(Clone, Copy, PartialEq, Eq)]
pub enum Agreement {
    /// Version 7 of the protocol with this minor version. `max_readahead` is in bytes.
    Version {
        minor: u32,
        max_readahead: u32,
        flags: u32,
    },
    /// Major version 7 alone, for a kernel of a later one. The kernel then sends INIT again.
    MajorAlone,
}

/// The major version of the protocol.
pub(crate) const MAJOR: u32 = 7;

/// The least minor version that is taken: from 7.12 on, MKDIR and CREATE have a umask.
const LEAST_MINOR: u32 = 12;

/// The greatest minor version that is agreed to.
const GREATEST_MINOR: u32 = 31;

/// The flag `FUSE_ASYNC_READ`: the kernel reads a file ahead by several requests at once.
const ASYNC_READ: u32 = 1 << 0;

/// The flag `FUSE_PARALLEL_DIROPS`: lookups in one directory may overlap.
const PARALLEL_DIROPS: u32 = 1 << 18;

/// The flag `FUSE_CACHE_SYMLINKS`: the kernel keeps the target of a link that it read. No link here changes its target.
const CACHE_SYMLINKS: u32 = 1 << 23;

/// Returns what is agreed to where a kernel makes this `offer`, or `TooOld` if its version is below 7.12.
#[tactic(auto, unfolding(crate::specs::Init::agreement_of))]
pub fn agree(offer: &Offer) -> Result<Agreement, KernelMessageFault>
    ensures agreement { result ≡ agreement_of offer.now }
{
    if offer.major > MAJOR {
        return Ok(Agreement::MajorAlone);
    }
    if offer.major < MAJOR || offer.minor < LEAST_MINOR {
        return Err(KernelMessageFault::TooOld);
    }
    Ok(Agreement::Version {
        minor: offer.minor.min(GREATEST_MINOR),
        max_readahead: offer.max_readahead,
        flags: offer.flags & (ASYNC_READ | PARALLEL_DIROPS | CACHE_SYMLINKS),
    })
}
