//! What a kernel offers when it mounts.
ghost use Rattle.std.specs.Prelude.{◌≡◌};
ghost use Rattle.mount_wire.specs.Init.{offer_in, offer_of};

use crate::KernelMessageFault;
use crate::field::u32_at;
use crate::header::{RequestHeader, read_unique};
use crate::opcode::INIT;

/// What a kernel offers by INIT: the fields of `struct fuse_init_in` on which the answer depends, and the `unique` that
/// the reply has. `max_readahead` is in bytes, and `flags` are those of `linux/fuse.h` (`FUSE_ASYNC_READ` and so on).
#[derive(Clone, Copy, PartialEq, Eq)]
pub struct Offer {
    pub unique: u64,
    pub major: u32,
    pub minor: u32,
    pub max_readahead: u32,
    pub flags: u32,
}

impl Offer {
    /// The length in bytes of the fields that each kernel since 7.6 sends: major, minor, max_readahead, flags.
    const LEN: usize = 16;

    /// The offset of major in the body.
    const MAJOR: usize = 0;

    /// The offset of minor in the body.
    const MINOR: usize = 4;

    /// The offset of max_readahead in the body.
    const MAX_READAHEAD: usize = 8;

    /// The offset of flags in the body.
    const FLAGS: usize = 12;
}

/// Reads the INIT that `bytes` are. Returns the first fault of the header, or `BadBody` if fewer than 16 bytes follow
/// it. Later fields are ignored: a kernel since 7.36 sends `flags2` and 44 unused bytes.
#[tactic(auto, unfolding(crate::specs::Init::offer_of))]
pub fn read_offer(bytes: &[u8]) -> Result<Offer, KernelMessageFault>
    ensures exact { result ≡ offer_of bytes.now }
{
    let unique = read_unique(INIT, bytes)?;
    let (_, body) = bytes.split_at(RequestHeader::LEN);
    offer_in(unique, body)
}

/// Reads the fields of the INIT with this `unique` from its `body`.
#[tactic(auto, unfolding(crate::specs::Init::offer_in))]
fn offer_in(unique: u64, body: &[u8]) -> Result<Offer, KernelMessageFault>
    ensures { result ≡ offer_in unique body.now }
{
    if body.len() < Offer::LEN {
        return Err(KernelMessageFault::BadBody);
    }
    Ok(Offer {
        unique,
        major: u32_at(body, Offer::MAJOR),
        minor: u32_at(body, Offer::MINOR),
        max_readahead: u32_at(body, Offer::MAX_READAHEAD),
        flags: u32_at(body, Offer::FLAGS),
    })
}
