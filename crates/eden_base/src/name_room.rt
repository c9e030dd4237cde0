//! Memory for one name, taken before the name is known.
ghost use Rattle.std.specs.Prelude.{◌≤◌, IfOk};

use crate::{Name, NoMemory};
use std::alloc::Global;
use std::marker::Model;

/// Room for any one name, which contracts see as its capacity in bytes. `Name::of_to` and `copy_to` consume a
/// room, and so never run out of memory.
#[derive(Drop)]
pub struct NameRoom {
    pub(crate) bytes: Vec<u8>,
}

impl Model for NameRoom {
    ghost use Rattle.std.specs.Prelude.{◌≡◌, ℕ, ◌≤◌, vec_len, vec_capacity};

    ghost Value = { ℕ };

    ghost view = { λ room. vec_capacity room.bytes };

    ghost invariant = { λ room. (vec_len room.bytes ≡ 0) × (255 ≤ vec_capacity room.bytes) };
}

impl NameRoom {
    /// Takes memory for the longest name.
    pub fn new(alloc: Global) -> Result<NameRoom, NoMemory>
        ensures for_any_name { IfOk result (λ room. 255 ≤ room) }
    {
        match Vec::with_capacity(alloc, Name::MAX_LEN) {
            Ok(bytes) => Ok(NameRoom { bytes }),
            Err(_refused) => Err(NoMemory),
        }
    }
}
