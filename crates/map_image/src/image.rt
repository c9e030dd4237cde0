//! What a daemon hands over: the numbers that it gave, and what it changed in its checkout.
ghost use Rattle.std.specs.Prelude.{◌≡◌};

use crate::NamedBy;
use checkout::Changes;
use entry_table::Kept;
use std::marker::Model;

/// The entries of an image, in order.
#[derive(Drop)]
pub struct Entries {
    kept: Vec<Kept>,
}

impl Model for Entries {
    ghost use Rattle.std.specs.Prelude.{List};
    ghost use Rattle.entry_table.specs.declared.kept.Kept.{Kept};

    ghost Value = { List Kept };

    ghost view = { λ a. a.kept.items };
}

impl Entries {
    /// Makes a list of these entries. Takes no memory.
    pub fn of(kept: Vec<Kept>) -> Entries
        ensures entries { result ≡ kept.items }
    {
        Entries { kept }
    }

    /// Returns the entries in their order.
    pub fn as_slice(&self) -> &[Kept]
        ensures entries { result.now ≡ self.now }
    {
        self.kept.as_slice()
    }

    /// Returns the entries as a `Vec`. Takes no memory.
    pub fn into_vec(self) -> Vec<Kept>
        ensures entries { result.items ≡ self }
    {
        self.kept
    }
}

/// What tells which manifest an image belongs to.
#[derive(Clone, Copy)]
pub struct ManifestName {
    pub by: NamedBy,
    /// The manifest's commit or digest.
    pub bytes: [u8; 20],
}

/// All that a daemon knows of its mount, as it is handed to the next daemon.
#[derive(Drop)]
pub struct Image {
    /// The manifest that the checkout stands on.
    pub name: ManifestName,
    /// The generation at which the daemon has the seat.
    pub generation: u64,
    /// The number that is given next.
    pub next_number: u64,
    /// The entries of the numbers that are kept, by rising number.
    pub entries: Entries,
    /// How the checkout differs from its manifest.
    pub changes: Changes,
}
