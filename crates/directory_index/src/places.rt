//! Where numbers stand.
ghost use Rattle.std.specs.Prelude.{◌≡◌, ℕ, List, Option, MatchOption, Some};
ghost use Rattle.directory_index.specs.Standing.{is_at, IsNameOf};

/// What knows where each number stands. An index stores no names, so it asks here whether a number that it found stands
/// where one was looked for.
pub trait Places {
    /// The directory and the name at which each number stands, if it stands anywhere.
    ghost place: { Self → ℕ → Option (ℕ × List ℕ) };

    /// Returns whether `number` stands under `name` in the directory `dir`.
    fn stands(&self, number: u64, dir: u64, name: &[u8]) -> bool
        ensures stands { result ≡ is_at (place self.now number) dir name.now };

    /// Returns the name under which `number` stands, or none if it stands nowhere.
    fn name_of(&self, number: u64) -> Option<&[u8]>
        ensures name { IsNameOf (place self.now number) result };
}
