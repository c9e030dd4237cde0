//! What the threads fetch.
ghost use Rattle.std.specs.Prelude.{◌≡◌};
ghost use Rattle.git_objects.specs.UnderWay.{is_ahead};

/// What a thread fetches.
#[derive(Clone, Copy)]
pub(crate) enum Duty {
    /// Blobs that are wanted, and too large to be kept in memory.
    Large,
    /// The other blobs that are wanted.
    Small,
    /// Blobs that nobody waits for yet.
    Ahead,
}

impl Duty {
    /// Returns whether nobody waits yet for what is fetched.
    pub(crate) fn is_ahead(self) -> bool
        ensures { result ≡ is_ahead self }
    {
        matches!(self, Duty::Ahead)
    }
}
