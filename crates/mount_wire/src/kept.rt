//! What a kernel may keep of an answer.

/// What a kernel may keep of an answer, by what it asked for.
#[derive(Clone, Copy, PartialEq, Eq)]
pub enum Kept {
    /// What it is told, for as long as the answer says.
    Told,
    /// The same, and that a name is not there: it asked by a LOOKUP.
    Absence,
    /// What it is told, and the whole listing at whose end it is: it asked by a READDIR.
    Listing,
    /// The same, but no listing: what it read of the directory may be parts of two.
    NoListing,
}
