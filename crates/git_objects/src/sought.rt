//! A blob that is sought.

/// A blob that is sought: the id of the object, and the size that its tree says.
#[derive(Clone, Copy, Default)]
pub struct Sought {
    pub object: [u8; 20],
    pub size: u64,
}
