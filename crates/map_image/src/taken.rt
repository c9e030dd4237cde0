//! The bytes that a reader took, which contracts alone see.
ghost use Rattle.std.specs.Prelude.{◌≡◌, ℕ, List, [], ◌++◌};
ghost use Rattle.std.specs.Borrow.{ftrue};

use std::marker::{Model, PhantomData, Send};

/// The bytes that were taken, in their order. They are stored nowhere: contracts name them, and no code runs for them.
#[derive(Drop)]
pub struct Taken {
    mark: PhantomData<u8>,
    pub ghost bytes: { List ℕ },
}

impl Model for Taken {
    ghost also_owns = { λ _. ftrue };
}

unsafe impl Send for Taken {}

impl Taken {
    /// Makes a list of no bytes.
    pub(crate) fn new() -> Taken
        ensures { result.bytes ≡ [] }
    {
        Taken { mark: PhantomData }
    }

    /// Appends a piece.
    pub(crate) fn add(&mut self, _piece: &[u8])
        ensures { self.new.bytes ≡ self.old.bytes ++ _piece.now }
    {}
}
