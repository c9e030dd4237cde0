//! Why no file is made, and why changes make no tree.
ghost use Rattle.std.specs.Prelude.{◌≡◌};
ghost use Rattle.checkout.specs.declared.fault.ChangeFault.TheVariants.{NoMemory as OutOfMemory};

use eden_base::NoMemory;
use thiserror::Error;

/// Why no file was made.
#[derive(Clone, Copy, Debug, PartialEq, Eq, Error)]
pub enum CreateFault {
    #[error("no file id is left")]
    NoFileId,
    #[error("out of memory")]
    NoMemory,
}

/// Why changes make no tree of a manifest.
#[derive(Clone, Copy, Debug, PartialEq, Eq, Error)]
pub enum ChangeFault {
    /// The position of the first bad change. The next file has position 0. From 1 on come the made files, and after
    /// them the changed links.
    #[error("change {0} is bad")]
    BadChange(usize),
    #[error("out of memory")]
    NoMemory,
}

impl From<NoMemory> for ChangeFault {
    ghost from_gives = { λ _ fault. fault ≡ OutOfMemory };

    fn from(_refused: NoMemory) -> ChangeFault {
        ChangeFault::NoMemory
    }
}
