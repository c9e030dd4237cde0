//! A fault, and the system's error that caused it.
ghost use Rattle.std.specs.Prelude.{◌≡◌, None, Some};
ghost use Rattle.world_script.specs.declared.program_fault.ProgramFault.TheVariants.{NoMemory as OutOfMemory};

use crate::ProgramFault;
use eden_base::NoMemory;
use std::alloc::AllocError;
use std::io;

/// Why a script was not run to its end: the fault, and the error of the reader or the writer that caused it, if there
/// is one.
#[derive(Drop)]
pub struct RunError {
    pub fault: ProgramFault,
    pub cause: Option<io::Error>,
}

impl RunError {
    /// Returns `fault`, caused by the system's error `cause`.
    pub fn with_cause(fault: ProgramFault, cause: io::Error) -> RunError
        ensures fault { result.fault ≡ fault }
        ensures cause { result.cause ≡ Some cause }
    {
        RunError {
            fault,
            cause: Some(cause),
        }
    }
}

impl From<ProgramFault> for RunError {
    ghost from_gives = { λ fault error. (error.fault ≡ fault) × (error.cause ≡ None) };

    fn from(fault: ProgramFault) -> RunError {
        RunError { fault, cause: None }
    }
}

impl From<NoMemory> for RunError {
    ghost from_gives = { λ _ error. (error.fault ≡ OutOfMemory) × (error.cause ≡ None) };

    fn from(_refused: NoMemory) -> RunError {
        RunError::from(ProgramFault::NoMemory)
    }
}

impl From<AllocError> for RunError {
    ghost from_gives = { λ _ error. (error.fault ≡ OutOfMemory) × (error.cause ≡ None) };

    fn from(_refused: AllocError) -> RunError {
        RunError::from(ProgramFault::NoMemory)
    }
}
