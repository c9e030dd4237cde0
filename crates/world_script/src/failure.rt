//! A fault that ends the program, and the system's error that caused it.
ghost use Rattle.std.specs.Prelude.{◌≡◌, OnOk};
ghost use Rattle.world_script.specs.Refusal.{IsCaused};
ghost use Rattle.world_script.specs.ProgramEnd.{Complains, name_by, name_of, name_with, plain, untold};

use crate::complaint::complain;
use crate::sources::stream_at;
use crate::{ProgramEnd, ProgramFault, RunError};
use std::io::{self, Write};

/// The name that standard output has on standard error.
pub const STANDARD_OUTPUT: &str = "standard output";

/// The system's error with a file, a socket or a stream.
#[derive(Clone, Copy)]
pub struct Cause<'a> {
    /// The path of the file or socket, `standard input` or `standard output`.
    pub name: &'a str,
    pub error: io::Error,
}

/// A fault, and the system's error that caused it, if there is one.
#[derive(Clone, Copy)]
pub struct Failure<'a> {
    pub fault: ProgramFault,
    pub cause: Option<Cause<'a>>,
}

impl<'a> Failure<'a> {
    /// Returns the failure of `fault`, which no error of the system caused.
    pub fn plain(fault: ProgramFault) -> Failure<'a>
        ensures { result ≡ plain fault }
    {
        Failure { fault, cause: None }
    }

    /// Returns the failure of a run of the script at `path`, which `error` ended.
    pub fn of_run(error: &RunError, path: &'a str) -> Failure<'a>
        ensures fault { result.fault ≡ error.now.fault }
        ensures name { IsCaused error.now → name_of result ≡ name_by path.now result.fault }
    {
        match error.cause {
            Some(cause) => Failure {
                fault: error.fault,
                cause: Some(Cause {
                    name: name_with(error.fault, path),
                    error: cause,
                }),
            },
            None => Failure::plain(error.fault),
        }
    }

    /// Returns how the program ends if the line of this failure could not be written, because of `error`. If it was an
    /// earlier write to standard output that failed, the error of that write is kept.
    pub fn untold(self, error: io::Error) -> ProgramEnd<'a>
        ensures { result ≡ untold self.entry error }
    {
        match (self.fault, self.cause) {
            (ProgramFault::CannotWrite, Some(first)) => {
                ProgramEnd::Untold(Failure::plain(ProgramFault::CannotWrite), first.error)
            }
            _ => ProgramEnd::Untold(self, error),
        }
    }

    /// Writes a line with the system's error and the file or stream that had it, if there is such an error.
    pub fn say<E: Write>(&self, err: &mut E) -> io::Result<()>
        ensures { OnOk result (Complains (name_of self.now) (E.contents err.old)
            (E.contents err.new)) }
    {
        match &self.cause {
            Some(cause) => complain(err, cause.name, &cause.error),
            None => Ok(()),
        }
    }
}

/// Returns the name of the file or stream whose error caused `fault`, in a run of the script at `path`.
fn name_with(fault: ProgramFault, path: &str) -> &str
    ensures { result.now ≡ name_with path.now fault }
{
    match fault {
        ProgramFault::CannotWrite => STANDARD_OUTPUT,
        _ => stream_at(path),
    }
}
