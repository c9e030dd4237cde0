//! How the program ends.
ghost use Rattle.std.specs.Prelude.{◌≡◌, OnOk};
ghost use Rattle.world_script.specs.ProgramEnd.{Says, status_of, unwritten};

use crate::complaint::complain;
use crate::failure::STANDARD_OUTPUT;
use crate::{Failure, ProgramFault};
use std::io::{self, Write};

/// How a run of the program ends, with what standard error is to get.
#[derive(Drop)]
pub enum ProgramEnd<'a> {
    /// A script was run, and each event's lines were written; or a server command was run.
    Ran,
    /// A fault ended the program, and its line was written.
    Told(Failure<'a>),
    /// A fault ended the program, and its line could not be written. The error is that of the first write that failed.
    Untold(Failure<'a>, io::Error),
    /// The words ask for the help or the version, and this text was written.
    Shown(String),
    /// The words were refused, for the reason that this text tells.
    Refused(String),
}

impl<'a> ProgramEnd<'a> {
    /// Returns the exit status: 0 after a script, a server command, the help or the version, 1 after a fault, 2 for
    /// refused words.
    pub fn status(&self) -> u8
        ensures { result ≡ status_of self.now }
    {
        match self {
            ProgramEnd::Ran | ProgramEnd::Shown(_) => 0,
            ProgramEnd::Told(_) | ProgramEnd::Untold(..) => 1,
            ProgramEnd::Refused(_) => 2,
        }
    }

    /// Returns how the program ends if its last output could not be written, because of `error`.
    pub fn unwritten(self, error: io::Error) -> ProgramEnd<'a>
        ensures { result ≡ unwritten self.entry error }
    {
        match self {
            ProgramEnd::Told(failure) => failure.untold(error),
            ProgramEnd::Untold(failure, first) => ProgramEnd::Untold(failure, first),
            ProgramEnd::Ran => Failure::plain(ProgramFault::CannotWrite).untold(error),
            ProgramEnd::Shown(_text) => Failure::plain(ProgramFault::CannotWrite).untold(error),
            ProgramEnd::Refused(_text) => Failure::plain(ProgramFault::CannotWrite).untold(error),
        }
    }

    /// Writes to standard error why the words are refused, or a line for each file or stream with which the system had
    /// an error.
    pub fn say<E: Write>(&self, err: &mut E) -> io::Result<()>
        ensures says { OnOk result (Says self.now (E.contents err.old) (E.contents err.new)) }
    {
        match self {
            ProgramEnd::Ran | ProgramEnd::Shown(_) => Ok(()),
            ProgramEnd::Told(failure) => failure.say(err),
            ProgramEnd::Untold(failure, error) => {
                failure.say(err)?;
                complain(err, STANDARD_OUTPUT, error)
            }
            ProgramEnd::Refused(text) => err.write_all(text.as_bytes()),
        }
    }
}
