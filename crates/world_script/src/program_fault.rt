//! Why the program could not do what its words ask for.
ghost use Rattle.world_script.specs.declared.program_fault.ProgramFault.TheVariants.{NoMemory as WantOfMemory};
ghost use Rattle.std.specs.Prelude.{◌≡◌, None, OnOk, Some};
ghost use Rattle.std.specs.Io.KnownBytes.{Appends};
ghost use Rattle.world_script.specs.FaultText.{fault_line, fault_text};
ghost use Rattle.world_script.specs.Refusal.{fault_of_manifest};

use eden_base::NoMemory;
use manifest::{ManifestFault, ManifestFaultKind};
use std::alloc::{AllocError, AllocFailed};
use std::error::Error;
use std::fmt;
use std::io::{self, Write};

/// A fault that ends the program. The faults up to `NoMemory` come before any line of a script is run or printed; if
/// several hold, the first listed one is told. The faults after `CannotWrite` are of processes that serve over sockets.
#[derive(Clone, Copy, Debug, PartialEq, Eq)]
pub enum ProgramFault {
    /// Reading the script failed, or its end was not seen in `MAX_READS` reads.
    CannotRead,
    /// The script has more than 1,048,576 bytes.
    TooLong,
    /// The script has no line `--`.
    NoEvents,
    /// The manifest is bad: this is its first faulty line.
    BadManifest(ManifestFault),
    /// The number of the first line after the line `--` that says no event. The script's first line is line 1.
    BadLine(usize),
    NoMemory,
    /// What happened could not be printed.
    CannotWrite,
    /// The process can't listen at its socket.
    CannotListen,
    /// No broker listens at the socket by which a daemon reaches the broker.
    NoBroker,
    /// The broker has a daemon that serves already.
    Seated,
    /// As many daemons are at the broker as may be.
    Full,
    /// No daemon listens at the socket by which a new daemon reaches the one that it takes over from.
    NoDaemon,
    /// The daemon that serves refused the offer of a takeover.
    OfferRefused,
    /// A takeover began and came to nothing.
    TakeoverFailed,
    /// The system refused a thread.
    NoThread,
    /// A peer broke the protocol, or its connection broke.
    Broken,
    /// The file for what the kernel holds can't be made.
    NoLog,
    /// The kernel's device can't be opened.
    NoDevice,
    /// The command that mounts failed.
    CannotMount,
    /// The directory with the contents of files can't be served.
    NoFiles,
    /// The program git can't be run.
    NoGit,
    /// There is no git repository that can be served.
    NoRepository,
    /// The repository has no such commit.
    NoCommit,
    /// The repository names its objects by SHA-256.
    Sha256,
    /// What git printed of the commit is no tree.
    BadTree,
}

/// Writes the line of `fault`.
pub fn write_fault<W: Write>(out: &mut W, fault: ProgramFault) -> io::Result<()>
    ensures line { OnOk result (Appends (W.contents out.old) (W.contents out.new)
        (fault_line fault)) }
{
    writeln!(out, "fault: {fault}")
}

impl fmt::Display for ProgramFault {
    ghost output = { λ fault. Some (fault_text fault) };

    fn fmt<W: fmt::Write>(&self, f: &mut fmt::Formatter<W>) -> fmt::Result {
        match self {
            ProgramFault::CannotRead => f.write_str("cannot read"),
            ProgramFault::TooLong => f.write_str("too long"),
            ProgramFault::NoEvents => f.write_str("no events"),
            ProgramFault::BadManifest(fault) => {
                let line = fault.line;
                let kind = fault.kind;
                write!(f, "line {line}: {kind}")
            }
            ProgramFault::BadLine(line) => write!(f, "line {line}: bad line"),
            ProgramFault::NoMemory => f.write_str("no memory"),
            ProgramFault::CannotWrite => f.write_str("cannot write"),
            ProgramFault::CannotListen => f.write_str("cannot listen"),
            ProgramFault::NoBroker => f.write_str("no broker"),
            ProgramFault::Seated => f.write_str("seated"),
            ProgramFault::Full => f.write_str("full"),
            ProgramFault::NoDaemon => f.write_str("no daemon"),
            ProgramFault::OfferRefused => f.write_str("offer refused"),
            ProgramFault::TakeoverFailed => f.write_str("takeover failed"),
            ProgramFault::NoThread => f.write_str("no thread"),
            ProgramFault::Broken => f.write_str("broken"),
            ProgramFault::NoLog => f.write_str("no log"),
            ProgramFault::NoDevice => f.write_str("no device"),
            ProgramFault::CannotMount => f.write_str("cannot mount"),
            ProgramFault::NoFiles => f.write_str("no files"),
            ProgramFault::NoGit => f.write_str("no git"),
            ProgramFault::NoRepository => f.write_str("no repository"),
            ProgramFault::NoCommit => f.write_str("no commit"),
            ProgramFault::Sha256 => f.write_str("objects by SHA-256"),
            ProgramFault::BadTree => f.write_str("bad tree"),
        }
    }
}

impl Error for ProgramFault {}

impl From<NoMemory> for ProgramFault {
    ghost from_gives = { λ _ fault. fault ≡ WantOfMemory };

    fn from(_refused: NoMemory) -> ProgramFault {
        ProgramFault::NoMemory
    }
}

impl From<AllocError> for ProgramFault {
    ghost from_gives = { λ _ fault. fault ≡ WantOfMemory };

    fn from(_refused: AllocError) -> ProgramFault {
        ProgramFault::NoMemory
    }
}

impl<T: Drop> From<AllocFailed<T>> for ProgramFault {
    ghost from_gives = { λ _ fault. fault ≡ WantOfMemory };

    fn from(_refused: AllocFailed<T>) -> ProgramFault {
        ProgramFault::NoMemory
    }
}

impl From<ManifestFault> for ProgramFault {
    ghost from_gives = { λ fault gives. gives ≡ fault_of_manifest fault };

    fn from(fault: ManifestFault) -> ProgramFault {
        match fault.kind {
            ManifestFaultKind::NoMemory => ProgramFault::NoMemory,
            _ => ProgramFault::BadManifest(fault),
        }
    }
}
