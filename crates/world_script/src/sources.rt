//! Where scripts come from.
ghost use Rattle.std.specs.Prelude.{None, IfErr, IfOk, IfSome, List, Option, ℕ, OnOk, length, true, ◌≡◌, ◌≤◌, ◌<◌};
ghost use Rattle.std.specs.Io.KnownBytes.{Keeps};
ghost use Rattle.world_script.specs.Refusal.{IsCaused, IsReadRefusal, IsRunRefusal, comes_first};
ghost use Rattle.world_script.specs.Script.{Runs};
ghost use Rattle.world_script.specs.Source.{OfRead, script_at, stream_at};

use crate::input::{MAX_LEN, read_whole};
use crate::{ProgramFault, RunError, run_script};
use std::alloc::Global;
use std::fs;
use std::io::{self, Read, Write};
use std::rt::{Files, Stderr, Stdout};

/// The word for standard input.
pub const STANDARD_INPUT: &str = "-";

/// Standard input, and files by their paths. A contract knows the bytes of sources that tell them, for example of
/// sources in memory.
pub trait Sources {
    type Input: Read + Drop;

    type File: Read + Drop;

    /// The bytes of standard input, where they are known.
    ghost input_bytes: { Self → Option (List ℕ) } = { λ _. None };

    /// The bytes of the file at a path, where they are known.
    ghost file_bytes: { Self → List ℕ → Option (List ℕ) } = { λ _ _. None };

    /// Returns standard input.
    fn input(&self) -> Self::Input
        ensures bytes { Keeps (input_bytes self.now) (Self.Input.remaining result) };

    /// Opens the file at a path.
    fn open(&self, path: &str) -> io::Result<Self::File>
        ensures bytes { IfOk result (λ file.
            Keeps (file_bytes self.now path.now) (Self.File.remaining file)) };
}

/// The words, the files and the streams of the system.
#[derive(Drop)]
pub struct System<'a, R> {
    pub host: &'a R,
    pub output: Stdout,
    pub errors: Stderr,
}

impl<R: Files + Input> Sources for System<'_, R> {
    type Input = R::Reader;

    type File = R::File;

    fn input(&self) -> R::Reader {
        self.host.reader()
    }

    fn open(&self, path: &str) -> io::Result<R::File> {
        fs::open(self.host, path)
    }
}

/// Returns the name of what the script at `path` is read from: `standard input`, or the path.
pub fn stream_at(path: &str) -> &str
    ensures { result.now ≡ stream_at path.now }
{
    if path == STANDARD_INPUT {
        "standard input"
    } else {
        path
    }
}

/// Reads all bytes of the file at `path`, or of standard input if `path` is `-`.
pub fn read_path<S: Sources>(alloc: Global, sources: &S, path: &str) -> Result<Vec<u8>, RunError>
    ensures len { IfOk result (λ bytes. length bytes.items ≤ MAX_LEN) }
    ensures whole { IfOk result (λ bytes. IfSome
        (script_at (S.input_bytes sources.now) (S.file_bytes sources.now) path.now)
        (λ all. bytes.items ≡ all)) }
    ensures refused { IfErr result (λ error. IsReadRefusal error.fault) }
    ensures caused { IfErr result IsCaused }
    ensures too_long { IfErr result (λ error. error.fault ≡ ProgramFault.TooLong → IfSome
        (script_at (S.input_bytes sources.now) (S.file_bytes sources.now) path.now)
        (λ all. MAX_LEN < length all)) }
{
    if path == STANDARD_INPUT {
        return read_whole(alloc, &mut sources.input());
    }
    let mut file = match sources.open(path) {
        Ok(file) => file,
        Err(error) => return Err(RunError::with_cause(ProgramFault::CannotRead, error)),
    };
    read_whole(alloc, &mut file)
}

/// Runs the script at `path`, or that of standard input if `path` is `-`.
pub fn run_path<S: Sources, W: Write>(
    alloc: Global,
    sources: &S,
    path: &str,
    limit: usize,
    out: &mut W,
) -> Result<(), RunError>
    ensures runs { OnOk result (OfRead
        (script_at (S.input_bytes sources.now) (S.file_bytes sources.now) path.now)
        (λ script. Runs script limit (W.contents out.old) (W.contents out.new))) }
    ensures refused { IfErr result (λ error. OfRead
        (script_at (S.input_bytes sources.now) (S.file_bytes sources.now) path.now)
        (λ script. IsRunRefusal script error.fault)) }
    ensures unwritten { IfErr result (λ error. comes_first error.fault ≡ true
        → Keeps (W.contents out.old) (W.contents out.new)) }
    ensures caused { IfErr result IsCaused }
{
    if path == STANDARD_INPUT {
        return run_script(alloc, &mut sources.input(), limit, out);
    }
    match sources.open(path) {
        Ok(mut file) => run_script(alloc, &mut file, limit, out),
        Err(error) => Err(RunError::with_cause(ProgramFault::CannotRead, error)),
    }
}
