//! The program in a process: its words, its streams and its status.
ghost use Rattle.std.specs.Prelude.{Err, None, IfErr, IfOk, IfSome, List, OnOk, Option, ℕ, map, string_bytes, ◌≡◌};
ghost use Rattle.std.specs.Io.Buffered.{writer_contents};
ghost use Rattle.std.specs.Io.KnownBytes.{Keeps};
ghost use Rattle.world_script.specs.declared.program_fault.ProgramFault.TheVariants.{NoMemory};
ghost use Rattle.world_script.specs.ProgramEnd.{Says, Tells, known_of, plain, status_of};
ghost use Rattle.world_script.specs.Process.{EndsCommand, RunsIn};

use crate::program::{end_after, finish, tell};
use crate::{CommandHandler, Failure, ProgramEnd, ProgramFault, Sources, System, run_program};
use std::alloc::Global;
use std::env;
use std::io::{self, BufWriter, Write};
use std::rt::{Env, Files, Stderr, Stdout};

/// How many bytes of printed lines are gathered for one write.
const CAPACITY: usize = 65_536;

/// The words and the streams of a process. Contracts speak of the bytes that are known of them, for example of streams
/// in memory.
pub trait Process: Sources {
    type Output: Write + Drop;

    type Errors: Write + Drop;

    /// The words, where they are known.
    ghost known_words: { Self → Option (List (List ℕ)) } = { λ _. None };

    /// What standard output holds before the program runs, where it is known.
    ghost output_bytes: { Self → Option (List ℕ) } = { λ _. None };

    /// What standard error holds before the program runs, where it is known.
    ghost errors_bytes: { Self → Option (List ℕ) } = { λ _. None };

    /// Returns the words that the process was started with, of which the first is the program's name.
    fn words(&self, alloc: Global) -> io::Result<Vec<String>>
        ensures words { IfOk result (λ words.
            IfSome (known_words self.now) (λ known. map string_bytes words.items ≡ known)) };

    /// Returns how many bytes for standard output are gathered for one write.
    fn capacity(&self) -> usize;

    /// Returns standard output, to which nothing was written.
    fn output(&self) -> Self::Output
        ensures bytes { Keeps (output_bytes self.now) (Self.Output.contents result) };

    /// Returns standard error, to which nothing was written.
    fn errors(&self) -> Self::Errors
        ensures bytes { Keeps (errors_bytes self.now) (Self.Errors.contents result) };
}

impl<R: Files + Input + Env + AllocGlobal> Process for System<'_, R> {
    type Output = Stdout;

    type Errors = Stderr;

    fn words(&self, alloc: Global) -> io::Result<Vec<String>> {
        let words = env::args(self.host)?.collect(alloc)?;
        Ok(words)
    }

    fn capacity(&self) -> usize {
        CAPACITY
    }

    fn output(&self) -> Stdout {
        self.output
    }

    fn errors(&self) -> Stderr {
        self.errors
    }
}

/// What a run of the program leaves behind: the exit status, and both streams.
#[derive(Drop)]
pub struct RunIn<W, E> {
    pub status: u8,
    pub output: W,
    pub errors: E,
    /// The error of a write to standard error, if one failed. The status does not depend on it.
    pub said: io::Result<()>,
}

/// Runs the program in a process. If the words ask for a broker or a daemon, `handler` runs it. The status is the same
/// if standard error cannot be written.
pub fn run_process<P: Process, D: CommandHandler>(
    alloc: Global,
    process: &P,
    handler: &mut D,
) -> RunIn<P::Output, P::Errors>
    ensures runs { RunsIn (P.known_words process.now)
        (P.input_bytes process.now) (P.file_bytes process.now)
        (known_of D.ends handler.old handler.new)
        (P.output_bytes process.now) (P.Output.contents result.output)
        (P.errors_bytes process.now) (P.Errors.contents result.errors)
        result.status result.said }
{
    let words = process.words(alloc);
    let lines = match gather_lines(alloc, process) {
        Ok(lines) => lines,
        Err(ended) => return ended,
    };
    let (output, ending) = run_program(alloc, &words, process, handler, lines);
    leave(output, process.errors(), ending)
}

/// Makes a writer that gathers what a process prints on standard output. If memory for that is refused, the process has
/// ended, and what it leaves behind is returned.
pub fn gather_lines<P: Process>(
    alloc: Global,
    process: &P,
) -> Result<BufWriter<P::Output>, RunIn<P::Output, P::Errors>>
    ensures gathers { IfOk result (λ lines.
        Keeps (P.output_bytes process.now) (writer_contents P.Output.contents lines)) }
    ensures no_memory { IfErr result (λ ended. EndsCommand (Err (plain NoMemory))
        (P.output_bytes process.now) (P.Output.contents ended.output)
        (P.errors_bytes process.now) (P.Errors.contents ended.errors)
        ended.status ended.said) }
{
    match BufWriter::with_capacity(alloc, process.capacity(), process.output()) {
        Ok(lines) => Ok(lines),
        Err(_) => {
            let (output, ending) = tell_no_memory(process.output());
            Err(leave(output, process.errors(), ending))
        }
    }
}

/// Ends a process whose server command had the result `ran`. Writes what `lines` gathered, and tells on `errors` the
/// system's error that caused a fault.
pub fn end_command<W: Write + Drop, E: Write>(
    ran: Result<(), Failure<'_>>,
    mut lines: BufWriter<W>,
    errors: E,
) -> RunIn<W, E>
    ensures ends { EndsCommand ran.entry
        (writer_contents W.contents lines) (W.contents result.output)
        (E.contents errors) (E.contents result.errors)
        result.status result.said }
{
    let ending = end_after(ran, &mut lines);
    let (output, ending) = finish(lines, ending);
    leave(output, errors, ending)
}

/// Ends a process whose server command had the result `ran`, where no line was gathered. Tells on `errors` the system's
/// error that caused a fault.
pub fn end_ungathered<W: Write, E: Write>(
    ran: Result<(), Failure<'_>>,
    mut output: W,
    errors: E,
) -> RunIn<W, E>
    ensures ends { EndsCommand ran.entry
        (W.contents output) (W.contents result.output)
        (E.contents errors) (E.contents result.errors)
        result.status result.said }
{
    let ended = end_after(ran, &mut output);
    leave(output, errors, ended)
}

/// Tells on `output` that memory to gather lines in was refused.
fn tell_no_memory<W: Write>(mut output: W) -> (W, ProgramEnd<'static>)
    ensures { Tells (plain NoMemory) (W.contents output) (W.contents result.0) result.1 }
{
    let ending = tell(Failure::plain(ProgramFault::NoMemory), &mut output);
    (output, ending)
}

/// Writes to `errors` what `ending` says, and returns what the process leaves behind.
fn leave<W, E: Write>(output: W, mut errors: E, ending: ProgramEnd<'_>) -> RunIn<W, E>
    ensures output { result.output ≡ output }
    ensures status { result.status ≡ status_of ending.entry }
    ensures says { OnOk result.said
        (Says ending.entry (E.contents errors) (E.contents result.errors)) }
{
    let said = ending.say(&mut errors);
    let status = ending.status();
    drop(ending);
    RunIn {
        status,
        output,
        errors,
        said,
    }
}
