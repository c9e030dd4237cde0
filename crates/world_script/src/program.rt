//! The program, over any words, sources of scripts, server commands and standard output.
ghost use Rattle.std.specs.Prelude.{Err, Ok, [], map, string_bytes};
ghost use Rattle.std.specs.Io.Buffered.{writer_contents};
ghost use Rattle.std.specs.IoError.{error_kind};
ghost use Rattle.clap.specs.Words.{kind_of};
ghost use Rattle.world_script.specs.ProgramEnd.{Answers, Ends, EndsAfter, EndsAsked, EndsBy, Finishes, RunsCommand, Shows, Tells, known_of, words_had, wrong_had};
ghost use Rattle.world_script.specs.Source.{script_at};

use crate::{CommandHandler, Failure, ProgramEnd, ProgramFault, Sources, run_path, write_fault};
use clap::Error;
use clap::error::ErrorKind;
use command_line::{Asked, ServerCommand, asked_of, not_text};
use std::alloc::Global;
use std::io::{self, BufWriter, Write};

/// Does what `words` ask for, and writes out all that `lines` gathered. Words that the system could not give as text
/// are refused.
pub fn run_program<'a, S: Sources, D: CommandHandler, W: Write + Drop>(
    alloc: Global,
    words: &'a io::Result<Vec<String>>,
    sources: &S,
    handler: &mut D,
    mut lines: BufWriter<W>,
) -> (W, ProgramEnd<'a>)
    ensures ends { EndsBy (words_had words.now)
        (S.input_bytes sources.now) (S.file_bytes sources.now)
        (known_of D.ends handler.old handler.new)
        (writer_contents W.contents lines) (W.contents result.0) result.1 }
{
    let ending = run_had(alloc, words, sources, handler, &mut lines);
    finish(lines, ending)
}

/// Does what `words` ask for, and refuses words that are no text.
fn run_had<'a, S: Sources, D: CommandHandler, W: Write>(
    alloc: Global,
    words: &'a io::Result<Vec<String>>,
    sources: &S,
    handler: &mut D,
    out: &mut W,
) -> ProgramEnd<'a>
    ensures { EndsBy (words_had words.now)
        (S.input_bytes sources.now) (S.file_bytes sources.now)
        (known_of D.ends handler.old handler.new)
        (W.contents out.old) (W.contents out.new) result }
{
    match words {
        Ok(words) => run_words(alloc, words.as_slice(), sources, handler, out),
        Err(error) => refuse_words(alloc, error, out),
    }
}

/// Does what `words` ask for; the first word is the program's name. What is printed goes to `out`. The result has what
/// is to be said on standard error.
pub fn run_words<'a, S: Sources, D: CommandHandler, W: Write>(
    alloc: Global,
    words: &'a [String],
    sources: &S,
    handler: &mut D,
    out: &mut W,
) -> ProgramEnd<'a>
    ensures ends { EndsBy (Ok (map string_bytes words.now))
        (S.input_bytes sources.now) (S.file_bytes sources.now)
        (known_of D.ends handler.old handler.new)
        (W.contents out.old) (W.contents out.new) result }
{
    match asked_of(alloc, words) {
        Ok(asked) => run_asked(alloc, sources, handler, &asked, out),
        Err(error) => answer(alloc, &error, out),
    }
}

/// Runs the script or the server command that is asked for.
fn run_asked<'a, S: Sources, D: CommandHandler, W: Write>(
    alloc: Global,
    sources: &S,
    handler: &mut D,
    asked: &Asked<'a>,
    out: &mut W,
) -> ProgramEnd<'a>
    ensures { EndsAsked asked.now
        (S.input_bytes sources.now) (S.file_bytes sources.now)
        (known_of D.ends handler.old handler.new)
        (W.contents out.old) (W.contents out.new) result }
{
    match asked {
        Asked::World(words) => run_named(alloc, sources, words.script, words.limit, out),
        Asked::Serve(command) => run_command(alloc, sources, handler, command, out),
    }
}

/// Runs the script at `path`, with at most `limit` files loaded. A fault is told on `out`.
fn run_named<'a, S: Sources, W: Write>(
    alloc: Global,
    sources: &S,
    path: &'a str,
    limit: usize,
    out: &mut W,
) -> ProgramEnd<'a>
    ensures { Ends [] path.now
        (script_at (S.input_bytes sources.now) (S.file_bytes sources.now) path.now)
        limit (W.contents out.old) (W.contents out.new) result }
{
    match run_path(alloc, sources, path, limit, out) {
        Ok(()) => ProgramEnd::Ran,
        Err(error) => tell(Failure::of_run(&error, path), out),
    }
}

/// Runs `command`, and returns how the program ends after it.
fn run_command<'a, S: Sources, D: CommandHandler, W: Write>(
    alloc: Global,
    sources: &S,
    handler: &mut D,
    command: &ServerCommand<'a>,
    out: &mut W,
) -> ProgramEnd<'a>
    ensures { RunsCommand command.now (known_of D.ends handler.old handler.new)
        (W.contents out.old) (W.contents out.new) result }
{
    let ran = handler.run(alloc, sources, command, out);
    end_after(ran, out)
}

/// Returns how the program ends after a server command with the result `ran`. A fault is told on `out`.
pub fn end_after<'a, W: Write>(ran: Result<(), Failure<'a>>, out: &mut W) -> ProgramEnd<'a>
    ensures ends { EndsAfter ran.entry (W.contents out.old) (W.contents out.new) result }
{
    match ran {
        Ok(()) => ProgramEnd::Ran,
        Err(failure) => tell(failure, out),
    }
}

/// Writes the line of a fault, and returns how the program ends.
pub fn tell<'a, W: Write>(failure: Failure<'a>, out: &mut W) -> ProgramEnd<'a>
    ensures tells { Tells failure.entry (W.contents out.old) (W.contents out.new) result }
{
    match write_fault(out, failure.fault) {
        Ok(()) => ProgramEnd::Told(failure),
        Err(error) => failure.untold(error),
    }
}

/// Answers words that ask for no script and no server command: with the help, with the version, or with what is wrong.
fn answer<'a, W: Write>(alloc: Global, error: &Error, out: &mut W) -> ProgramEnd<'a>
    ensures { Answers (kind_of error.now) (W.contents out.old) (W.contents out.new) result }
{
    if error.kind() == ErrorKind::OutOfMemory {
        return tell(Failure::plain(ProgramFault::NoMemory), out);
    }
    let Ok(text) = format!(in alloc; "{error}") else {
        return tell(Failure::plain(ProgramFault::NoMemory), out);
    };
    match error.kind() {
        ErrorKind::DisplayHelp | ErrorKind::DisplayVersion => show(text, out),
        _ => ProgramEnd::Refused(text),
    }
}

/// Writes the help or the version, and returns how the program ends.
fn show<'a, W: Write>(text: String, out: &mut W) -> ProgramEnd<'a>
    ensures { Shows (string_bytes text) (W.contents out.old) (W.contents out.new) result }
{
    match out.write_all(text.as_bytes()) {
        Ok(()) => ProgramEnd::Shown(text),
        Err(error) => ProgramEnd::Untold(Failure::plain(ProgramFault::CannotWrite), error),
    }
}

/// Answers words that the system could not give as text.
fn refuse_words<'a, W: Write>(alloc: Global, error: &io::Error, out: &mut W) -> ProgramEnd<'a>
    ensures { (path : _) (known : _) (limit : _) → Ends (wrong_had (Err (error_kind error.now)))
        path known limit (W.contents out.old) (W.contents out.new) result }
{
    if error.kind() == io::ErrorKind::OutOfMemory {
        return tell(Failure::plain(ProgramFault::NoMemory), out);
    }
    match not_text(alloc) {
        Ok(refusal) => answer(alloc, &refusal, out),
        Err(_) => tell(Failure::plain(ProgramFault::NoMemory), out),
    }
}

/// Writes out what `lines` still gathers. Returns the writer below, and how the program ends.
pub fn finish<'a, W: Write + Drop>(
    lines: BufWriter<W>,
    ending: ProgramEnd<'a>,
) -> (W, ProgramEnd<'a>)
    ensures finishes { Finishes ending.entry
        (writer_contents W.contents lines) (W.contents result.0) result.1 }
{
    match lines.into_inner() {
        Ok(out) => (out, ending),
        Err(error) => {
            let (cause, lines) = error.into_parts();
            let (out, _unwritten) = lines.into_parts();
            (out, ending.unwritten(cause))
        }
    }
}
