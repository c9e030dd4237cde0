//! A line on standard error.
ghost use Rattle.std.specs.Prelude.{OnOk, Some};
ghost use Rattle.std.specs.Io.KnownBytes.{Appends};
ghost use Rattle.world_script.specs.ProgramEnd.{Complains, complaint};

use arrayvec::ArrayString;
use std::fmt::Write as _;
use std::io::{self, Write};

/// How many bytes of the system's error text are written. That text has at most 300.
const MOST: usize = 320;

/// Writes a line to `err` that names a file or a stream, and tells the system's error with it. It takes no memory, so
/// it can tell of out of memory too.
pub fn complain<E: Write>(err: &mut E, name: &str, error: &io::Error) -> io::Result<()>
    ensures { OnOk result (Complains (Some name.now) (E.contents err.old) (E.contents err.new)) }
{
    let mut cause = ArrayString::<MOST>::new();
    let _ = write!(cause, "{error}");
    write_line(err, name, cause.as_str())
}

/// Writes the line that tells `cause` of the file or stream `name`.
fn write_line<E: Write>(err: &mut E, name: &str, cause: &str) -> io::Result<()>
    ensures { OnOk result (Appends (E.contents err.old) (E.contents err.new)
        (complaint name.now cause.now)) }
{
    writeln!(err, "edend: {name}: {cause}")
}
