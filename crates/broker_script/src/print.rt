//! The lines that a broker's script prints.
ghost use Rattle.std.specs.Prelude.{OnOk};
ghost use Rattle.std.specs.Io.KnownBytes.{Appends};
ghost use Rattle.broker_script.specs.Printed.{came_lines, held_line, PrintsBegun, PrintsHeld};

use crate::awaited::Came;
use crate::line::BegunLine;
use broker_core::Broker;
use eden_base::Number;
use script_lines::{print_asked, print_numbered, print_refusal, print_reply};
use std::io::{self, Write};

/// Prints the immediate result of a line. If the line asks for the held numbers, prints those of `broker`.
pub fn print_begun<W: Write>(out: &mut W, broker: &Broker, begun: &BegunLine) -> io::Result<()>
    ensures printed { OnOk result (PrintsBegun broker.now begun.now
        (W.contents out.old) (W.contents out.new)) }
{
    match begun {
        BegunLine::Waits(_) => Ok(()),
        BegunLine::Forgot => print_asked(out, None),
        BegunLine::Refused(fault) => print_refusal(out, (*fault).into()),
        BegunLine::Tells => print_held(out, broker),
    }
}

/// Prints the line for the result of a wait. If memory was refused, there is no line.
pub fn print_came<W: Write>(out: &mut W, came: &Came) -> io::Result<()>
    ensures printed { OnOk result (Appends (W.contents out.old) (W.contents out.new)
        (came_lines came.now)) }
{
    match came {
        Came::Answered(reply) => print_reply(out, "answer", reply),
        Came::Lost(unique) => print_numbered(out, "lost", *unique),
        Came::Seat(generation) => print_numbered(out, "seat", *generation),
        Came::Idle => writeln!(out, "idle"),
        Came::Lacks => Ok(()),
    }
}

/// Prints each number that the kernel holds at `broker`, and how often, the least number first.
pub fn print_held<W: Write>(out: &mut W, broker: &Broker) -> io::Result<()>
    ensures printed { OnOk result (PrintsHeld broker.now.held
        (W.contents out.old) (W.contents out.new)) }
{
    let mut last = Number(0);
    while let Some(number) = broker.held_after(last) {
        print_count(out, broker, number)?;
        last = number;
    }
    Ok(())
}

/// Prints a number, and how often it is held.
fn print_count<W: Write>(out: &mut W, broker: &Broker, number: Number) -> io::Result<()>
    ensures { OnOk result (Appends (W.contents out.old) (W.contents out.new)
        (held_line broker.now.held number)) }
{
    let count = broker.held(number);
    let number = number.0;
    writeln!(out, "held {number} {count}")
}
