//! A script that plays the kernel.
ghost use Rattle.std.specs.Prelude.{All, OnOk};
ghost use Rattle.broker_process.specs.Playing.{PlaysLine, PlaysScript};
ghost use Rattle.script_lines.specs.BrokerLine.{IsSendableLine};

use crate::shared_desk::SharedDesk;
use broker_script::{BegunLine, BrokerLine, print_came};
use std::io::{self, Write};
use std::rt::Clock;
use std::sync::Wait;

/// Does what `script` says, and writes out at once each line that it prints. At the end it waits until every daemon but
/// the holder of the seat left, tells daemons that the mount is over, and waits until each daemon left.
pub(crate) fn play<R: Wait + Clock, W: Write>(
    rt: &R,
    shared: &SharedDesk,
    script: &[BrokerLine],
    out: &mut W,
) -> io::Result<()>
    requires sendable { All IsSendableLine script.now }
    ensures plays { OnOk result (PlaysScript script.now (W.contents out.old) (W.contents out.new)) }
{
    for line in script {
        play_line(rt, shared, line, out)?;
        out.flush()?;
    }
    shared.wait_for_others(rt);
    out.write_all(b"ended\n")?;
    out.flush()?;
    shared.close(rt);
    shared.wait_for_all(rt);
    Ok(())
}

/// Does what a line says, and prints the result.
fn play_line<R: Wait + Clock, W: Write>(
    rt: &R,
    shared: &SharedDesk,
    line: &BrokerLine,
    out: &mut W,
) -> io::Result<()>
    requires sendable { IsSendableLine line.now }
    ensures plays { OnOk result (PlaysLine line.now (W.contents out.old) (W.contents out.new)) }
{
    let begun = shared.begin(rt, line);
    shared.print_begun(rt, out, &begun)?;
    match begun {
        BegunLine::Waits(awaited) => print_came(out, &shared.wait_for(rt, &awaited)),
        BegunLine::Forgot | BegunLine::Refused(_) | BegunLine::Tells => Ok(()),
    }
}
