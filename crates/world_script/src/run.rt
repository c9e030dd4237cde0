//! The run of a script.
ghost use Rattle.std.specs.Prelude.{◌≡◌, true, IfErr, OnOk};
ghost use Rattle.std.specs.Io.KnownBytes.{Keeps};
ghost use Rattle.world_script.specs.Refusal.{IsCaused, IsRunRefusal, comes_first};
ghost use Rattle.world_script.specs.Script.{Runs, RunsEvents};
ghost use Rattle.world_script.specs.Source.{OfRead};

use crate::input::read_whole;
use crate::script::Script;
use crate::{ProgramFault, RunError};
use script_lines::print_event;
use std::alloc::Global;
use std::io::{self, Read, Write};
use world::{Event, Outcome, World};

/// Runs the script that `reader` gives, and writes a line for each event that has one, in order. It first reads the
/// whole script, and runs none of it if a line is bad. An event that is refused is no fault: its line says so. `limit`,
/// from 1 to 65,536, is how many files' attributes a daemon keeps loaded. The daemon asks its backing for the
/// attributes of other files, so the limit shows only in a `work` whose backing fails. A line is written in pieces, so
/// `writer` does well to gather them, as a `BufWriter` does. It is flushed after the last line.
pub fn run_world<R: Read, W: Write>(
    alloc: Global,
    reader: &mut R,
    limit: usize,
    writer: &mut W,
) -> Result<(), ProgramFault>
    ensures runs { OnOk result (OfRead (R.remaining reader.old) (λ script.
        Runs script limit (W.contents writer.old) (W.contents writer.new))) }
    ensures refused { IfErr result (λ fault.
        OfRead (R.remaining reader.old) (λ script. IsRunRefusal script fault)) }
    ensures unwritten { IfErr result (λ fault. comes_first fault ≡ true
        → Keeps (W.contents writer.old) (W.contents writer.new)) }
{
    match run_script(alloc, reader, limit, writer) {
        Ok(()) => Ok(()),
        Err(error) => Err(error.fault),
    }
}

/// Runs a script as `run_world` does. Returns the system's error together with the fault.
pub fn run_script<R: Read, W: Write>(
    alloc: Global,
    reader: &mut R,
    limit: usize,
    writer: &mut W,
) -> Result<(), RunError>
    ensures runs { OnOk result (OfRead (R.remaining reader.old) (λ script.
        Runs script limit (W.contents writer.old) (W.contents writer.new))) }
    ensures refused { IfErr result (λ error.
        OfRead (R.remaining reader.old) (λ script. IsRunRefusal script error.fault)) }
    ensures unwritten { IfErr result (λ error. comes_first error.fault ≡ true
        → Keeps (W.contents writer.old) (W.contents writer.new)) }
    ensures caused { IfErr result IsCaused }
{
    let bytes = read_whole(alloc, reader)?;
    let script = Script::read(alloc, bytes.as_slice());
    drop(bytes);
    let script = script?;
    let mut world = World::new(alloc, &script.manifest, limit)?;
    let played = play(&mut world, script.events.as_slice(), writer);
    drop(world);
    drop(script);
    match played {
        Ok(()) => Ok(()),
        Err(error) => Err(RunError::with_cause(ProgramFault::CannotWrite, error)),
    }
}

/// Lets all events happen, one after another, and prints each. All events write into the same outcome, since an outcome
/// that is returned is copied.
fn play<W: Write>(world: &mut World, events: &[Event], out: &mut W) -> io::Result<()>
    ensures { OnOk result (RunsEvents world.old events.now
        (W.contents out.old) (W.contents out.new)) }
{
    let mut outcome = Outcome::nothing();
    for event in events {
        world.step_into(event, &mut outcome);
        print_event(out, world, event, &outcome)?;
    }
    out.flush()
}
