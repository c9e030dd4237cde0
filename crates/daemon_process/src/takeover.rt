//! A new daemon's part in a takeover.
use crate::cause::{
    AwaitedMessage, TakeoverFault, awaited_in, cause_by, cause_of_claim, exit_of, loss_by, report,
};
use crate::context::DaemonContext;
use crate::exit::Exit;
use crate::sent_frames::send_all;
use daemon_desk::Hearing;
use links::{Frame, FrameFault};
use sockets::{Connection, Deadline};
use std::rt::Clock;
use std::sync::Wait;
use std::time::Duration;
use takeover_core::Phase;

/// The data may take this many times the patience.
const LONGER: u32 = 10;

/// Why a new daemon did not get the data.
#[derive(Clone, Copy)]
enum Lack {
    /// The daemon is to end.
    Exits(Exit),
    /// The takeover failed.
    Fails(TakeoverFault),
}

impl From<Exit> for Lack {
    fn from(exit: Exit) -> Lack {
        Lack::Exits(exit)
    }
}

impl From<TakeoverFault> for Lack {
    fn from(cause: TakeoverFault) -> Lack {
        Lack::Fails(cause)
    }
}

/// What a new daemon notes of the other one's frames.
#[derive(Clone, Copy)]
struct Progress {
    /// Whether this daemon said Pong, and so awaits the data.
    is_ponged: bool,
    /// Whether the data began with the name of another manifest.
    is_another: bool,
}

/// The state of a new daemon after a frame of the other one.
#[derive(Clone, Copy)]
enum Step {
    /// It waits for the next frame.
    Waits,
    /// It said that it is still there, and waits for the data.
    Ponged,
    /// It holds what was handed over.
    Holds,
}

impl<R: Wait + Clock> DaemonContext<'_, R> {
    /// Takes over from the daemon at the other end of `old`, and claims the seat, unless standard input ended before
    /// that. Where the takeover fails the cause is said on standard error.
    pub(crate) fn take_over(
        &self,
        broker: &mut Connection<'_, R>,
        old: &mut Connection<'_, R>,
        patience: Duration,
    ) -> Result<(), Exit> {
        if let Err(lack) = self.get_data(old, patience) {
            if let Some(last) = self.shared.give_up(self.rt) {
                let _written = old.write(&last);
            }
            return Err(self.exit_by(lack));
        }
        self.shared.wait_at(self.rt, None)?;
        match cause_of_claim(self.claim(broker)) {
            Some(cause) => Err(self.fail(cause)),
            None => Ok(()),
        }
    }

    /// Returns how a new daemon ends that did not get the data. A cause is said.
    fn exit_by(&self, lack: Lack) -> Exit {
        match lack {
            Lack::Exits(exit) => exit,
            Lack::Fails(cause) => self.fail(cause),
        }
    }

    /// Says why a new daemon's takeover failed, and returns how it ends by that. The end of the mount is no failure.
    fn fail(&self, cause: TakeoverFault) -> Exit {
        let exit = exit_of(cause);
        if let Exit::Faulty(_) = exit {
            report(self.rt, self.shared.notes(), cause);
        }
        exit
    }

    /// Offers the daemon's versions, and answers the other daemon's frames until its data is restored.
    fn get_data(&self, old: &mut Connection<'_, R>, patience: Duration) -> Result<(), Lack> {
        self.shared.wait_at(self.rt, old.handle().ok())?;
        old.end_by(Deadline::after(self.rt, patience));
        if let Err(fault) = old.write(&self.shared.offer(self.rt)) {
            return Err(Lack::Fails(unwritten(fault, AwaitedMessage::Choice)));
        }
        let mut progress = Progress {
            is_ponged: false,
            is_another: false,
        };
        for _ in self.rt.forever() {
            let frame = self.next_frame(old, progress.is_ponged)?;
            let step = self.hear(old, &frame, &mut progress)?;
            match step {
                Step::Holds => return Ok(()),
                Step::Ponged => {
                    old.end_by(Deadline::after(self.rt, patience.saturating_mul(LONGER)));
                }
                Step::Waits => {}
            }
        }
        unreachable!()
    }

    /// Reads the other daemon's next frame. Where none comes, returns why not, with what was awaited: in the phase `Chosen` the
    /// data if `is_ponged`, else Ready.
    fn next_frame(
        &self,
        old: &mut Connection<'_, R>,
        is_ponged: bool,
    ) -> Result<Frame, TakeoverFault> {
        let fault = match old.read_next() {
            Ok(Some(frame)) => return Ok(frame),
            Ok(None) => None,
            Err(fault) => Some(fault),
        };
        let awaited = awaited_in(is_ponged, self.shared.phase(self.rt));
        Err(loss_by(fault, old.is_late(), awaited))
    }

    /// Hears a frame of the other daemon, and sends the answer.
    fn hear(
        &self,
        old: &mut Connection<'_, R>,
        frame: &Frame,
        progress: &mut Progress,
    ) -> Result<Step, TakeoverFault> {
        let (rt, shared) = (self.rt, self.shared);
        let mut step = Step::Waits;
        if shared.is_of_another_manifest(rt, frame) {
            progress.is_another = true;
        }
        match shared.hear(rt, frame) {
            Hearing::Tells(answers) => {
                step = Step::Ponged;
                progress.is_ponged = true;
                if !send_all(old, answers) && !matches!(shared.phase(rt), Phase::Gone) {
                    return Err(TakeoverFault::Unsent(AwaitedMessage::Data));
                }
            }
            Hearing::Accepts | Hearing::Ignores => {}
            Hearing::Closes => {
                let awaited = awaited_in(progress.is_ponged, shared.phase(rt));
                return Err(TakeoverFault::Unreadable(awaited));
            }
            Hearing::NoMemory => return Err(TakeoverFault::NoMemory),
        }
        match shared.phase(rt) {
            Phase::Holding { .. } => Ok(Step::Holds),
            Phase::Gone => Err(cause_by(progress.is_another, frame)),
            _ => Ok(step),
        }
    }
}

/// Returns why the takeover failed where a frame could not be written.
fn unwritten(fault: FrameFault, awaited: AwaitedMessage) -> TakeoverFault {
    match fault {
        FrameFault::NoMemory => TakeoverFault::NoMemory,
        _ => TakeoverFault::Unsent(awaited),
    }
}
