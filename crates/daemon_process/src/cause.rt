//! Why a takeover failed, as each of its two daemons reports it on standard error.
ghost use Rattle.std.specs.Prelude.{◌≡◌};
ghost use Rattle.daemon_process.specs.Causes.{awaited_in, cause_by, cause_of_claim, exit_of, failed_by, is_under_way, loss_by};

use crate::exit::Exit;
use crate::fault::DaemonFault;
use daemon_desk::Claiming;
use links::{Frame, FrameFault};
use non_blocking::Notes;
use std::sync::Wait;
use takeover_core::{Message, Phase};
use thiserror::Error;

/// The message that a daemon awaited of the other one when a takeover failed.
#[derive(Clone, Copy, Debug, PartialEq, Eq, Error)]
pub(crate) enum AwaitedMessage {
    #[error("Choice")]
    Choice,
    #[error("Ready")]
    Ready,
    #[error("Data")]
    Data,
    /// The part at this position, of this count.
    #[error("Part {0} of {1}")]
    Part(u32, u32),
    #[error("Pong")]
    Pong,
    /// The end of the connection, which comes once the new daemon has the seat.
    #[error("its claim of the seat")]
    Claim,
    #[error("no frame")]
    Nothing,
}

/// Why a takeover failed.
#[derive(Clone, Copy, Debug, PartialEq, Eq, Error)]
pub(crate) enum TakeoverFault {
    #[error("the other daemon was silent; awaited was {0}")]
    Silent(AwaitedMessage),
    #[error("the other daemon closed the connection; awaited was {0}")]
    Closed(AwaitedMessage),
    #[error("the other daemon can't be written to; awaited was {0}")]
    Unsent(AwaitedMessage),
    #[error("the other daemon said what no daemon says; awaited was {0}")]
    Unreadable(AwaitedMessage),
    #[error("the other daemon gave up")]
    GivenUp,
    #[error("the daemons have no version of the image in common")]
    NoCommon,
    #[error("the other daemon takes no offer at present")]
    Busy,
    /// Replies wait for the bytes of files, and did so for longer than the patience.
    #[error("reads of files took too long")]
    SlowReads,
    #[error("out of memory")]
    NoMemory,
    #[error("another manifest")]
    OtherManifest,
    #[error("the image can't be restored")]
    BadImage,
    #[error("no image can be made in the chosen version")]
    NoImage,
    #[error("a stale claim: the seat was claimed again before")]
    StaleClaim,
    #[error("the seat was given as often as it may be")]
    LastGeneration,
    #[error("the broker didn't answer the claim")]
    NoAnswer,
    #[error("the mount is over")]
    Ended,
}

/// Reports that a takeover failed, and why.
pub(crate) fn report<R: Wait>(rt: &R, notes: &Notes, cause: TakeoverFault) {
    notes.say(rt, format_args!("takeover failed: {cause}"));
}

/// Returns what a daemon in this phase awaits of the other one. A new daemon awaits data once it said Pong.
pub(crate) fn awaited_in(is_ponged: bool, phase: Phase) -> AwaitedMessage
    ensures awaited { result ≡ awaited_in is_ponged phase }
{
    match phase {
        Phase::Waiting => AwaitedMessage::Choice,
        Phase::Chosen { .. } if is_ponged => AwaitedMessage::Data,
        Phase::Chosen { .. } => AwaitedMessage::Ready,
        Phase::Reading {
            position,
            count,
            ..
        } => AwaitedMessage::Part(position, count),
        Phase::Pinged { .. } => AwaitedMessage::Pong,
        Phase::Handed { .. } => AwaitedMessage::Claim,
        _ => AwaitedMessage::Nothing,
    }
}

/// Returns the cause where no frame of the other daemon was read: by the fault, or by none where the connection was
/// closed, by whether the time for a frame had passed, and by what was awaited.
pub(crate) fn loss_by(
    fault: Option<FrameFault>,
    is_late: bool,
    awaited: AwaitedMessage,
) -> TakeoverFault
    ensures loss { result ≡ loss_by fault is_late awaited }
{
    match fault {
        None | Some(FrameFault::Torn) => TakeoverFault::Closed(awaited),
        Some(FrameFault::Read) if is_late => TakeoverFault::Silent(awaited),
        Some(FrameFault::Read) => TakeoverFault::Closed(awaited),
        Some(FrameFault::NoMemory) => TakeoverFault::NoMemory,
        Some(_) => TakeoverFault::Unreadable(awaited),
    }
}

/// Returns why a new daemon is gone by `frame` of the other one: the data came with another manifest if `is_another`.
pub(crate) fn cause_by(is_another: bool, frame: &Frame) -> TakeoverFault
    ensures cause { result ≡ cause_by is_another frame.now }
{
    match frame {
        Frame::Takeover(Message::NoCommon) => TakeoverFault::NoCommon,
        Frame::Takeover(Message::Busy) => TakeoverFault::Busy,
        Frame::Takeover(Message::Failed { .. }) => TakeoverFault::GivenUp,
        _ if is_another => TakeoverFault::OtherManifest,
        _ => TakeoverFault::BadImage,
    }
}

/// Returns why a new daemon has no seat, by the answer to its claim; none if it has the seat.
pub(crate) fn cause_of_claim(claiming: Claiming) -> Option<TakeoverFault>
    ensures cause { result ≡ cause_of_claim claiming }
{
    match claiming {
        Claiming::Serves(_) => None,
        Claiming::Ended => Some(TakeoverFault::Ended),
        Claiming::Stale => Some(TakeoverFault::StaleClaim),
        Claiming::LastGeneration => Some(TakeoverFault::LastGeneration),
        Claiming::Waits | Claiming::Broken => Some(TakeoverFault::NoAnswer),
    }
}

/// Returns how a new daemon ends whose takeover failed for `cause`.
pub(crate) fn exit_of(cause: TakeoverFault) -> Exit
    ensures exit { result ≡ exit_of cause }
{
    match cause {
        TakeoverFault::NoCommon | TakeoverFault::Busy => Exit::Faulty(DaemonFault::OfferRefused),
        TakeoverFault::Ended => Exit::Ended,
        _ => Exit::Faulty(DaemonFault::TakeoverFailed),
    }
}

/// Returns whether a serving daemon in this phase has a takeover under way.
pub(crate) fn is_under_way(phase: Phase) -> bool
    ensures under_way { result ≡ is_under_way phase }
{
    matches!(
        phase,
        Phase::Draining { .. } | Phase::Pinged { .. } | Phase::Making { .. } | Phase::Handed { .. }
    )
}

/// Returns why a serving daemon's takeover was over by `frame` of the other one, by the phase before it and the one
/// behind it; none if none was over by that.
pub(crate) fn failed_by(before: Phase, frame: &Frame, after: Phase) -> Option<TakeoverFault>
    ensures failed { result ≡ failed_by before frame.now after }
{
    if !is_under_way(before) || is_under_way(after) {
        return None;
    }
    match frame {
        Frame::Takeover(Message::Failed { .. }) => Some(TakeoverFault::GivenUp),
        _ => Some(TakeoverFault::NoImage),
    }
}
