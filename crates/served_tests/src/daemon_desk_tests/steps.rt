//! Steps at three desks, with their expected outcomes. A step that was refused memory is made once more.
use super::lookups::{CHECKOUT, are_found, is_long_put};
use crate::again::manifest_of;
use daemon::Lease;
use daemon_desk::{Claiming, DaemonDesk, FrameList, Hearing, Mounting};
use frames::Frame;
use manifest::Manifest;
use std::alloc::Global;
use takeover_core::{Message, Versions};

/// A frame that a desk is sent.
#[derive(Clone, Copy)]
pub enum Says {
    /// An offer of this version alone.
    Offer(u16),
    Choice(u32, u16),
    NoCommon,
    Busy,
    Ready(u32, u64),
    Pong(u32),
    Failed(u32),
    Mounted(u64),
    Seated,
    LastGeneration,
    Ended,
    Claimed(u64),
    Stale(u64),
    Unanswered(u64),
    Empty,
    Take(u64),
}

/// What a desk says, or makes of a frame.
#[derive(Clone, Copy, PartialEq, Eq)]
pub enum DeskReaction {
    Choice(u32, u16),
    NoCommon,
    Busy,
    Ready(u32, u64),
    Pong(u32),
    Data(u32, u64),
    /// A part of this session, at this generation and position, and the count of parts.
    Part(u32, u64, u32, u32),
    Failed(u32),
    Nothing,
    Accepts,
    Ignores,
    Closes,
    /// An answer that no step expects.
    Other,
}

/// A step with its outcome. A `usize` is the index of the desk that does the step.
#[derive(Clone, Copy)]
pub enum Step {
    /// The desk makes the state that it is to serve.
    Prepares(usize),
    /// The broker answers the desk's Mount with this frame.
    Mounts(usize, Says, Mounting),
    /// The desk offers, and the offer becomes the last frame.
    Offers(usize),
    /// The desk hears the last frame.
    Hears(usize, DeskReaction),
    /// The next frame of the same answer becomes the last frame.
    Next(DeskReaction),
    /// The desk hears this frame.
    Sent(usize, Says, DeskReaction),
    /// The generation at which workers of the desk may take, or none.
    Serves(usize, Option<u64>),
    /// The desk lends its state to workers, or has none to lend.
    Lends(usize, bool),
    /// The desk gets the lease back.
    Returns(usize),
    /// The desk lends its state, a LOOKUP of `src` gives this number, and the desk gets the lease back.
    LooksUp(usize, u64),
    /// The desk lends its state, lookups of the long names give numbers from this one on, and the desk gets the lease
    /// back.
    LooksUpEach(usize, u64),
    /// The desk says whether it is ready to hand over.
    Readies(usize, DeskReaction),
    /// The desk gives up.
    GivesUp(usize, DeskReaction),
    /// The desk wants to claim the seat from this generation, or wants no claim.
    Wants(usize, Option<u64>),
    /// The broker answers the desk's Claim with this frame.
    Claims(usize, Says, Claiming),
}

/// What stands between the desks: the last frame, the later frames of the same answer, and the lease.
#[derive(Drop)]
struct Between {
    alloc: Global,
    last: Option<Frame>,
    behind: Option<FrameList>,
    lease: Option<Lease>,
}

/// Makes the frame of `says`.
fn frame_of(says: Says) -> Frame {
    match says {
        Says::Offer(version) => Frame::Takeover(Message::Offer(Versions::of(&[version]))),
        Says::Choice(session, version) => Frame::Takeover(Message::Choice { session, version }),
        Says::NoCommon => Frame::Takeover(Message::NoCommon),
        Says::Busy => Frame::Takeover(Message::Busy),
        Says::Ready(session, generation) => Frame::Takeover(Message::Ready {
            session,
            generation,
        }),
        Says::Pong(session) => Frame::Takeover(Message::Pong { session }),
        Says::Failed(session) => Frame::Takeover(Message::Failed { session }),
        Says::Mounted(generation) => Frame::Mounted { generation },
        Says::Seated => Frame::Seated,
        Says::LastGeneration => Frame::LastGeneration,
        Says::Ended => Frame::Ended,
        Says::Claimed(generation) => Frame::Claimed { generation },
        Says::Stale(now) => Frame::Stale { now },
        Says::Unanswered(asks) => Frame::Unanswered { asks },
        Says::Empty => Frame::Empty,
        Says::Take(generation) => Frame::Take { generation },
    }
}

/// Returns what `frame` says.
fn reaction_of(frame: &Frame) -> DeskReaction {
    let Frame::Takeover(message) = frame else {
        return DeskReaction::Other;
    };
    match message {
        Message::Offer(_) => DeskReaction::Other,
        Message::Choice { session, version } => DeskReaction::Choice(*session, *version),
        Message::NoCommon => DeskReaction::NoCommon,
        Message::Busy => DeskReaction::Busy,
        Message::Ready {
            session,
            generation,
        } => DeskReaction::Ready(*session, *generation),
        Message::Pong { session } => DeskReaction::Pong(*session),
        Message::Data {
            session,
            generation,
            ..
        } => DeskReaction::Data(*session, *generation),
        Message::Part {
            session,
            generation,
            position,
            count,
            ..
        } => DeskReaction::Part(*session, *generation, *position, *count),
        Message::Failed { session } => DeskReaction::Failed(*session),
    }
}

/// Lets `desk` hear `frame`, and once more if memory was refused.
fn heard(desk: &mut DaemonDesk, frame: &Frame) -> Hearing {
    match desk.hear(frame) {
        Hearing::NoMemory => desk.hear(frame),
        hearing => hearing,
    }
}

/// Returns the index of the desk that does `step`. No desk does `Next`.
fn place_of(step: Step) -> usize {
    match step {
        Step::Prepares(at) | Step::Offers(at) | Step::Returns(at) => at,
        Step::Mounts(at, ..) | Step::Hears(at, _) | Step::Sent(at, ..) | Step::Serves(at, _) => at,
        Step::Lends(at, _) | Step::LooksUp(at, _) | Step::LooksUpEach(at, _) => at,
        Step::Readies(at, _) | Step::GivesUp(at, _) | Step::Wants(at, _) => at,
        Step::Claims(at, ..) => at,
        Step::Next(_) => 0,
    }
}

/// Keeps `reaction` as the `last` frame, if it is a frame. Returns what that frame says, or `Nothing`.
fn keep(last: &mut Option<Frame>, reaction: Option<Frame>) -> DeskReaction {
    let Some(frame) = reaction else {
        return DeskReaction::Nothing;
    };
    let said = reaction_of(&frame);
    drop(last.replace(frame));
    said
}

impl Between {
    /// Keeps the first of `frames` as the last frame, and the others for `next`. Returns what the first one says.
    fn keep_frames(&mut self, frames: FrameList) -> DeskReaction {
        let mut frames = frames;
        let first = frames.next();
        drop(self.behind.replace(frames));
        keep(&mut self.last, first)
    }

    /// Returns what a desk says by `hearing`. Frames are kept by `keep_frames`.
    fn keep_heard(&mut self, hearing: Hearing) -> DeskReaction {
        match hearing {
            Hearing::Tells(frames) => self.keep_frames(frames),
            Hearing::Accepts => DeskReaction::Accepts,
            Hearing::Ignores => DeskReaction::Ignores,
            Hearing::Closes => DeskReaction::Closes,
            Hearing::NoMemory => DeskReaction::Other,
        }
    }

    /// Lets `desk` hear the last frame, and returns what the desk says.
    fn hears(&mut self, desk: &mut DaemonDesk) -> DeskReaction {
        let Some(frame) = &self.last else {
            return DeskReaction::Other;
        };
        let hearing = heard(desk, frame);
        self.keep_heard(hearing)
    }

    /// Makes the next frame of the same answer the last frame, and returns what that frame says.
    fn next(&mut self) -> DeskReaction {
        let Some(frames) = &mut self.behind else {
            return DeskReaction::Other;
        };
        let frame = frames.next();
        keep(&mut self.last, frame)
    }

    /// Lets `desk` hear the frame of `says`, and returns what the desk says.
    fn is_sent(&mut self, desk: &mut DaemonDesk, says: Says) -> DeskReaction {
        let frame = frame_of(says);
        let hearing = heard(desk, &frame);
        drop(frame);
        self.keep_heard(hearing)
    }

    /// Lets `desk` do `step`, and returns whether the outcome is the expected one.
    fn goes_so(&mut self, desk: &mut DaemonDesk, step: Step) -> bool {
        match step {
            Step::Offers(_) => offers(desk, &mut self.last),
            Step::Hears(_, reaction) => self.hears(desk) == reaction,
            Step::Next(reaction) => self.next() == reaction,
            Step::Sent(_, says, reaction) => self.is_sent(desk, says) == reaction,
            Step::Lends(_, has_state) => lends(desk, &mut self.lease) == has_state,
            Step::Returns(_) => returns(desk, &mut self.lease),
            Step::Readies(_, reaction) => keep(&mut self.last, desk.drained()) == reaction,
            Step::GivesUp(_, reaction) => keep(&mut self.last, desk.give_up()) == reaction,
            _ => desk_goes_so(self.alloc, desk, step),
        }
    }
}

/// Lets `desk` do `step`, of which nothing stays between the desks. Returns whether the outcome is the expected one.
fn desk_goes_so(alloc: Global, desk: &mut DaemonDesk, step: Step) -> bool {
    match step {
        Step::Prepares(_) => is_prepared(desk),
        Step::Mounts(_, says, mounting) => mounting_of(desk, says) == mounting,
        Step::Serves(_, generation) => desk.serving() == generation,
        Step::LooksUp(_, number) => looks_up(alloc, desk, number, false),
        Step::LooksUpEach(_, first) => looks_up(alloc, desk, first, true),
        Step::Wants(_, generation) => wanted_by(desk) == generation,
        Step::Claims(_, says, claiming) => claiming_of(desk, says) == claiming,
        _ => false,
    }
}

/// Keeps the offer of `desk` as the `last` frame.
fn offers(desk: &DaemonDesk, last: &mut Option<Frame>) -> bool {
    drop(last.replace(desk.offer()));
    true
}

/// Lets `desk` lend its state, and keeps the `lease`. Returns whether the desk had a state to lend.
fn lends(desk: &mut DaemonDesk, lease: &mut Option<Lease>) -> bool {
    let Some(lent) = desk.lend() else {
        return false;
    };
    drop(lease.replace(lent));
    true
}

/// Gives the `lease` to `desk`, and returns whether there was a lease.
fn returns(desk: &mut DaemonDesk, lease: &mut Option<Lease>) -> bool {
    let Some(lent) = lease.take() else {
        return false;
    };
    desk.take_back(lent);
    true
}

/// Lets `desk` lend its state for lookups. Returns whether `src` has the number `first`, or, with `is_each`, the numbers
/// of the long names follow one another from `first` on.
fn looks_up(alloc: Global, desk: &mut DaemonDesk, first: u64, is_each: bool) -> bool {
    let Some(mut lease) = desk.lend() else {
        return false;
    };
    let so = are_found(alloc, &mut lease, first, is_each);
    desk.take_back(lease);
    so
}

/// Prepares `desk`, and once more if memory was refused. Returns whether that succeeded.
fn is_prepared(desk: &mut DaemonDesk) -> bool {
    desk.prepare().is_ok() || desk.prepare().is_ok()
}

/// Lets the broker answer the Mount of `desk` with the frame of `says`, and returns the result.
fn mounting_of(desk: &mut DaemonDesk, says: Says) -> Mounting {
    let frame = frame_of(says);
    let mounting = desk.take_mount(&frame);
    drop(frame);
    mounting
}

/// Lets the broker answer the Claim of `desk` with the frame of `says`, and returns the result.
fn claiming_of(desk: &mut DaemonDesk, says: Says) -> Claiming {
    let frame = frame_of(says);
    let claiming = desk.take_claim(&frame);
    drop(frame);
    claiming
}

/// Returns the generation from which `desk` wants to claim the seat, or none.
fn wanted_by(desk: &DaemonDesk) -> Option<u64> {
    let frame = desk.claim()?;
    let wanted = match &frame {
        Frame::Claim { generation } => Some(*generation),
        _ => None,
    };
    drop(frame);
    wanted
}

/// Opens a desk over `manifest`, with these `versions`. Returns whether memory sufficed.
fn is_opened(
    alloc: Global,
    desks: &mut Vec<DaemonDesk>,
    manifest: &Manifest,
    versions: &Versions,
) -> bool {
    let Ok(shared) = manifest.share() else {
        return false;
    };
    let desk = DaemonDesk::new(alloc, shared, 8, versions.copy());
    desks.push(desk).is_ok()
}

/// Opens three desks over `manifest`, each once more if memory was refused. Returns whether memory sufficed.
fn are_opened(
    alloc: Global,
    desks: &mut Vec<DaemonDesk>,
    manifest: &Manifest,
    versions: &Versions,
) -> bool {
    let mut so = true;
    for _desk in 0..3u8 {
        so = so
            && (is_opened(alloc, desks, manifest, versions)
                || is_opened(alloc, desks, manifest, versions));
    }
    so
}

/// Makes `step` at its desk, and returns whether the outcome is the expected one.
fn goes_there(desks: &mut Vec<DaemonDesk>, between: &mut Between, step: Step) -> bool {
    match desks.get_mut(place_of(step)) {
        Some(desk) => between.goes_so(desk, step),
        None => false,
    }
}

/// Makes `steps` at the `desks` and then `endings`, up to the first whose outcome is not the expected one. Returns
/// whether there is none.
fn each_goes_so(
    alloc: Global,
    desks: &mut Vec<DaemonDesk>,
    steps: &[Step],
    endings: &[Step],
) -> bool {
    let mut between = Between {
        alloc,
        last: None,
        behind: None,
        lease: None,
    };
    let mut so = true;
    for step in steps {
        so = so && goes_there(desks, &mut between, *step);
    }
    for step in endings {
        so = so && goes_there(desks, &mut between, *step);
    }
    drop(between);
    so
}

/// Opens three desks over `manifest`, and calls `each_goes_so` with them.
fn all_go_over(
    alloc: Global,
    manifest: &Manifest,
    versions: &Versions,
    steps: &[Step],
    endings: &[Step],
) -> bool {
    let mut desks = Vec::new(alloc);
    let so = are_opened(alloc, &mut desks, manifest, versions)
        && each_goes_so(alloc, &mut desks, steps, endings);
    drop(desks);
    so
}

/// Calls `all_go_over` with the manifest in `checkout`.
fn all_go(
    alloc: Global,
    checkout: &[u8],
    versions: &Versions,
    steps: &[Step],
    endings: &[Step],
) -> bool {
    match manifest_of(alloc, checkout) {
        Ok(manifest) => {
            let so = all_go_over(alloc, &manifest, versions, steps, endings);
            drop(manifest);
            so
        }
        Err(_) => false,
    }
}

/// Calls `all_go` with version 1, and a manifest of one directory.
pub fn all_go_so(alloc: Global, steps: &[Step], endings: &[Step]) -> bool {
    all_go(alloc, CHECKOUT, &Versions::of(&[1]), steps, endings)
}

/// Calls `all_go` with versions 1 and 2. The image of its manifest has two parts once the long names are looked up.
pub fn all_go_so_in_parts(alloc: Global, steps: &[Step], endings: &[Step]) -> bool {
    let mut checkout = Vec::new(alloc);
    let so = is_long_put(&mut checkout)
        && all_go(
            alloc,
            checkout.as_slice(),
            &Versions::of(&[1, 2]),
            steps,
            endings,
        );
    drop(checkout);
    so
}
