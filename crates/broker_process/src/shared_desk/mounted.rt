//! What a real kernel's mount asks of the shared desk.
ghost use Rattle.std.specs.Prelude.{◌≡◌, ◌&&◌, ◌||◌, is_none, if◌then◌else◌};
ghost use Rattle.broker_desk.specs.Progress.{LeavesForDaemons};
ghost use Rattle.mount_wire.specs.Message.{IsForDaemons};
ghost use Rattle.broker_process.specs.Posting.{delivery_of, is_left, is_served, GivesBackFor, Posts};
ghost use Rattle.broker_process.specs.Serving.{IsHeard};
ghost use Rattle.broker_process.specs.declared.shared_desk.mounted.NextWrite.TheVariants.{Gone, Later, Nothing, Over};
ghost use Rattle.broker_process.specs.declared.service.MountEnd.TheVariants.{Dead, Unmounted};

use super::{Agreed, Granted, PAUSE, SharedDesk, SharedDeskState, Waiting};
use crate::delivery::{Delivery, ReplyWriter};
use crate::service::MountEnd;
use broker_core::{DeliverFault, IssueFault};
use broker_desk::{Progress, Response};
use eden_base::Number;
use links::Frame;
use monitor::Look;
use mount_wire::KernelMessage;
use std::rt::Clock;
use std::sync::Wait;
use std::thread;
use std::time::{Duration, Instant};

/// What the thread does next that ends a mount.
#[derive(Drop)]
pub(crate) enum NextWrite {
    /// It delivers a reply that its connection's thread had to leave.
    Deliver(Delivery),
    /// Nothing yet.
    Nothing,
    /// Nothing yet, since memory was refused, or as much waits as may.
    Later,
    /// Nothing any more: the mount is over.
    Over,
    /// Nothing any more: the daemon of the seat is gone, and its mount with it.
    Gone,
    /// Nothing any more: the device refuses everything.
    Refused,
}

impl NextWrite {
    /// Returns what the thread found at a look: a reply to deliver, or an end of the mount. Else it looks again after the next
    /// notification; for `Later` also after a pause.
    fn look(self) -> Look<NextWrite> {
        match self {
            NextWrite::Nothing => Look::of(None),
            NextWrite::Later => Look::Again(Duration::from_millis(PAUSE)),
            NextWrite::Deliver(_) | NextWrite::Over | NextWrite::Gone | NextWrite::Refused =>
                Look::Found(self),
        }
    }
}

/// What becomes of the replies that are posted.
#[derive(Drop)]
pub(crate) enum Posting {
    /// None waits, or none is to be written.
    Nothing,
    /// The first of them is to be written to the kernel.
    Delivers(Delivery),
    /// They wait on, since memory was refused.
    Waits,
}

impl Posting {
    /// Returns what the thread that found this delivers, and whether a reply waits for another thread.
    pub(super) fn split(self) -> (Option<Delivery>, bool)
        ensures delivery { result.0 ≡ delivery_of self }
        ensures left { result.1 ≡ is_left self }
    {
        match self {
            Posting::Delivers(delivery) => (Some(delivery), false),
            Posting::Nothing => (None, false),
            Posting::Waits => (None, true),
        }
    }
}

impl SharedDeskState {
    /// Notes that a kernel's mount begins, and returns the generation of the daemon that has the seat. Returns none if
    /// none has it.
    fn begin_mount(&mut self) -> Option<u64> {
        let seat = self.desk.broker().seat()?;
        self.kernel.clear();
        self.is_mounted = true;
        self.waiting = Waiting::Nothing;
        Some(seat.generation)
    }

    /// Takes the first posted reply for the kernel, where a mount is served.
    pub(super) fn posting(&mut self) -> Posting
        ensures posts { Posts self.old.writer self.old.desk self.old.kernel result self.new.desk self.new.kernel }
        ensures takes { self.new.takes ≡ self.old.takes }
    {
        let Some(writer) = &self.writer else {
            return Posting::Nothing;
        };
        let Ok(writer) = writer.share() else {
            return Posting::Waits;
        };
        match self.kernel.deliver(&mut self.desk) {
            Ok(delivered) => Posting::Delivers(Delivery { writer, delivered }),
            Err(DeliverFault::Empty) => Posting::Nothing,
            Err(DeliverFault::NoMemory) => Posting::Waits,
        }
    }

    /// Returns what the thread does next that ends the mount.
    fn next(&mut self) -> NextWrite {
        if self.is_refused {
            return NextWrite::Refused;
        }
        let is_forgotten = self.forget_given_back();
        match self.posting() {
            Posting::Delivers(delivery) => NextWrite::Deliver(delivery),
            Posting::Waits => NextWrite::Later,
            Posting::Nothing => self.next_of_none(is_forgotten),
        }
    }

    /// Returns whether the mount is served that `began` at this generation.
    fn serves(&self, began: u64) -> bool
        ensures serves { result ≡ is_served began self.now.writer }
    {
        match &self.writer {
            Some(writer) => writer.began == began,
            None => false,
        }
    }

    /// Has the number `given` be forgotten, or notes that it is to be, where the mount is still served that `began` at this
    /// generation: a kernel holds no number of a mount that is over. Returns whether nothing is left to do: memory for the note
    /// may be refused.
    fn give_back(&mut self, began: u64, given: Number) -> bool
        ensures gives_back { GivesBackFor (is_served began self.old.writer) given result self.old.desk self.new.desk
            self.old.given_back.items self.new.given_back.items }
        ensures takes { self.new.takes ≡ self.old.takes }
    {
        if !self.serves(began) {
            return true;
        }
        match self.desk.take_back(Some(given)) {
            Err(IssueFault::Full | IssueFault::NoMemory) => self.given_back.push(given).is_ok(),
            Ok(()) | Err(_) => true,
        }
    }

    /// Has the numbers be forgotten that are noted, as far as that can be done now. Returns whether none is left.
    fn forget_given_back(&mut self) -> bool {
        for _number in 0..self.given_back.len() {
            let Some(given) = self.given_back.pop() else {
                return true;
            };
            if let Err(IssueFault::Full | IssueFault::NoMemory) = self.desk.take_back(Some(given)) {
                self.given_back.push_reserved(given);
                return false;
            }
        }
        true
    }

    /// Notes that the device of the mount that `began` at this generation refused everything, where that is still served.
    fn note_refused(&mut self, began: u64)
        ensures refused { self.new.is_refused ≡ (is_served began self.old.writer || self.old.is_refused) }
    {
        if self.serves(began) {
            self.is_refused = true;
        }
    }

    /// Returns what the thread does next where no reply was posted, and `is_forgotten` says whether no number is to be forgotten.
    fn next_of_none(&self, is_forgotten: bool) -> NextWrite
        ensures next { result ≡ (if is_none self.now.desk.broker.seat
            then (if self.now.is_mounted then Gone else Over) else if is_forgotten then Nothing else Later) }
    {
        if self.has_dead_mount() {
            NextWrite::Gone
        } else if self.desk.broker().seat().is_none() {
            NextWrite::Over
        } else if is_forgotten {
            NextWrite::Nothing
        } else {
            NextWrite::Later
        }
    }

    /// Returns how a mount ended that the kernel let go of: dead where the daemon of the seat is gone. Else somebody
    /// unmounted, and daemons hear from now on that the mount is over.
    fn end_of_mount(&mut self) -> MountEnd
        ensures end { result ≡ (if self.old.is_mounted && is_none self.old.desk.broker.seat
            then Dead else Unmounted) }
    {
        if self.has_dead_mount() {
            return MountEnd::Dead;
        }
        self.desk.close();
        self.is_mounted = false;
        MountEnd::Unmounted
    }
}

impl SharedDesk {
    /// Waits until a daemon has the seat, notes that a kernel's mount begins, and returns the seat's generation.
    pub(crate) fn begin_mount<R: Wait>(&self, rt: &R) -> u64 {
        self.state.lock(rt).waiting = Waiting::Seat;
        self.state
            .wait_until(rt, &self.events, |state| Look::of(state.begin_mount()))
    }

    /// Notes that the kernel agreed to the mount for the seat at `generation`, so that its daemon hears of it.
    pub(crate) fn note_agreed<R: Wait>(&self, rt: &R, generation: u64) {
        self.state.change(rt, &self.grants, |state| {
            state.agreed = Agreed::To(generation);
        });
    }

    /// Answers the Mount of a daemon that has the seat at `generation` once the kernel agreed. Where no mount is made, the
    /// connection is closed.
    pub(super) fn answer_mount<R: Wait>(&self, rt: &R, generation: u64) -> Response {
        self.state.wait_until(rt, &self.grants, |state| {
            Look::of(match state.granted(generation) {
                Granted::Now => Some(Response::Tells(Frame::Mounted { generation })),
                Granted::Never => Some(Response::Closes),
                Granted::Later => None,
            })
        })
    }

    /// Notes that the kernel's mount has ended, so that the next daemon may mount.
    pub(crate) fn end_mount<R: Wait>(&self, rt: &R) {
        let mut state = self.state.lock(rt);
        state.is_mounted = false;
        state.kernel.clear();
        state.given_back.clear();
    }

    /// Returns how a mount ended that the kernel let go of. Where somebody unmounted, daemons hear from now on that the
    /// mount is over.
    pub(crate) fn end_of_mount<R: Wait>(&self, rt: &R) -> MountEnd {
        let end = self.state.lock(rt).end_of_mount();
        self.note_changed(rt);
        end
    }

    /// Hears a `message` of the kernel at the desk, as far as it can be heard now.
    pub(crate) fn hear_kernel<'a, R: Wait + Clock>(
        &self,
        rt: &R,
        message: KernelMessage<'a>,
    ) -> Progress<'a>
        requires for_daemons { IsForDaemons message }
        ensures heard { IsHeard message.entry result }
        ensures for_daemons { LeavesForDaemons result }
    {
        let now = Instant::now(rt).ok();
        let is_ask = matches!(message, KernelMessage::Asked(_));
        let mut state = self.state.lock(rt);
        let SharedDeskState { desk, kernel, .. } = &mut *state;
        kernel.let_go(desk);
        let progress = kernel.hear(desk, message);
        if is_ask {
            state.asked = now;
        }
        let answer = state.answer_held();
        drop(state);
        self.send_held(rt, answer);
        progress
    }

    /// Has the number be forgotten at once that a reply has `given` out, since the kernel did not take the reply. Where that is
    /// refused for now, the thread that ends the mount does it as soon as it can be done. Nothing is done where the mount that
    /// `began` at this generation is over.
    pub(crate) fn give_back<R: Wait + Clock>(&self, rt: &R, began: u64, given: Number) {
        for _ in rt.forever() {
            let is_noted = self
                .state
                .change(rt, &self.events, |state| state.give_back(began, given));
            if is_noted {
                return self.answer_held(rt);
            }
            thread::sleep(rt, Duration::from_millis(PAUSE));
        }
        unreachable!()
    }

    /// Notes that the device refused everything, so that the mount ends that `began` at this generation.
    pub(crate) fn note_refused<R: Wait>(&self, rt: &R, began: u64) {
        self.state
            .change(rt, &self.events, |state| state.note_refused(began));
    }

    /// Notes where replies are written from now on: a kernel's mount is served.
    pub(crate) fn begin_service<R: Wait>(&self, rt: &R, writer: ReplyWriter) {
        let mut state = self.state.lock(rt);
        state.writer = Some(writer);
        state.is_refused = false;
    }

    /// Notes that no reply is written any more.
    pub(crate) fn end_service<R: Wait>(&self, rt: &R) {
        let mut state = self.state.lock(rt);
        let writer = state.writer.take();
        drop(state);
        drop(writer);
    }

    /// Waits until something is to be written to the kernel, and returns it.
    pub(crate) fn next<R: Wait + Clock>(&self, rt: &R) -> NextWrite {
        self.state
            .wait_until(rt, &self.events, |state| state.next().look())
    }
}
