//! What the connections ask of the shared desk, and the Takes that wait.
ghost use Rattle.std.specs.Prelude.{◌≡◌, ◌||◌, false, None, is_none, position, if◌then◌else◌};
ghost use Rattle.std.specs.Option.{IfSome, option_map_or};
ghost use Rattle.broker_desk.specs.Desk.{Answers, is_post, told_by};
ghost use Rattle.frames.specs.declared.frame.Frame.TheVariants.{Take as ATake};
ghost use Rattle.broker_process.specs.Answering.{AnswersInTurn, TellsOrWaits};
ghost use Rattle.broker_process.specs.HeldTakes.{answer_of, answer_wakes, has_answer, AnswersExpired, AnswersHeld, AnswersOf, Holds, WaitsOn};
ghost use Rattle.broker_process.specs.Posting.{PostsBehind};
ghost use Rattle.broker_process.specs.SharedDesk.{wakes};

use super::mounted::Posting;
use super::{
    AcceptedConnection, BUSY_TICK, IDLE_TICK, MOMENT, SharedDesk, SharedDeskState, finds_nothing,
    is_waited_for,
};
use crate::connection_handle::ConnectionHandle;
use crate::delivery::Delivery;
use crate::held_takes::HeldTake;
use broker_desk::Response;
use links::Frame;
use std::rt::Clock;
use std::sync::Wait;
use std::thread;
use std::time::{Duration, Instant};

/// An answer to a Take that waited.
#[derive(Drop)]
pub(crate) struct TakeAnswer {
    /// Whether it is to be told before that the reply before the Take is posted.
    pub owes_posted: bool,
    pub response: Response,
}

/// What becomes of a frame of a connection.
#[derive(Drop)]
pub(crate) struct Answered {
    /// The answer to a Take that waited when the frame came.
    pub earlier: Option<TakeAnswer>,
    /// The answer to the frame. There is none yet where it is a Take that waits.
    pub response: Option<Response>,
    /// What this thread has to deliver to the kernel.
    pub delivery: Option<Delivery>,
}

/// The answer to a Take that waited, and where it goes.
#[derive(Drop)]
pub(crate) struct HeldAnswer {
    handle: ConnectionHandle,
    answer: TakeAnswer,
    wakes: bool,
}

impl SharedDeskState {
    /// Answers a frame of a connection, of which `handle` is a handle. A Take that finds nothing waits. Returns also whether the
    /// script is woken, or the thread that ends a mount.
    fn answer_frame(
        &mut self,
        accepted: &mut AcceptedConnection,
        handle: &ConnectionHandle,
        frame: &mut Frame,
    ) -> (Answered, bool)
        ensures answers { AnswersInTurn self.old accepted.old handle.now frame.old frame.new result.0 result.1 self.new }
        ensures frame { is_post frame.old ≡ false → frame.new ≡ frame.old }
    {
        let (earlier, wakes_before) = answer_of(self.answer_earlier(accepted.number));
        let (response, wakes) = self.answer(accepted, frame);
        let (response, posting) = self.hold_or_post(accepted, handle, frame, response);
        let (delivery, leaves) = posting.split();
        let answered = Answered {
            earlier,
            response,
            delivery,
        };
        (answered, is_woken(wakes_before, wakes, leaves))
    }

    /// Answers the Take of connection `number` that waits, if one does, since the connection asks for more.
    fn answer_earlier(&mut self, number: u64) -> Option<HeldAnswer>
        ensures answers { AnswersOf number self.old.desk self.old.takes.takes.items result self.new.desk
            self.new.takes.takes.items }
        ensures tick { self.new.takes.tick ≡ self.old.takes.tick }
        ensures rest { self.new ≡ record self.old { desk = self.new.desk; takes = self.new.takes } }
    {
        let take = self.takes.remove(number)?;
        let response = self.answer_take(&take);
        Some(self.held_answer(take, response))
    }

    /// Lets `frame` wait where it is a Take and `response` says that it found nothing. Else returns the response, with the reply for
    /// the kernel that was posted, if it says that one was.
    fn hold_or_post(
        &mut self,
        accepted: &mut AcceptedConnection,
        handle: &ConnectionHandle,
        frame: &Frame,
        response: Response,
    ) -> (Option<Response>, Posting)
        ensures response { TellsOrWaits response result.0 }
        ensures holds { Holds accepted.old handle.now self.old.takes.tick frame.now (is_none result.0)
            self.old.takes.takes.items self.new.takes.takes.items }
        ensures posts { PostsBehind (told_by response) self.old.writer self.old.desk self.old.kernel result.1 self.new.desk
            self.new.kernel }
        ensures owes { accepted.new ≡ (if is_none result.0 then record accepted.old { owes_posted = false } else accepted.old) }
    {
        if finds_nothing(&response) && self.hold(accepted, handle, frame) {
            return (None, Posting::Nothing);
        }
        let posting = self.post_behind(&response);
        (Some(response), posting)
    }

    /// Takes the reply for the kernel that was posted, where `response` says that one was.
    fn post_behind(&mut self, response: &Response) -> Posting
        ensures posts { PostsBehind (told_by response.now) self.old.writer self.old.desk self.old.kernel result
            self.new.desk self.new.kernel }
        ensures takes { self.new.takes ≡ self.old.takes }
    {
        match response {
            Response::Tells(Frame::Posted) => self.posting(),
            _ => Posting::Nothing,
        }
    }

    /// Lets `frame` wait, if it is a Take, where its answer goes to `handle`, behind what the connection owes. Returns whether it
    /// waits: memory may be refused.
    fn hold(
        &mut self,
        accepted: &mut AcceptedConnection,
        handle: &ConnectionHandle,
        frame: &Frame,
    ) -> bool
        ensures holds { Holds accepted.old handle.now self.old.takes.tick frame.now result self.old.takes.takes.items
            self.new.takes.takes.items }
        ensures tick { self.new.takes.tick ≡ self.old.takes.tick }
        ensures owes { accepted.new ≡ (if result then record accepted.old { owes_posted = false } else accepted.old) }
        ensures rest { self.new ≡ record self.old { takes = self.new.takes } }
    {
        let Frame::Take { generation } = frame else {
            return false;
        };
        let Ok(handle) = handle.share() else {
            return false;
        };
        let tick = self.takes.tick;
        let is_held = self.takes.hold(HeldTake {
            number: accepted.number,
            peer: accepted.peer,
            generation: *generation,
            tick,
            handle,
            owes_posted: accepted.owes_posted,
        });
        if is_held {
            accepted.owes_posted = false;
        }
        is_held
    }

    /// Answers a Take that waited, as one that comes at this moment.
    fn answer_take(&mut self, take: &HeldTake) -> Response
        ensures answers { Answers self.old.desk take.now.peer (ATake take.now.generation) result self.new.desk }
        ensures rest { self.new ≡ record self.old { desk = self.new.desk } }
    {
        let mut peer = take.peer;
        let mut frame = Frame::Take {
            generation: take.generation,
        };
        self.desk.answer(&mut peer, &mut frame)
    }

    /// Answers the first Take that waits for which there is an answer, if there is one. Where memory for the answer is
    /// refused, the Take waits on, behind the others.
    pub(super) fn answer_held(&mut self) -> Option<HeldAnswer>
        ensures answers { IfSome result (λ held. AnswersHeld self.old.desk self.old.takes.takes.items held.answer.response
            self.new.desk self.new.takes.takes.items) }
        ensures waits_on { result ≡ None → WaitsOn (position (has_answer self.old.desk.broker) self.old.takes.takes.items)
            self.old.takes.takes.items self.new.takes.takes.items }
    {
        let take = self.takes.next(self.desk.broker())?;
        let response = self.answer_take(&take);
        if finds_nothing(&response) {
            self.takes.give_back(take);
            return None;
        }
        Some(self.held_answer(take, response))
    }

    /// Answers the first Take that came before this tick, if there is one.
    fn answer_expired(&mut self) -> Option<HeldAnswer>
        ensures answers { IfSome result (λ held. AnswersExpired self.old.takes.tick self.old.desk self.old.takes.takes.items
            held.answer.response self.new.desk self.new.takes.takes.items) }
    {
        let take = self.takes.expire()?;
        let response = self.answer_take(&take);
        Some(self.held_answer(take, response))
    }

    /// Returns the answer to a Take that waited, with where it goes.
    fn held_answer(&self, take: HeldTake, response: Response) -> HeldAnswer
        ensures response { result.answer.response ≡ response }
        ensures owes { result.answer.owes_posted ≡ take.owes_posted }
        ensures handle { result.handle ≡ take.handle }
        ensures wakes { result.wakes ≡ option_map_or (wakes self.now.waiting) (told_by response) false }
    {
        let wakes = is_waited_for(self.waiting, &response);
        HeldAnswer {
            handle: take.handle,
            answer: TakeAnswer {
                owes_posted: take.owes_posted,
                response,
            },
            wakes,
        }
    }
}

/// Returns whether the script is woken, or the thread that ends a mount: by the `earlier` answer, by this frame's `own`, or since it
/// `leaves` replies.
fn is_woken(earlier: bool, own: bool, leaves: bool) -> bool
    ensures woken { result ≡ ((earlier || own) || leaves) }
{
    earlier || own || leaves
}

/// Returns the answer to a Take that waited, and whether it wakes the script; where none waited, none.
fn answer_of(held: Option<HeldAnswer>) -> (Option<TakeAnswer>, bool)
    ensures answer { result.0 ≡ answer_of held }
    ensures wakes { result.1 ≡ answer_wakes held }
{
    match held {
        Some(held) => (Some(held.answer), held.wakes),
        None => (None, false),
    }
}

impl SharedDesk {
    /// Answers a frame of a connection, of which `handle` is a handle. A Take that finds nothing waits, and is answered by
    /// another thread. A Mount is answered once the kernel agreed.
    pub(crate) fn answer<R: Wait>(
        &self,
        rt: &R,
        accepted: &mut AcceptedConnection,
        handle: &ConnectionHandle,
        frame: &mut Frame,
    ) -> Answered {
        let (answered, wakes) = self.state.lock(rt).answer_frame(accepted, handle, frame);
        self.wake_script(wakes);
        let Answered {
            earlier,
            response,
            delivery,
        } = answered;
        Answered {
            earlier,
            response: self.settle(rt, response),
            delivery,
        }
    }

    /// Returns the answer to a frame once it may be told: that a daemon mounted waits for the kernel. Where the seat changed
    /// hands, Takes that wait are answered.
    fn settle<R: Wait>(&self, rt: &R, response: Option<Response>) -> Option<Response> {
        match response {
            Some(Response::Tells(Frame::Mounted { generation })) => {
                Some(self.answer_mount(rt, generation))
            }
            Some(Response::Tells(Frame::Claimed { generation })) => {
                self.answer_held(rt);
                Some(Response::Tells(Frame::Claimed { generation }))
            }
            response => response,
        }
    }

    /// Answers each Take that waits for which there is an answer.
    pub(super) fn answer_held<R: Wait>(&self, rt: &R) {
        let answer = self.state.lock(rt).answer_held();
        self.send_held(rt, answer);
    }

    /// Sends the answer to a Take that waited, and answers the others for which there is an answer by then.
    pub(super) fn send_held<R: Wait>(&self, rt: &R, answer: Option<HeldAnswer>) {
        let mut answer = answer;
        for _ in rt.forever() {
            let Some(held) = answer else {
                return;
            };
            self.send(rt, held);
            answer = self.state.lock(rt).answer_held();
        }
        unreachable!()
    }

    /// Sends the answer to a Take that waited.
    fn send<R: Wait>(&self, rt: &R, held: HeldAnswer) {
        held.handle.answer(rt, &held.answer);
        self.wake_script(held.wakes);
    }

    /// Wakes the script, or the thread that ends a mount, if it `wakes`.
    fn wake_script(&self, wakes: bool) {
        if wakes {
            self.events.notify_one();
        }
    }

    /// Waits until a tick ends, and then answers each Take that waits. Returns whether Takes may still come.
    pub(crate) fn pass_tick<R: Wait + Clock>(&self, rt: &R) -> bool {
        thread::sleep(rt, self.tick(rt));
        let mut state = self.state.lock(rt);
        if state.is_over {
            return false;
        }
        state.takes.pass_tick();
        drop(state);
        self.send_expired(rt);
        true
    }

    /// Answers each Take that came before this tick.
    fn send_expired<R: Wait>(&self, rt: &R) {
        for _ in rt.forever() {
            let Some(held) = self.state.lock(rt).answer_expired() else {
                return;
            };
            self.send(rt, held);
        }
        unreachable!()
    }

    /// Returns how long the next tick lasts.
    fn tick<R: Wait + Clock>(&self, rt: &R) -> Duration {
        let asked = self.state.lock(rt).asked;
        let milliseconds = match ago(rt, asked) {
            Some(ago) if ago < Duration::from_millis(MOMENT) => BUSY_TICK,
            _ => IDLE_TICK,
        };
        Duration::from_millis(milliseconds)
    }
}

/// Returns how long ago the kernel asked last, if it did and the clock tells.
fn ago<R: Clock>(rt: &R, asked: Option<Instant>) -> Option<Duration> {
    asked?.elapsed(rt).ok()
}
