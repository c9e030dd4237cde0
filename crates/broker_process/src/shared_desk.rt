//! What the connections of a broker share with who plays the kernel.
ghost use Rattle.std.specs.Prelude.{◌≡◌, ◌↔◌, ◌&&◌, false, is_none, IsTrue, OnOk};
ghost use Rattle.std.specs.Option.{option_map_or};
ghost use Rattle.broker_core.specs.Broker.{BrokerState};
ghost use Rattle.broker_desk.specs.Desk.{is_post, told_by};
ghost use Rattle.broker_process.specs.Answering.{is_kept_out, is_turned_away, may_attach, with_peer, AnswersFrame};
ghost use Rattle.broker_process.specs.Connections.{has_not_attached};
ghost use Rattle.broker_process.specs.SharedDesk.{granted_by, is_empty, waiting_for, wakes};
ghost use Rattle.broker_process.specs.Playing.{Began, HasCome};
ghost use Rattle.monitor.specs.Wait.{IfFound};
ghost use Rattle.broker_script.specs.Beginning.{Begins};
ghost use Rattle.broker_script.specs.Printed.{PrintsBegun};
ghost use Rattle.broker_script.specs.declared.awaited.Came.TheVariants.{Lacks};
ghost use Rattle.script_lines.specs.BrokerLine.{IsSendableLine};

mod mounted;
mod takes;

use crate::connection_handle::ConnectionHandle;
use crate::connections::{Connections, Heard};
use crate::delivery::ReplyWriter;
use crate::held_takes::HeldTakes;
use broker_core::Broker;
use broker_desk::{Desk, Kernel, MAX_ASKS, Peer, Response};
use broker_script::{Awaited, BegunLine, BrokerLine, Came, begin, look, print_begun, print_held};
use eden_base::{NoMemory, Number};
use links::Frame;
use monitor::{Condition, Look, Monitor};
pub(crate) use mounted::NextWrite;
use script_lines::print_numbered;
use std::alloc::Global;
use std::fs::File;
use std::io::{self, BufWriter, Write};
use std::rt::Clock;
use std::sync::Wait;
use std::thread;
use std::time::{Duration, Instant};
pub(crate) use takes::{Answered, TakeAnswer};

/// How many milliseconds a tick lasts while the kernel is busy. A Take without an ask waits until a tick ends.
const BUSY_TICK: u64 = 1;

/// How many milliseconds a tick lasts while the kernel is idle.
const IDLE_TICK: u64 = 20;

/// How long the kernel counts as busy after an ask, in milliseconds.
const MOMENT: u64 = 1000;

/// How long a script that was refused memory waits until it looks again, in milliseconds.
const PAUSE: u64 = 1;

/// What the script waits for.
#[derive(Clone, Copy, PartialEq, Eq)]
pub(crate) enum Waiting {
    Nothing,
    /// A reply, or the end of the mount.
    Reply,
    /// A daemon that mounts, or that claims the seat.
    Seat,
    /// A daemon that takes an ask or a forget.
    Idle,
}

/// The state of the shared desk, which the lock protects.
#[derive(Drop)]
struct SharedDeskState {
    desk: Desk,
    connections: Connections,
    /// When the kernel asked last.
    asked: Option<Instant>,
    waiting: Waiting,
    /// The asks of a real kernel; a script has none.
    kernel: Kernel,
    /// Whether a kernel has a mount that stands.
    is_mounted: bool,
    agreed: Agreed,
    /// Where it is noted at each takeover what the kernel holds, if it is.
    log: Option<BufWriter<File>>,
    takes: HeldTakes,
    /// Where replies are written while a kernel's mount is served.
    writer: Option<ReplyWriter>,
    /// The numbers that replies gave out which the kernel did not take, and which are not forgotten yet.
    given_back: Vec<Number>,
    /// Whether the device refused everything.
    is_refused: bool,
    is_over: bool,
}

/// Whether the kernel agreed to what the daemon of the seat mounts.
#[derive(Clone, Copy, PartialEq, Eq)]
pub(crate) enum Agreed {
    /// A script plays the kernel, and agrees to every mount.
    Always,
    /// It did not yet.
    NotYet,
    /// It agreed to the mount for the seat at this generation.
    To(u64),
}

/// What is answered to a daemon that mounts.
#[derive(Clone, Copy, PartialEq, Eq)]
pub(crate) enum Granted {
    /// It serves the mount.
    Now,
    /// Nothing, until the kernel agrees.
    Later,
    /// Nothing any more: no mount was made.
    Never,
}

/// A connection that was accepted: its number, and who the desk knows at its other end.
#[derive(Clone, Copy)]
pub(crate) struct AcceptedConnection {
    number: u64,
    peer: Peer,
    /// Whether the peer has yet to be told that its last reply is posted: that goes out with the next answer.
    pub owes_posted: bool,
}

impl AcceptedConnection {
    /// Returns whether nobody attached by this connection.
    pub(crate) fn is_unattached(&self) -> bool
        ensures unattached { result ≡ has_not_attached self.now.peer }
    {
        matches!(self.peer, Peer::Unattached)
    }
}

/// The desk and the connections, under a lock. `grants` wakes a Mount that waits, and `events` wakes the script, or the
/// thread that ends a mount.
#[derive(Drop)]
pub(crate) struct SharedDesk {
    state: Monitor<SharedDeskState>,
    grants: Condition,
    events: Condition,
}

impl SharedDeskState {
    /// Answers a frame of a connection, and returns whether the answer wakes the script.
    fn answer(&mut self, accepted: &mut AcceptedConnection, frame: &mut Frame) -> (Response, bool)
        ensures answers { AnswersFrame (is_turned_away self.old.connections.list.items accepted.old.number accepted.old.peer
            frame.old) (is_kept_out self.old.is_mounted self.old.desk.broker accepted.old.peer frame.old) self.old.desk
            accepted.old.peer frame.old result.0 self.new.desk accepted.new.peer }
        ensures named { self.new.connections.list.items ≡ with_peer accepted.old.number accepted.old.peer accepted.new.peer
            self.old.connections.list.items }
        ensures wakes { result.1 ≡ option_map_or (wakes self.old.waiting) (told_by result.0) false }
        ensures accepted { accepted.new ≡ record accepted.old { peer = accepted.new.peer } }
        ensures frame { is_post frame.old ≡ false → frame.new ≡ frame.old }
        ensures takes { self.new.takes ≡ self.old.takes }
        ensures kernel { self.new.kernel ≡ self.old.kernel }
        ensures writer { self.new.writer ≡ self.old.writer }
    {
        let was_unattached = accepted.is_unattached();
        let response = self.respond(accepted, frame);
        if was_unattached {
            self.connections.name(accepted.number, accepted.peer);
        }
        if let Response::Tells(Frame::Claimed { generation }) = &response {
            log_held(&mut self.log, self.desk.broker(), *generation);
        }
        let wakes = is_waited_for(self.waiting, &response);
        (response, wakes)
    }

    /// Returns the desk's answer to a frame of a connection. The desk doesn't hear one that may not attach, which is closed, nor
    /// the Mount of a daemon while a dead mount stands, which is told that another daemon has the seat.
    fn respond(&mut self, accepted: &mut AcceptedConnection, frame: &mut Frame) -> Response
        ensures answers { AnswersFrame (is_turned_away self.old.connections.list.items accepted.old.number accepted.old.peer
            frame.old) (is_kept_out self.old.is_mounted self.old.desk.broker accepted.old.peer frame.old) self.old.desk
            accepted.old.peer frame.old result self.new.desk accepted.new.peer }
        ensures rest { self.new ≡ record self.old { desk = self.new.desk } }
        ensures accepted { accepted.new ≡ record accepted.old { peer = accepted.new.peer } }
        ensures frame { is_post frame.old ≡ false → frame.new ≡ frame.old }
    {
        if self.turns_away(accepted, frame) {
            return Response::Closes;
        }
        if self.keeps_out(accepted, frame) {
            return Response::Tells(Frame::Seated);
        }
        self.desk.answer(&mut accepted.peer, frame)
    }

    /// Returns whether a connection is closed for its first `frame`: it had to go, or may not attach so.
    fn turns_away(&self, accepted: &AcceptedConnection, frame: &Frame) -> bool
        ensures turns_away { result ≡ is_turned_away self.now.connections.list.items accepted.now.number accepted.now.peer
            frame.now }
    {
        accepted.is_unattached() && !self.may_attach(accepted.number, frame)
    }

    /// Returns whether `frame` is a Mount of a daemon that has to wait for the end of a dead mount.
    fn keeps_out(&self, accepted: &AcceptedConnection, frame: &Frame) -> bool
        ensures keeps_out { result ≡ is_kept_out self.now.is_mounted self.now.desk.broker accepted.now.peer frame.now }
    {
        !accepted.is_unattached() && self.has_dead_mount() && matches!(frame, Frame::Mount)
    }

    /// Returns whether a kernel still has the mount of a daemon that is gone. Until that ends no daemon may mount, since
    /// the kernel would take the next daemon's numbers for those of the last one.
    fn has_dead_mount(&self) -> bool
        ensures dead { result ≡ (self.now.is_mounted && is_none self.now.desk.broker.seat) }
    {
        self.is_mounted && self.desk.broker().seat().is_none()
    }

    /// Returns whether unattached connection `number` did not have to go, and what its Attach asks for is within the limit.
    fn may_attach(&self, number: u64, frame: &Frame) -> bool
        ensures may_attach { result ≡ may_attach self.now.connections.list.items number frame.now }
    {
        let has_place = match frame {
            Frame::Attach(daemon) => daemon.0 == 0 || self.connections.has_place(*daemon),
            _ => true,
        };
        has_place && self.connections.knows(number)
    }

    /// Returns what is answered to the daemon that mounted at `generation`.
    fn granted(&self, generation: u64) -> Granted
        ensures granted { result ≡ granted_by self.now.agreed (is_none self.now.desk.broker.seat) generation }
    {
        match self.agreed {
            Agreed::Always => Granted::Now,
            Agreed::To(made) if made == generation => Granted::Now,
            Agreed::To(_) | Agreed::NotYet => {
                if self.desk.broker().seat().is_none() {
                    return Granted::Never;
                }
                Granted::Later
            }
        }
    }

    /// Begins what a line says, and notes what the script waits for from then on.
    fn begin(&mut self, line: &BrokerLine, now: Option<Instant>) -> BegunLine
        requires sendable { IsSendableLine line.now }
        ensures begins { Begins self.old.desk line.now result self.new.desk }
    {
        let begun = begin(&mut self.desk, line);
        if let BrokerLine::Ask(_) = line {
            self.asked = now;
        }
        if let BegunLine::Waits(awaited) = begun {
            self.waiting = waiting_for(awaited);
        }
        begun
    }

    /// Looks for the result of the wait for `awaited`. Where memory for it was refused, there is another look after a
    /// pause.
    fn look_for(&mut self, awaited: &Awaited) -> Look<Came>
        ensures come { IfFound result (HasCome awaited.now) }
    {
        let Some(came) = look(&mut self.desk, awaited) else {
            return Look::of(None);
        };
        if is_lacking(&came) {
            return Look::Again(Duration::from_millis(PAUSE));
        }
        Look::Found(came)
    }

    /// Returns how many daemons other than the holder of the seat have their first connection open.
    fn others(&self) -> usize {
        let running = self.desk.running();
        match self.desk.broker().seat() {
            Some(_holder) => running.saturating_sub(1),
            None => running,
        }
    }
}

/// Notes in `log`, if there is one, what the kernel holds by the `broker` as a daemon takes the seat over at `generation`. What
/// can't be written is left out.
fn log_held(log: &mut Option<BufWriter<File>>, broker: &Broker, generation: u64) {
    let Some(log) = log else {
        return;
    };
    let _written = print_numbered(log, "seat", generation);
    let _written = print_held(log, broker);
    let _written = log.flush();
}

/// Returns the kind of answer that wakes a script which waits for `awaited`.
fn waiting_for(awaited: Awaited) -> Waiting
    ensures waiting { result ≡ waiting_for awaited }
{
    match awaited {
        Awaited::Reply(_) => Waiting::Reply,
        Awaited::Seat(_) => Waiting::Seat,
        Awaited::Idle => Waiting::Idle,
    }
}

/// Returns whether a script waits for what was just answered.
fn is_waited_for(waiting: Waiting, response: &Response) -> bool
    ensures wakes { result ≡ option_map_or (wakes waiting) (told_by response.now) false }
{
    match response {
        Response::Tells(answer) => wakes(waiting, answer),
        Response::Closes => false,
    }
}

/// Returns whether `answer` wakes a script that waits.
fn wakes(waiting: Waiting, answer: &Frame) -> bool
    ensures wakes { result ≡ wakes waiting answer.now }
{
    match waiting {
        Waiting::Reply => matches!(answer, Frame::Posted),
        Waiting::Seat => matches!(answer, Frame::Mounted { .. } | Frame::Claimed { .. }),
        Waiting::Idle => matches!(answer, Frame::Ask(_)),
        Waiting::Nothing => false,
    }
}

/// Returns whether the reply came but memory for its number was refused.
fn is_lacking(came: &Came) -> bool
    ensures lacks { IsTrue result ↔ (came.now ≡ Lacks) }
{
    matches!(came, Came::Lacks)
}

/// Returns whether a Take found nothing.
fn finds_nothing(response: &Response) -> bool
    ensures nothing { result ≡ option_map_or is_empty (told_by response.now) false }
{
    matches!(response, Response::Tells(Frame::Empty))
}

impl SharedDesk {
    /// Makes a shared desk without connections, for which a script plays the kernel.
    pub(crate) fn of_script(alloc: Global) -> Result<SharedDesk, NoMemory> {
        SharedDesk::of(alloc, Desk::new(alloc)?, Agreed::Always, None)
    }

    /// Makes a shared desk without connections for mounts of a kernel. It notes what that holds in `log`, if there is one.
    pub(crate) fn of_mount(
        alloc: Global,
        log: Option<BufWriter<File>>,
    ) -> Result<SharedDesk, NoMemory> {
        SharedDesk::of(alloc, Desk::for_mount(alloc)?, Agreed::NotYet, log)
    }

    /// Makes a shared desk without connections. `broker` is the desk.
    fn of(
        alloc: Global,
        broker: Desk,
        agreed: Agreed,
        log: Option<BufWriter<File>>,
    ) -> Result<SharedDesk, NoMemory> {
        let kernel = Kernel::new(alloc)?;
        let given_back = Vec::with_capacity(alloc, MAX_ASKS)?;
        Ok(SharedDesk {
            state: Monitor::new(SharedDeskState {
                desk: broker,
                connections: Connections::new(alloc),
                asked: None,
                waiting: Waiting::Nothing,
                kernel,
                is_mounted: false,
                agreed,
                log,
                takes: HeldTakes::new(alloc),
                writer: None,
                given_back,
                is_refused: false,
                is_over: false,
            }),
            grants: Condition::new(),
            events: Condition::new(),
        })
    }

    /// Lets a connection in, by a handle of it. Returns none if no more connections may come.
    pub(crate) fn enter<R: Wait>(
        &self,
        rt: &R,
        handle: ConnectionHandle,
    ) -> Option<AcceptedConnection> {
        let mut state = self.state.lock(rt);
        if state.is_over {
            return None;
        }
        let number = state.connections.enter(handle)?;
        Some(AcceptedConnection {
            number,
            peer: Peer::Unattached,
            owes_posted: false,
        })
    }

    /// Waits until a connection may come, or none may any more.
    pub(crate) fn wait_for_room<R: Wait + Clock>(&self, rt: &R) {
        for _ in rt.forever() {
            let state = self.state.lock(rt);
            if state.is_over || state.connections.has_room() {
                return;
            }
            drop(state);
            thread::sleep(rt, Duration::from_millis(PAUSE));
        }
    }

    /// Notes what came by an unattached connection.
    pub(crate) fn note_heard<R: Wait>(&self, rt: &R, accepted: &AcceptedConnection, heard: Heard) {
        self.state.lock(rt).connections.note(accepted.number, heard);
    }

    /// Notes that a connection ended. A Take of it waits no more.
    pub(crate) fn leave<R: Wait>(&self, rt: &R, accepted: AcceptedConnection) {
        let mut state = self.state.lock(rt);
        state.connections.leave(accepted.number);
        drop(state.takes.remove(accepted.number));
        state.desk.leave(accepted.peer);
        drop(state);
        self.note_changed(rt);
    }

    /// Tells all who wait that the seat may have changed hands, or that the mount may be over.
    fn note_changed<R: Wait>(&self, rt: &R) {
        self.grants.notify_all();
        self.events.notify_all();
        self.answer_held(rt);
    }

    /// Begins what a line of the script says.
    pub(crate) fn begin<R: Wait + Clock>(&self, rt: &R, line: &BrokerLine) -> BegunLine
        requires sendable { IsSendableLine line.now }
        ensures began { Began line.now result }
    {
        let now = Instant::now(rt).ok();
        let begun = self.state.lock(rt).begin(line, now);
        self.answer_held(rt);
        begun
    }

    /// Waits until the wait for `awaited` has a result, and returns the result.
    pub(crate) fn wait_for<R: Wait + Clock>(&self, rt: &R, awaited: &Awaited) -> Came
        ensures come { HasCome awaited.now result }
    {
        self.state
            .wait_until(rt, &self.events, |state| state.look_for(awaited))
    }

    /// Prints the immediate result of a line.
    pub(crate) fn print_begun<R: Wait, W: Write>(
        &self,
        rt: &R,
        out: &mut W,
        begun: &BegunLine,
    ) -> io::Result<()>
        ensures printed { OnOk result ((broker : BrokerState) × PrintsBegun broker begun.now
            (W.contents out.old) (W.contents out.new)) }
    {
        print_begun(out, self.state.lock(rt).desk.broker(), begun)
    }

    /// Waits until no daemon but the holder of the seat has its first connection open.
    pub(crate) fn wait_for_others<R: Wait>(&self, rt: &R) {
        self.state.wait_until(rt, &self.events, |state| {
            Look::of((state.others() == 0).then_some(()))
        });
    }

    /// Tells every daemon from now on that the mount is over.
    pub(crate) fn close<R: Wait>(&self, rt: &R) {
        let mut state = self.state.lock(rt);
        state.desk.close();
        state.is_mounted = false;
        drop(state);
        self.note_changed(rt);
    }

    /// Waits until every daemon closed its first connection.
    pub(crate) fn wait_for_all<R: Wait>(&self, rt: &R) {
        self.state.wait_until(rt, &self.events, |state| {
            Look::of((state.desk.running() == 0).then_some(()))
        });
    }

    /// Ends all connections, and lets none in any more.
    pub(crate) fn end<R: Wait>(&self, rt: &R) {
        self.state.change(rt, &self.grants, |state| {
            state.is_over = true;
            state.connections.end_all();
        });
    }

    /// Returns whether no connection is let in any more.
    pub(crate) fn is_over<R: Wait>(&self, rt: &R) -> bool {
        self.state.lock(rt).is_over
    }
}
