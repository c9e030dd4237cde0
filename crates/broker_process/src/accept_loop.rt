//! The accept loop of a broker. Each connection has a thread of its own.
use crate::broker_socket::BrokerSocket;
use crate::connection_handle::ConnectionHandle;
use crate::connections::Heard;
use crate::context::BrokerContext;
use crate::shared_desk::{AcceptedConnection, Answered, TakeAnswer};
use broker_desk::Response;
use links::Frame;
use sockets::{Connection, Deadline};
use std::os::unix::net::UnixStream;
use std::rt::Clock;
use std::sync::Wait;
use std::thread;
use std::thread::{Scope, Threads};
use std::time::Duration;

/// How long a connection may take to attach, and then to read an answer, in milliseconds.
const PATIENCE: u64 = 2000;

/// After how long without a byte a connection counts as silent, in milliseconds.
const MOMENT: u64 = 10;

/// How long no connection is accepted after an accept failed, in milliseconds.
const PAUSE: u64 = 10;

/// The accept loop of a broker, and the socket at which it accepts connections.
#[derive(Drop)]
pub(crate) struct AcceptLoop<'a, R> {
    pub context: &'a BrokerContext<'a, R>,
    pub socket: &'a BrokerSocket,
}

impl<R: Threads + Wait + Clock + Sync> AcceptLoop<'_, R> {
    /// Runs the loop in a thread of `scope`, and answers Takes that waited for long enough in another one. Returns whether both
    /// threads were made.
    pub(crate) fn start<'s, 'e: 's>(&'e self, scope: &Scope<'s, &'e ()>) -> bool
    where
        R: 's,
    {
        let are_made = scope.spawn(move || self.pass_ticks()).is_ok()
            && scope.spawn(move || self.run()).is_ok();
        if !are_made {
            self.end();
        }
        are_made
    }

    /// Answers Takes that waited for long enough, until no connection is let in any more.
    fn pass_ticks(&self) {
        for _ in self.context.rt.forever() {
            if !self.context.shared.pass_tick(self.context.rt) {
                return;
            }
        }
    }

    /// Ends all connections, and lets none in any more.
    pub(crate) fn end(&self) {
        self.context.shared.end(self.context.rt);
        self.socket.closer.close();
    }

    /// Accepts connections until no more are let in, and returns when each of them ended.
    fn run(&self) {
        thread::scope(
            thread::scope_env(),
            self.context.rt,
            |scope| self.accept_all(scope),
        )
    }

    /// Accepts connections until no more are let in.
    fn accept_all<'s, 'e: 's>(&'e self, scope: &Scope<'s, &'e ()>)
    where
        R: 's,
    {
        let (rt, shared) = (self.context.rt, self.context.shared);
        for stream in self.socket.listener.incoming() {
            if shared.is_over(rt) {
                return;
            }
            match stream {
                Ok(stream) => self.context.admit(scope, stream),
                Err(_failed) => thread::sleep(rt, Duration::from_millis(PAUSE)),
            }
        }
    }
}

impl<R: Threads + Wait + Clock + Sync> BrokerContext<'_, R> {
    /// Lets a connection in once there is room, and attends to it in a thread of its own. The connection is closed if
    /// no more may come, or if no thread can be made.
    fn admit<'s, 'e: 's>(&'e self, scope: &Scope<'s, &'e ()>, stream: UnixStream)
    where
        R: 's,
    {
        let Some((handle, again)) = self.handles(&stream) else {
            return;
        };
        self.shared.wait_for_room(self.rt);
        let Some(accepted) = self.shared.enter(self.rt, again) else {
            return;
        };
        if scope
            .spawn(move || self.attend(accepted, &handle, stream))
            .is_err()
        {
            self.shared.leave(self.rt, accepted);
        }
    }

    /// Returns two handles of the connection `stream`, or none where the system or memory refuses them.
    fn handles(&self, stream: &UnixStream) -> Option<(ConnectionHandle, ConnectionHandle)> {
        let handle = ConnectionHandle::new(self.alloc, stream.try_clone().ok()?).ok()?;
        let again = handle.share().ok()?;
        Some((handle, again))
    }

    /// Answers the frames of a connection until it ends.
    fn attend(&self, accepted: AcceptedConnection, handle: &ConnectionHandle, stream: UnixStream) {
        let (rt, alloc, shared) = (self.rt, self.alloc, self.shared);
        let patience = Duration::from_millis(PATIENCE);
        let mut accepted = accepted;
        if let Ok(mut connection) = Connection::over(alloc, rt, stream, Some(patience)) {
            let deadline = Deadline::after(rt, patience);
            shared.note_heard(rt, &accepted, heard_by(rt, &mut connection));
            for _ in rt.forever() {
                if !self.answer_one(&mut accepted, handle, &mut connection, deadline) {
                    break;
                }
            }
        }
        shared.leave(rt, accepted);
    }

    /// Answers the next frame of a connection, of which `handle` is a handle. An unattached connection has to send it by
    /// `deadline`. Returns whether the connection goes on.
    fn answer_one(
        &self,
        accepted: &mut AcceptedConnection,
        handle: &ConnectionHandle,
        connection: &mut Connection<'_, R>,
        deadline: Deadline,
    ) -> bool {
        let by = if accepted.is_unattached() {
            deadline
        } else {
            Deadline::Never
        };
        let Ok(Some(mut frame)) = connection.read(by) else {
            let _told = tell_posted(accepted, connection);
            return false;
        };
        let Answered {
            earlier,
            response,
            delivery,
        } = self.shared.answer(self.rt, accepted, handle, &mut frame);
        if let Some(delivery) = delivery {
            self.deliver(delivery);
        }
        connection.give_back(frame);
        tell_earlier(connection, earlier) && tell(accepted, connection, response)
    }
}

/// Writes by a connection the answer to a Take that waited, if there is one, behind what is owed before it. Returns whether the
/// connection goes on.
fn tell_earlier<R: Clock>(connection: &mut Connection<'_, R>, earlier: Option<TakeAnswer>) -> bool {
    let Some(
        TakeAnswer {
            owes_posted,
            response,
        },
    ) = earlier
    else {
        return true;
    };
    if owes_posted && connection.write(&Frame::Posted).is_err() {
        return false;
    }
    write(connection, response)
}

/// Writes by a connection the answer to a frame, if there is one by now. That a reply is posted waits for the answer to the next
/// frame, if that has come too: so a peer that sends both at once reads both answers at once. Returns whether the connection
/// goes on.
fn tell<R: Clock>(
    accepted: &mut AcceptedConnection,
    connection: &mut Connection<'_, R>,
    response: Option<Response>,
) -> bool {
    let Some(response) = response else {
        return true;
    };
    if !tell_posted(accepted, connection) {
        return false;
    }
    if matches!(response, Response::Tells(Frame::Posted)) && connection.has_next() {
        accepted.owes_posted = true;
        return true;
    }
    write(connection, response)
}

/// Tells by a connection that its last reply is posted, if that is to be told yet. Returns whether the connection goes on.
fn tell_posted<R: Clock>(
    accepted: &mut AcceptedConnection,
    connection: &mut Connection<'_, R>,
) -> bool {
    if !accepted.owes_posted {
        return true;
    }
    accepted.owes_posted = false;
    connection.write(&Frame::Posted).is_ok()
}

/// Writes an answer by a connection. Returns whether the connection goes on.
fn write<R: Clock>(connection: &mut Connection<'_, R>, response: Response) -> bool {
    match response {
        Response::Tells(answer) => connection.write(&answer).is_ok(),
        Response::Closes => false,
    }
}

/// Returns what comes by a connection within a moment. Whoever attaches says so at once.
fn heard_by<R: Clock>(rt: &R, connection: &mut Connection<'_, R>) -> Heard {
    match connection.hears(Deadline::after(rt, Duration::from_millis(MOMENT))) {
        Some(bytes) => Heard::of(bytes),
        None => Heard::Silence,
    }
}
