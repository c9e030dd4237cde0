//! One mount of a real kernel, from its first request to its end.
ghost use Rattle.std.specs.Prelude.{◌≡◌};
ghost use Rattle.mount_wire.specs.Message.{IsForDaemons};
ghost use Rattle.broker_process.specs.Serving.{Handles, IsHeardToTheEnd, ServesMount, handled_by};

use crate::context::BrokerContext;
use crate::control::Control;
use crate::delivery::ReplyWriter;
use crate::device::{BUFFER_LEN, DeviceRead, read_device};
use crate::fault::MountRunFault;
use crate::reply_write::{Texts, Written, write_reply};
use crate::shared_desk::NextWrite;
use broker_desk::Progress;
use mount_wire::{KernelMessage, MountAttributes, read_message};
use std::fs::File;
use std::io::{self, Read, Write};
use std::process::Processes;
use std::rt::Clock;
use std::sync::{Arc, Wait};
use std::thread::{self, Scope, Threads};
use std::time::Duration;

/// How long the kernel isn't read while no more can be under way, in milliseconds.
const PAUSE: u64 = 1;

/// The error number of a device that can't be written to.
const EIO: i32 = 5;

/// How a mount ended.
#[derive(Clone, Copy, PartialEq, Eq)]
pub(crate) enum MountEnd {
    /// Somebody unmounted.
    Unmounted,
    /// The daemon of the seat is gone. Programs in the mount get ENOTCONN.
    Dead,
}

/// A mount of the kernel.
#[derive(Drop)]
pub(crate) struct Mounted {
    /// The device by which the kernel and the mount talk.
    pub device: File,
    pub control: Control,
}

/// The service of one mount.
#[derive(Drop)]
pub(crate) struct MountService<'a, R> {
    pub context: &'a BrokerContext<'a, R>,
    /// The path of the directory at which it is mounted.
    pub mountpoint: &'a str,
    /// The generation at which it began.
    pub began: u64,
    /// What each file of the mount has as its own.
    pub own: MountAttributes,
}

/// How the replies of a mount came to an end.
#[derive(Clone, Copy, PartialEq, Eq)]
enum Delivery {
    /// The mount is over.
    Over,
    /// The daemon of the seat is gone.
    Gone,
    /// The device refuses everything.
    Refused,
}

/// What becomes of a mount by a message of the kernel.
#[derive(Clone, Copy, PartialEq, Eq)]
enum Handled {
    GoesOn,
    /// No daemon has the seat.
    NotMounted,
    /// The device refuses this program's own answer.
    Refused,
}

impl<R: Threads + Wait + Clock + Processes + Sync> MountService<'_, R> {
    /// Serves a mount: reads in a thread what the kernel asks by the device, and waits in this one for the end. Replies are
    /// written by the threads of the connections by which they come.
    pub(crate) fn serve(&self, mounted: Mounted) -> Result<MountEnd, MountRunFault> {
        thread::scope(thread::scope_env(), self.context.rt, move |scope| {
            self.serve_within(scope, mounted)
        })
    }

    /// Serves a mount, with a thread of a scope that reads what the kernel asks.
    fn serve_within<'s, 'e: 's>(
        &'e self,
        scope: &Scope<'s, &'e ()>,
        mounted: Mounted,
    ) -> Result<MountEnd, MountRunFault>
    where
        R: 's,
    {
        let (rt, alloc) = (self.context.rt, self.context.alloc);
        let Mounted {
            device,
            mut control,
        } = mounted;
        let answers = device.try_clone().map_err(MountRunFault::Broken)?;
        let writer = self.writer(&device)?;
        self.context.shared.begin_service(rt, writer);
        let Ok(reading) = scope.spawn(move || self.read_to_the_end(device, answers)) else {
            self.context.shared.end_service(rt);
            return Err(MountRunFault::NoThread);
        };
        let delivery = self.wait_for_end();
        self.context.shared.end_service(rt);
        if delivery != Delivery::Over {
            control.end(rt, alloc, self.mountpoint);
        }
        let ended = reading.join(rt);
        match delivery {
            Delivery::Refused => Err(MountRunFault::Broken(refused())),
            Delivery::Over | Delivery::Gone => ended,
        }
    }
}

impl<R: Wait + Clock> MountService<'_, R> {
    /// Returns where the replies of the mount over `device` are written.
    fn writer(&self, device: &File) -> Result<ReplyWriter, MountRunFault> {
        let handle = device.try_clone().map_err(MountRunFault::Broken)?;
        match Arc::new(self.context.alloc, handle) {
            Ok(device) => Ok(ReplyWriter {
                began: self.began,
                device,
                own: self.own,
            }),
            Err(_refused) => Err(MountRunFault::NoMemory),
        }
    }

    /// Reads what the kernel asks by `device` until the mount ends, and writes this program's own answers by `answers`.
    /// Where no daemon died, the daemons hear that the mount is over, so that who writes replies sees the end too. A
    /// device also says that the mount is gone where a daemon died, since the connection is ended then.
    fn read_to_the_end(&self, device: File, answers: File) -> Result<MountEnd, MountRunFault> {
        let (rt, shared) = (self.context.rt, self.context.shared);
        let (mut device, mut answers) = (device, answers);
        let ended = self.read_all(&mut device, &mut answers);
        drop(device);
        drop(answers);
        match ended {
            Ok(MountEnd::Unmounted) => Ok(shared.end_of_mount(rt)),
            Ok(MountEnd::Dead) => ended,
            Err(_) => {
                shared.close(rt);
                ended
            }
        }
    }

    /// Waits until the mount ends, and returns how. Delivers until then the replies that their connections' threads had to leave.
    fn wait_for_end(&self) -> Delivery {
        let (rt, shared) = (self.context.rt, self.context.shared);
        for _ in rt.forever() {
            match shared.next(rt) {
                NextWrite::Nothing | NextWrite::Later => {}
                NextWrite::Over => return Delivery::Over,
                NextWrite::Gone => return Delivery::Gone,
                NextWrite::Refused => return Delivery::Refused,
                NextWrite::Deliver(delivery) => self.context.deliver(delivery),
            }
        }
        unreachable!()
    }

    /// Reads what the kernel asks by `device` until the mount ends, and writes this program's own answers by `answers`.
    fn read_all<I: Read, O: Write>(
        &self,
        device: &mut I,
        answers: &mut O,
    ) -> Result<MountEnd, MountRunFault>
        ensures served { ServesMount result (I.remaining device.old) (O.contents answers.old)
            (I.remaining device.new) (O.contents answers.new) }
    {
        let (rt, alloc) = (self.context.rt, self.context.alloc);
        let Ok(mut buffer) = vec![in alloc; 0u8; BUFFER_LEN] else {
            return Err(MountRunFault::NoMemory);
        };
        for _ in rt.forever() {
            match read_device(device, buffer.as_mut_slice()) {
                DeviceRead::Message(message) => {
                    match self.handle(answers, message) {
                        Handled::GoesOn => {}
                        Handled::NotMounted => return Ok(MountEnd::Dead),
                        Handled::Refused => return Err(MountRunFault::Broken(refused())),
                    }
                }
                DeviceRead::Again => {}
                DeviceRead::Unmounted => return Ok(MountEnd::Unmounted),
                DeviceRead::Broken(error) => return Err(MountRunFault::Broken(error)),
            }
        }
        unreachable!()
    }

    /// Does what the message `bytes` of the kernel says, and writes the answer if it is this program's own.
    fn handle<O: Write>(&self, answers: &mut O, bytes: &[u8]) -> Handled
        ensures handles { Handles bytes.now result (O.contents answers.old) (O.contents answers.new) }
    {
        match self.hear(read_message(self.context.alloc, bytes)) {
            Progress::Done => Handled::GoesOn,
            Progress::Answers(reply) => {
                let texts = Texts {
                    reply: reply.as_slice(),
                    error: reply.as_slice(),
                };
                handled_by(write_reply(self.context.rt, answers, &texts))
            }
            Progress::NotMounted => Handled::NotMounted,
            Progress::Leaves(_) => unreachable!(),
        }
    }

    /// Hears a message of the kernel to its end, in as many turns as it takes.
    fn hear<'m>(&self, message: KernelMessage<'m>) -> Progress<'m>
        requires for_daemons { IsForDaemons message }
        ensures heard { IsHeardToTheEnd message.entry result }
    {
        let rt = self.context.rt;
        let mut left = message;
        for _ in rt.forever() {
            match self.context.shared.hear_kernel(rt, left) {
                Progress::Leaves(message) => left = message,
                progress => return progress,
            }
            pause(rt);
        }
        unreachable!()
    }
}

/// Waits a moment, since no more can be under way.
fn pause<R: Wait + Clock>(rt: &R) {
    thread::sleep(rt, Duration::from_millis(PAUSE));
}

/// Returns the error of a device that refuses every write.
fn refused() -> io::Error {
    io::Error::from_raw_os_error(EIO)
}

/// Returns what becomes of a mount whose program wrote an answer of its own.
fn handled_by(written: Written) -> Handled
    ensures handled { result ≡ handled_by written }
{
    match written {
        Written::Refused => Handled::Refused,
        Written::Reply | Written::Error | Written::Withdrawn => Handled::GoesOn,
    }
}
