//! The reading end of a socket.
ghost use Rattle.std.specs.Prelude.{◌≡◌};
ghost use Rattle.sockets.specs.Passage.{is_between};
ghost use Rattle.sockets.specs.Waits.{term_of};

use crate::allowance::slice_of;
use crate::passage::Passage;
use crate::{Deadline, Left};
use std::io::{self, ErrorKind, Read};
use std::os::unix::net::UnixStream;
use std::rt::Clock;
use std::time::Duration;

/// How long the rest of a frame may take once the frame began to come, in milliseconds.
const REST: u64 = 5000;

/// The reading end of a socket, which gives up at a deadline: a read that would end later fails with `WouldBlock`. It
/// waits in slices, so that a deadline counts only time in which this process ran. The deadline is that of whole frames,
/// or else one by which a frame has to begin. The rest of such a frame has to come within five seconds.
#[derive(Drop)]
pub struct Timed<'a, R> {
    clock: &'a R,
    stream: UnixStream,
    /// By when whole frames have to come, with what reads counted of it.
    whole: Deadline,
    /// The same as it was given.
    given: Deadline,
    /// By when a frame has to begin, where whole frames have no deadline.
    begin: Deadline,
    /// By when the rest of a frame has to come that began. The first read of that rest sets it.
    rest: Option<Deadline>,
    passage: Passage,
    timeout: Timeout,
    /// Whether the last read gave up at its deadline.
    is_late: bool,
}

/// Which deadline a byte has.
#[derive(Clone, Copy)]
pub(crate) enum Term {
    /// That of whole frames.
    Whole,
    /// The one by which a frame has to begin.
    Begin,
    /// That of the rest of a frame.
    Rest,
}

/// How long the system lets a read wait.
#[derive(Clone, Copy)]
enum Timeout {
    Unknown,
    Endless,
    Slice(Duration),
}

impl Timeout {
    /// Returns whether a read ends after `slice`.
    fn is_slice(self, slice: Duration) -> bool {
        match self {
            Timeout::Slice(set) => set.as_nanos() == slice.as_nanos(),
            Timeout::Unknown | Timeout::Endless => false,
        }
    }
}

impl<'a, R: Clock> Timed<'a, R> {
    /// Returns the reading end of a socket, without a deadline. The next byte begins a frame.
    pub fn over(clock: &'a R, stream: UnixStream) -> Timed<'a, R> {
        Timed {
            clock,
            stream,
            whole: Deadline::Never,
            given: Deadline::Never,
            begin: Deadline::Never,
            rest: None,
            passage: Passage::new(),
            timeout: Timeout::Unknown,
            is_late: false,
        }
    }

    /// Lets all reads from this call on end by `deadline`. One that is given again goes on where it was.
    pub fn end_by(&mut self, deadline: Deadline) {
        self.begin = Deadline::Never;
        if !deadline.is_same(&self.given) {
            self.whole = deadline;
            self.given = deadline;
        }
    }

    /// Lets the next frames begin by `deadline`, each with five seconds for its rest.
    pub fn begin_by(&mut self, deadline: Deadline) {
        self.whole = Deadline::Never;
        self.given = Deadline::Never;
        self.begin = deadline;
    }

    /// Returns whether the last read gave up at its deadline before a frame began. It may be made again then.
    pub fn is_silent(&self) -> bool {
        self.is_late && self.passage.is_between()
    }

    /// Returns whether the last read gave up at its deadline.
    pub fn is_late(&self) -> bool {
        self.is_late
    }

    /// Returns which deadline the next byte has.
    fn term(&self) -> Term
        ensures term { result ≡ term_of self.now.whole (is_between self.now.passage) }
    {
        match self.whole {
            Deadline::Never if self.passage.is_between() => Term::Begin,
            Deadline::Never => Term::Rest,
            Deadline::Within(_) | Deadline::Passed => Term::Whole,
        }
    }

    /// Looks at the clock, and returns how much longer the next byte may take.
    fn left(&mut self) -> Left {
        match self.term() {
            Term::Whole => self.whole.left(self.clock),
            Term::Begin => self.begin.left(self.clock),
            Term::Rest => {
                let mut rest = self.rest();
                let left = rest.left(self.clock);
                self.rest = Some(rest);
                left
            }
        }
    }

    /// Returns the deadline for the rest of the frame that began to come.
    fn rest(&self) -> Deadline {
        match self.rest {
            Some(rest) => rest,
            None => Deadline::after(self.clock, Duration::from_millis(REST)),
        }
    }

    /// Lets the system end the next read after a slice of what is left of its time.
    fn set_timeout(&mut self) -> io::Result<()> {
        match self.left() {
            Left::Forever => {
                if !matches!(self.timeout, Timeout::Endless) {
                    self.stream.set_read_timeout(None)?;
                    self.timeout = Timeout::Endless;
                }
                Ok(())
            }
            Left::For(left) => self.set_slice(slice_of(left)),
            Left::Nothing => {
                self.is_late = true;
                Err(io::Error::from(ErrorKind::WouldBlock))
            }
        }
    }

    /// Counts the bytes that a read gave. Where a frame ended with them, none has begun, and so no deadline holds for the
    /// rest of one.
    fn count_read(&mut self, bytes: &[u8]) {
        if self.passage.pass_all(bytes) {
            self.rest = None;
        }
    }

    /// Lets the system end each read after `slice`.
    fn set_slice(&mut self, slice: Duration) -> io::Result<()> {
        if self.timeout.is_slice(slice) {
            return Ok(());
        }
        self.stream.set_read_timeout(Some(slice))?;
        self.timeout = Timeout::Slice(slice);
        Ok(())
    }
}

impl<R: Clock> Read for Timed<'_, R> {
    fn read(&mut self, bytes: &mut [u8]) -> io::Result<usize> {
        self.is_late = false;
        for _slice in 0..u64::MAX {
            self.set_timeout()?;
            match self.stream.read(bytes) {
                Ok(count) => {
                    self.count_read(&bytes[..count]);
                    return Ok(count);
                }
                Err(error) if error.kind() == ErrorKind::WouldBlock => {}
                Err(error) => return Err(error),
            }
        }
        Err(io::Error::from(ErrorKind::WouldBlock))
    }
}
