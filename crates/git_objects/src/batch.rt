//! The process that answers questions for objects.
ghost use Rattle.std.specs.Prelude.{◌≡◌, IfOk};

use crate::answer::{copy_blob, read_blob};
use crate::blob::Blob;
use crate::duty::Duty;
use crate::fault::ObjectFault;
use crate::git_command::GitCommand;
use crate::question::question_of;
use crate::sought::Sought;
use std::alloc::Global;
use std::fs::File;
use std::io::{self, BufReader, Error, ErrorKind, Write};
use std::net::Net;
use std::os::fd::OwnedFd;
use std::os::unix::net::UnixStream;
use std::process::{Child, OpenProcess, Processes, Stdio};
use std::time::Duration;

/// For how many seconds git may be silent within an answer.
const SILENCE: u64 = 5;

/// How many bytes are read ahead.
const AHEAD: usize = 65_536;

/// A process of `git cat-file --batch`: the pipe of its questions, and the socket of its answers, a read of which waits for
/// five seconds at most.
#[derive(Drop)]
pub(crate) struct Batch<P: OpenProcess + Drop> {
    child: Child<P>,
    questions: P::Stdin,
    answers: BufReader<UnixStream>,
}

impl<P: OpenProcess + Drop> Batch<P> {
    /// Starts the process. What it says on standard error is dropped: it stays, and would wait where nobody reads that.
    pub(crate) fn start<R: Processes<Started = P> + Net>(
        rt: &R,
        alloc: Global,
        git: &GitCommand<'_>,
        duty: Duty,
    ) -> io::Result<Batch<P>> {
        let (ours, theirs) = UnixStream::pair(rt)?;
        ours.set_read_timeout(Some(Duration::from_secs(SILENCE)))?;
        let answers = BufReader::with_capacity(alloc, AHEAD, ours)?;
        let mut command = git.batch(alloc, duty.is_ahead())?;
        command.stdin(Stdio::piped());
        command.stdout(OwnedFd::from(theirs));
        command.stderr(Stdio::null());
        let mut child = command.spawn(rt)?;
        match child.stdin.take() {
            Some(questions) => Ok(Batch {
                child,
                questions,
                answers,
            }),
            None => Err(Error::from(ErrorKind::BrokenPipe)),
        }
    }

    /// Asks for the object.
    fn ask(&mut self, alloc: Global, object: &[u8; 20]) -> Result<(), ObjectFault> {
        let question = question_of(alloc, object)?;
        match self.questions.write_all(question.as_slice()) {
            Ok(()) => Ok(()),
            Err(_gone) => Err(ObjectFault::Ended),
        }
    }

    /// Asks for a blob, and returns it if the bytes that git gives have its name.
    pub(crate) fn fetch(&mut self, alloc: Global, sought: Sought) -> Result<Blob, ObjectFault>
        ensures object { IfOk result (λ blob. blob.object ≡ sought.object) }
        ensures size { IfOk result (λ blob. blob.size ≡ sought.size) }
    {
        self.ask(alloc, &sought.object)?;
        let bytes = read_blob(alloc, &mut self.answers, sought)?;
        Blob::of_bytes(alloc, sought, bytes)
    }

    /// Asks for a blob, and writes its bytes to `out`. Tells by `told` how many were written, but of the
    /// last piece.
    pub(crate) fn copy<F: FnMut(u64)>(
        &mut self,
        alloc: Global,
        sought: Sought,
        out: &mut File,
        told: F,
    ) -> Result<(), ObjectFault>
        requires callable { F.IsAlwaysCallable told }
    {
        self.ask(alloc, &sought.object)?;
        copy_blob(alloc, &mut self.answers, sought, out, told)
    }

    /// Kills the process, and returns it, for which nobody waited yet.
    pub(crate) fn kill(self) -> Child<P> {
        let Batch {
            child,
            questions,
            answers,
        } = self;
        drop(questions);
        drop(answers);
        let mut child = child;
        let _gone = child.kill();
        child
    }
}
