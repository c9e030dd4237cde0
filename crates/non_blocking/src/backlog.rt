//! What waits to be written.
ghost use Rattle.std.specs.Prelude.{◌≡◌, IfSome, [], true, false};
ghost use Rattle.std.specs.Fmt.{with_newline};
ghost use Rattle.non_blocking.specs.Backlog.{Pushes, Takes, first_loss, loss_of};

use crate::loss::Loss;
use std::alloc::Global;
use std::fmt::Display;
use std::io::{self, Write};
use std::mem;

/// How many bytes wait at most.
const CAPACITY: usize = 65_536;

/// The lines that wait to be written, in their order, and the first loss.
#[derive(Drop)]
pub(crate) struct Backlog {
    waiting: Vec<u8>,
    /// Room for the text of a line.
    line: Vec<u8>,
    /// Whether what was taken is still being written.
    is_writing: bool,
    loss: Option<Loss>,
}

impl Backlog {
    /// Returns an empty backlog, of which no line was lost.
    pub(crate) fn new(alloc: Global) -> Backlog {
        Backlog {
            waiting: Vec::new(alloc),
            line: Vec::new(alloc),
            is_writing: false,
            loss: None,
        }
    }

    /// Lets a line with the text of `line` wait, or drops it.
    pub(crate) fn print<D: Display + Drop>(&mut self, line: D)
        ensures takes { IfSome (with_newline (D.output line)) (λ text.
            Takes self.old.waiting.items text self.old.loss self.new.waiting.items self.new.loss) }
    {
        self.line.clear();
        let lost = match self.line.writeln(line) {
            Ok(()) => push(&mut self.waiting, self.line.as_slice()),
            Err(_refused) => Some(Loss::NoMemory),
        };
        self.note(lost);
    }

    /// Lets `text` wait as one line, or drops it.
    pub(crate) fn write(&mut self, text: &[u8])
        ensures takes { Takes self.old.waiting.items text.now self.old.loss self.new.waiting.items self.new.loss }
    {
        let lost = push(&mut self.waiting, text);
        self.note(lost);
    }

    /// Moves what waits to `chunk`, of which the bytes before are dropped. Returns whether something waited.
    pub(crate) fn take(&mut self, chunk: &mut Vec<u8>) -> bool
        ensures taken { chunk.new.items ≡ self.old.waiting.items }
        ensures rest { self.new.waiting.items ≡ [] }
        ensures same { self.new.loss ≡ self.old.loss }
    {
        chunk.clear();
        mem::swap(chunk, &mut self.waiting);
        self.is_writing = !chunk.is_empty();
        self.is_writing
    }

    /// Notes that what was taken is written, or what the system refused of it.
    pub(crate) fn wrote(&mut self, written: io::Result<()>)
        ensures done { self.new.is_writing ≡ false }
        ensures waiting { self.new.waiting ≡ self.old.waiting }
        ensures notes { self.new.loss ≡ first_loss self.old.loss (loss_of written) }
    {
        self.is_writing = false;
        self.note(written.err().map(Loss::Refused));
    }

    /// Returns whether all that waited is written or lost.
    pub(crate) fn is_done(&self) -> bool {
        !self.is_writing && self.waiting.is_empty()
    }

    /// Returns the first loss, if a line was lost.
    pub(crate) fn loss(&self) -> Option<Loss>
        ensures loss { result ≡ self.now.loss }
    {
        self.loss
    }

    /// Notes a loss, unless one is noted.
    fn note(&mut self, lost: Option<Loss>)
        ensures notes { self.new.loss ≡ first_loss self.old.loss lost }
        ensures waiting { self.new.waiting ≡ self.old.waiting }
        ensures writing { self.new.is_writing ≡ self.old.is_writing }
    {
        if self.loss.is_none() {
            self.loss = lost;
        }
    }
}

/// Lets `line` wait behind what waits, or drops it whole and returns why.
fn push(waiting: &mut Vec<u8>, line: &[u8]) -> Option<Loss>
    ensures pushes { Pushes waiting.old.items line.now result waiting.new.items }
{
    if line.len() > CAPACITY || waiting.len() > CAPACITY - line.len() {
        return Some(Loss::Full);
    }
    match waiting.extend_from_slice(line) {
        Ok(()) => None,
        Err(_refused) => Some(Loss::NoMemory),
    }
}
