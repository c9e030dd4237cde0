//! Readers and writers that give and take a few bytes at a time, fail, or are interrupted.
use std::io::{self, ErrorKind, Read, Write};

/// Bytes that are read a few at a time.
#[derive(Drop)]
pub(crate) struct Pieces<'a> {
    pub rest: &'a [u8],
    /// How many bytes the first read gives at most.
    pub first: usize,
    /// How many bytes a later read gives at most.
    pub later: usize,
    /// The position of the read that fails, or 0 if none fails.
    pub fails: usize,
    /// How many more reads are interrupted.
    pub interrupted: usize,
    pub reads: usize,
}

impl Read for Pieces<'_> {
    fn read(&mut self, room: &mut [u8]) -> io::Result<usize> {
        self.reads = self.reads.saturating_add(1);
        if self.reads == self.fails {
            return Err(io::Error::from(ErrorKind::WouldBlock));
        }
        if self.interrupted > 0 {
            self.interrupted -= 1;
            return Err(io::Error::from(ErrorKind::Interrupted));
        }
        let most = if self.reads == 1 {
            self.first
        } else {
            self.later
        };
        let count = most.min(room.len()).min(self.rest.len());
        room[..count].copy_from_slice(&self.rest[..count]);
        self.rest = &self.rest[count..];
        Ok(count)
    }
}

/// A writer that appends a few bytes at a time to `held`.
#[derive(Drop)]
pub(crate) struct Sink {
    pub held: Vec<u8>,
    /// How many bytes a write takes at most.
    pub most: usize,
    /// The position of the write that fails, or 0 if none fails.
    pub fails: usize,
    /// How many more writes are interrupted.
    pub interrupted: usize,
    pub writes: usize,
}

impl Write for Sink {
    fn write(&mut self, bytes: &[u8]) -> io::Result<usize> {
        self.writes = self.writes.saturating_add(1);
        if self.writes == self.fails {
            return Err(io::Error::from(ErrorKind::BrokenPipe));
        }
        if self.interrupted > 0 {
            self.interrupted -= 1;
            return Err(io::Error::from(ErrorKind::Interrupted));
        }
        let count = self.most.min(bytes.len());
        self.held.extend_from_slice(&bytes[..count])?;
        Ok(count)
    }

    fn flush(&mut self) -> io::Result<()> {
        Ok(())
    }
}
