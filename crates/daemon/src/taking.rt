//! How a daemon takes over: it reads data that comes whole or part by part, and restores what the data tells.
ghost use Rattle.std.specs.Prelude.{◌≡◌, ◌≤◌, ◌++◌, ℕ, nat_lt, false, true, Some, is_none, length, IsTrue, IfOk, OnErr, OnOk};
ghost use Rattle.map_image.specs.Feeding.{standing_fault};
ghost use Rattle.takeover_core.specs.Phases.{after, is_raising, is_taking, phase_after, Fed, Raised};
ghost use Rattle.daemon.specs.Saying.{turned, what_is_said};
ghost use Rattle.daemon.specs.Talking.{bytes_of, read_before, Loses, TakesData, TakesPart};

use crate::daemon::Daemon;
use crate::messages::Messages;
use crate::server::Server;
use crate::turn::{Reaction, Turn};
use eden_base::NoMemory;
use manifest::Manifest;
use map_codec::{HandoverFault, take_over, take_over_read};
use map_image::{ImageFault, ImageReader, PartReader};
use std::alloc::Global;
use takeover_core::{Message, Node};

/// Returns the bytes of data that `message` carries, and no bytes if it carries no data.
pub(crate) fn bytes_of(message: &Message) -> &[u8]
    ensures bytes { result.now ≡ bytes_of message.now }
{
    match message {
        Message::Data { bytes, .. } => bytes.as_slice(),
        Message::Part { bytes, .. } => bytes.as_slice(),
        _ => &[],
    }
}

/// Reads `bytes` after all that `reader` took before, and returns whether an image may begin with the whole.
pub(crate) fn feed(reader: &mut PartReader, bytes: &[u8]) -> Result<bool, NoMemory>
    ensures reads { OnOk result (reader.new ≡ reader.old ++ bytes.now) }
    ensures fits { IfOk result (λ fits. fits ≡ is_none (standing_fault (reader.old ++ bytes.now))) }
    ensures unchanged { OnErr result (reader.new ≡ reader.old) }
{
    match reader.feed(bytes) {
        Ok(()) => Ok(true),
        Err(ImageFault::NoMemory) => Err(NoMemory),
        Err(_) => Ok(false),
    }
}

/// Reads `bytes`, the first part, with a new reader. Returns the reader, and whether an image may begin with `bytes`.
pub(crate) fn read_first(alloc: Global, bytes: &[u8]) -> Result<(PartReader, bool), NoMemory>
    ensures reads { IfOk result (λ read. read.0 ≡ bytes.now) }
    ensures fits { IfOk result (λ read. read.1 ≡ is_none (standing_fault bytes.now)) }
{
    let mut reader = PartReader::new(alloc);
    let fits = feed(&mut reader, bytes)?;
    Ok((reader, fits))
}

/// Reads the parts before the one at `position`, if there are any, with a reader that keeps what it reads.
fn read_before(alloc: Global, daemon: &Daemon, position: u32) -> Result<ImageReader, NoMemory>
    ensures reads { IfOk result (λ reader. reader ≡ read_before position daemon.now) }
{
    if position != 1 {
        if let Some(reader) = daemon.reading() {
            return reader.read();
        }
    }
    ImageReader::new(alloc)
}

/// Reads `bytes`, the last part, after the parts before. Returns the reader, and whether an image may begin with all
/// that it read.
fn read_last(
    alloc: Global,
    daemon: &Daemon,
    position: u32,
    bytes: &[u8],
) -> Result<(ImageReader, bool), NoMemory>
    ensures reads { IfOk result (λ read. read.0 ≡ read_before position daemon.now ++ bytes.now) }
    ensures fits { IfOk result (λ read.
        read.1 ≡ is_none (standing_fault (read_before position daemon.now ++ bytes.now))) }
{
    let mut reader = read_before(alloc, daemon, position)?;
    match reader.feed(bytes) {
        Ok(()) => Ok((reader, true)),
        Err(ImageFault::NoMemory) => Err(NoMemory),
        Err(_) => Ok((reader, false)),
    }
}

/// A daemon that takes over, and what it restores an image with: the manifest that it serves, and the greatest count of
/// files that it keeps loaded.
#[derive(Drop)]
pub(crate) struct Restorer<'a> {
    pub(crate) alloc: Global,
    pub(crate) daemon: &'a Daemon,
    pub(crate) manifest: &'a Manifest,
    pub(crate) limit: usize,
}

impl<'a> Restorer<'a> {
    /// Restores the image in `bytes`, and holds the result. Where the image cannot be restored, the daemon is gone.
    pub(crate) fn take_data(
        &self,
        node: Node,
        generation: u64,
        bytes: &[u8],
    ) -> Result<Turn, NoMemory>
        requires raising { IsTrue (is_raising node.phase) }
        ensures taken { IfOk result (λ turn.
            TakesData self.now.manifest.now self.now.limit self.now.daemon.now bytes.now node generation turn.reaction
            (turned self.now.daemon.now turn)) }
        ensures at_most_one { IfOk result (λ turn. length (what_is_said turn.reaction) ≤ 1) }
    {
        let shared = self.manifest.share()?;
        match take_over(self.alloc, bytes, self.manifest, self.limit, generation) {
            Ok(served) => Ok(hold(node, Server::new(self.alloc, generation, shared, served))),
            Err(HandoverFault::Refused) => {
                drop(shared);
                Ok(lose(self.daemon, node))
            }
            Err(HandoverFault::NoMemory) => {
                drop(shared);
                Err(NoMemory)
            }
        }
    }

    /// Reads `bytes`, the last part, after the parts before. Then restores the image that was read, and holds the
    /// result. Where the image cannot be restored, the daemon is gone.
    pub(crate) fn take_last(
        &self,
        node: Node,
        generation: u64,
        position: u32,
        bytes: &[u8],
    ) -> Result<Turn, NoMemory>
        requires taking { IsTrue (is_taking node.phase) }
        requires raising { IsTrue (is_raising (phase_after node (Fed true))) }
        ensures taken { (count : ℕ) → nat_lt position count ≡ false → IfOk result (λ turn.
            TakesPart self.now.manifest.now self.now.limit self.now.daemon.now
            (read_before position self.now.daemon.now ++ bytes.now) node generation position count turn.reaction
            (turned self.now.daemon.now turn)) }
        ensures at_most_one { IfOk result (λ turn. length (what_is_said turn.reaction) ≤ 1) }
    {
        let (reader, fits) = read_last(self.alloc, self.daemon, position, bytes)?;
        let mut node = node;
        match node.fed(fits) {
            None => self.take_read(node, generation, reader),
            Some(said) => {
                drop(reader);
                Ok(Turn::to(node, Reaction::Says(said, Messages::none())))
            }
        }
    }

    /// Restores the image that `reader` read, and holds the result. Where the image cannot be restored, the daemon is
    /// gone.
    fn take_read(&self, node: Node, generation: u64, reader: ImageReader) -> Result<Turn, NoMemory>
        requires raising { IsTrue (is_raising node.phase) }
        ensures taken { IfOk result (λ turn.
            TakesData self.now.manifest.now self.now.limit self.now.daemon.now reader node generation turn.reaction
            (turned self.now.daemon.now turn)) }
        ensures at_most_one { IfOk result (λ turn. length (what_is_said turn.reaction) ≤ 1) }
    {
        let shared = self.manifest.share()?;
        match take_over_read(self.alloc, reader, self.manifest, self.limit, generation) {
            Ok(served) => Ok(hold(node, Server::new(self.alloc, generation, shared, served))),
            Err(HandoverFault::Refused) => {
                drop(shared);
                Ok(lose(self.daemon, node))
            }
            Err(HandoverFault::NoMemory) => {
                drop(shared);
                Err(NoMemory)
            }
        }
    }
}

/// Returns the turn of a daemon that holds `server`, which was restored, until it claims the seat.
fn hold(node: Node, server: Server) -> Turn
    requires raising { IsTrue (is_raising node.phase) }
    ensures holds { result ≡ record { node = after node (Raised true); held = Some server; reaction = Reaction.Accepts } }
    ensures at_most_one { length (what_is_said result.reaction) ≤ 1 }
{
    let mut node = node;
    drop(node.raised(true));
    Turn::holding(node, server)
}

/// Returns the turn of a daemon that could restore nothing: it says so and is gone.
fn lose(daemon: &Daemon, node: Node) -> Turn
    requires raising { IsTrue (is_raising node.phase) }
    ensures loses { Loses daemon.now node result.reaction (turned daemon.now result) }
    ensures at_most_one { length (what_is_said result.reaction) ≤ 1 }
{
    let mut node = node;
    match node.raised(false) {
        Some(said) => Turn::to(node, Reaction::Says(said, Messages::none())),
        None => unreachable!(),
    }
}
