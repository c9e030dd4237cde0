//! The trait of what runs server commands. A server command starts a broker or a daemon that serves over sockets.
ghost use Rattle.std.specs.Prelude.{List, Option, Result, ℕ, ⊤};
ghost use Rattle.command_line.specs.declared.server_command.ServerCommand.{ServerCommand as CommandValue};
ghost use Rattle.world_script.specs.declared.failure.Failure.{Failure as FailureValue};

use crate::{Failure, Sources};
use command_line::ServerCommand;
use std::alloc::Global;
use std::io::Write;

/// Runs server commands. The program runs them by sockets and threads, a test as it likes.
pub trait CommandHandler {
    /// Relates the handler before a command, the handler after it, the command, its result, and what `out` held before
    /// and after, where that is known.
    ghost ends: { Self → Self → CommandValue → Result (Unit {0}) FailureValue
        → Option (List ℕ) → Option (List ℕ) → Type 0 } = { λ _ _ _ _ _ _. ⊤ };

    /// Runs a command to its end. It reads scripts and manifests from `sources`, and flushes `out` after each line.
    fn run<'a, S: Sources, W: Write>(
        &mut self,
        alloc: Global,
        sources: &S,
        command: &ServerCommand<'a>,
        out: &mut W,
    ) -> Result<(), Failure<'a>>
        ensures ends { ends self.old self.new command.now result
            (W.contents out.old) (W.contents out.new) };
}
