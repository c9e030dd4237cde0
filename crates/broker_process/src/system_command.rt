//! A command of the system, which runs as a process of its own.
use std::alloc::Global;
use std::io;
use std::process::{Child, Command, Output, Processes, Stdio};

/// A command: its program, which is looked for where the system has programs, and its words.
#[derive(Clone, Copy)]
pub(crate) struct SystemCommand<'a> {
    pub program: &'a str,
    pub words: &'a [&'a str],
    /// Whether what it says on standard error is dropped, and not said on this process's own.
    pub is_quiet: bool,
}

impl SystemCommand<'_> {
    /// Runs the command to its end, and returns what it printed, with its status. It reads `input`.
    pub(crate) fn run<R: Processes>(
        &self,
        rt: &R,
        alloc: Global,
        input: Stdio,
    ) -> io::Result<Output> {
        let mut command = self.prepared(alloc, input)?;
        command.output(rt)
    }

    /// Runs the command to its end with no input, and returns whether it succeeded.
    pub(crate) fn succeeds<R: Processes>(&self, rt: &R, alloc: Global) -> io::Result<bool> {
        let output = self.run(rt, alloc, Stdio::null())?;
        Ok(output.status.success())
    }

    /// Starts the command, and doesn't wait for its end. It reads `input`, and what it prints is dropped.
    pub(crate) fn start<R: Processes>(
        &self,
        rt: &R,
        alloc: Global,
        input: Stdio,
    ) -> io::Result<Child<R::Started>> {
        let mut command = self.prepared(alloc, input)?;
        command.stdout(Stdio::null()).spawn(rt)
    }

    /// Makes the command, which reads `input`.
    fn prepared(&self, alloc: Global, input: Stdio) -> io::Result<Command> {
        let mut command = Command::new(alloc, self.program)?;
        command.args(self.words)?;
        command.stdin(input);
        command.stderr(self.errors());
        Ok(command)
    }

    /// Returns where goes what the command says on standard error.
    fn errors(&self) -> Stdio {
        if self.is_quiet {
            Stdio::null()
        } else {
            Stdio::inherit()
        }
    }
}
