//! Git, run in a repository.
ghost use Rattle.std.specs.Prelude.{◌≡◌, ◌∷◌, [], codes, IfOk, OnOk};
ghost use Rattle.std.specs.Process.{command_args, command_program};

use std::alloc::{AllocError, Global};
use std::io;
use std::process::{Command, Output, Processes, Stdio};

/// The variables by which an environment names a repository of its own, or a part of one (`git rev-parse
/// --local-env-vars`, but for its configuration). A hook of git has them, and its children.
const LOCAL: [&str; 12] = [
    "GIT_DIR",
    "GIT_WORK_TREE",
    "GIT_COMMON_DIR",
    "GIT_INDEX_FILE",
    "GIT_OBJECT_DIRECTORY",
    "GIT_ALTERNATE_OBJECT_DIRECTORIES",
    "GIT_NAMESPACE",
    "GIT_PREFIX",
    "GIT_GRAFT_FILE",
    "GIT_SHALLOW_FILE",
    "GIT_IMPLICIT_WORK_TREE",
    "GIT_REPLACE_REF_BASE",
];

/// Git in the repository at a path, as whoever started this process would run it there: with their configuration.
#[derive(Clone, Copy)]
pub struct GitCommand<'a> {
    pub repository: &'a str,
}

impl GitCommand<'_> {
    /// Runs git with `words` to its end, with no input, and returns what it printed on both of its streams.
    pub fn run<R: Processes>(&self, rt: &R, alloc: Global, words: &[&str]) -> io::Result<Output> {
        let mut command = self.command(alloc)?;
        for word in words {
            command.arg(*word)?;
        }
        set_environment(&mut command)?;
        command.stdin(Stdio::null());
        command.output(rt)
    }

    /// Returns the command of a process that answers questions for objects, for as long as it is asked. It has no streams
    /// yet. One `of_local` objects fetches none over a network that a partial clone lacks (git(1), `GIT_NO_LAZY_FETCH`).
    pub(crate) fn batch(&self, alloc: Global, of_local: bool) -> Result<Command, AllocError>
        ensures program { IfOk result (λ command. command_program command ≡ codes "git") }
        ensures words { IfOk result (λ command. command_args command ≡ codes "-C" ∷ self.now.repository.now
            ∷ codes "--no-replace-objects" ∷ codes "cat-file" ∷ codes "--batch" ∷ []) }
    {
        let mut command = self.command(alloc)?;
        command.arg("cat-file")?;
        command.arg("--batch")?;
        set_environment(&mut command)?;
        if of_local {
            command.env("GIT_NO_LAZY_FETCH", "1")?;
        }
        Ok(command)
    }

    /// Returns the command that runs git in the repository, without a word of what it does there. Objects that stand in for
    /// others (git-replace(1)) are left alone, since a tree has the sizes of those that it names.
    fn command(&self, alloc: Global) -> Result<Command, AllocError>
        ensures program { IfOk result (λ command. command_program command ≡ codes "git") }
        ensures words { IfOk result (λ command. command_args command ≡ codes "-C" ∷ self.now.repository.now
            ∷ codes "--no-replace-objects" ∷ []) }
    {
        let mut command = Command::new(alloc, "git")?;
        command.arg("-C")?;
        command.arg(self.repository)?;
        command.arg("--no-replace-objects")?;
        Ok(command)
    }
}

/// Takes the variables out of a command's environment that name another repository. Git asks nobody for a password, and
/// takes no lock.
fn set_environment(command: &mut Command) -> Result<(), AllocError>
    ensures program { OnOk result (command_program command.new ≡ command_program command.old) }
    ensures words { OnOk result (command_args command.new ≡ command_args command.old) }
{
    for name in LOCAL {
        command.env_remove(name)?;
    }
    command.env("GIT_TERMINAL_PROMPT", "0")?;
    command.env("GIT_OPTIONAL_LOCKS", "0")?;
    Ok(())
}
