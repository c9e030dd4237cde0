//! The files of a commit, by processes of git.
ghost use Rattle.std.specs.Prelude.{IfErr, IfOk, ⊤};
ghost use Rattle.git_blobs.specs.Reading.{IsTreeFault, IsTreeOf};

use crate::commit_tree::read_tree;
use crate::git::Git;
use crate::tree_fault::TreeFault;
use git_objects::GitCommand;
use git_tree::GitTree;
use non_blocking::Notes;
use std::alloc::Global;
use std::io;
use std::process::{Output, Processes};
use std::sync::Wait;

/// How many lines of what git says of a failure are said again at most.
const MOST_LINES: usize = 8;

/// A repository whose files are read.
#[derive(Drop)]
pub struct TreeReader<'a, R> {
    pub rt: &'a R,
    pub alloc: Global,
    /// The path of the repository.
    pub repository: &'a str,
    /// By these it says what git says of a failure.
    pub notes: &'a Notes,
}

impl<R: Processes + Wait> TreeReader<'_, R> {
    /// Reads the files of the commit that `revision` names (gitrevisions(7)).
    pub fn read(&self, revision: &str) -> Result<GitTree, TreeFault>
        ensures tree { IfOk result (IsTreeOf (λ _ _. ⊤) revision.now) }
        ensures fault { IfErr result (IsTreeFault (λ _ _. ⊤) revision.now) }
    {
        let tree = read_tree(self, self.alloc, revision);
        if let Err(TreeFault::BadTree(fault)) = &tree {
            self.notes.say(self.rt, format_args!("git: {fault}"));
        }
        tree
    }

    /// Says what git said of a failure.
    fn say(&self, output: &Output) {
        let Ok(text) = String::from_utf8_lossy(self.alloc, output.stderr.as_slice()) else {
            return;
        };
        for line in text.as_str().lines().take(MOST_LINES) {
            if !line.is_empty() {
                self.notes.say(self.rt, format_args!("git: {line}"));
            }
        }
    }
}

/// Which words a process of the system answers how is unknown before they are read.
impl<R: Processes + Wait> Git for TreeReader<'_, R> {
    ghost answers = { λ _ _ _. ⊤ };

    /// Runs git in the repository. Of a failure it says what git says.
    fn ask(&self, words: &[&str]) -> io::Result<Option<Vec<u8>>> {
        let git = GitCommand {
            repository: self.repository,
        };
        let output = git.run(self.rt, self.alloc, words)?;
        if output.status.success() {
            return Ok(Some(output.stdout));
        }
        self.say(&output);
        Ok(None)
    }
}
