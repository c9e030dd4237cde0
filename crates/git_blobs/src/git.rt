//! Git, which is asked for a commit's files.
ghost use Rattle.std.specs.Prelude.{ℕ, List, Option, map, IfOk};
ghost use Rattle.std.specs.Option.{option_map};

use std::io;

/// Git in a repository. Each implementation says by `answers` what git answers to which words.
pub trait Git {
    /// Relates words to what git prints, or to none where it fails.
    ghost answers: { Self → List (List ℕ) → Option (List ℕ) → Type 0 };

    /// Asks git, and returns what it prints, or none where it fails.
    fn ask(&self, words: &[&str]) -> io::Result<Option<Vec<u8>>>
        ensures answers { IfOk result (λ printed. answers self.now (map (λ word. word.now) words.now)
            (option_map (λ bytes. bytes.items) printed)) };
}
