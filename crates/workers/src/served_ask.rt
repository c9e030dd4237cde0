//! One request served under the map's lock. `serve_one` is public for its contract.
ghost use Rattle.std.specs.Prelude.{◌≡◌, ◌+◌, ◌<◌, ◌++◌, ◌∷◌, [], length};
ghost use Rattle.eden_base.specs.declared.number.FileId.{FileId};
ghost use Rattle.fuse_ops.specs.Loading.{AsksAs, Backs, FailsAs, Loads};
ghost use Rattle.fuse_ops.specs.Served.{Replay};
ghost use Rattle.journal.specs.Journal.{applied};
ghost use Rattle.workers.specs.Owned.{StandsForIt};

use checkout::Backing;
use fuse_ops::Served;
use fuse_wire::{Answer, Ask};
use journal::{Journal, Record};
use std::alloc::Global;

/// The result of a turn: the index of its record in the journal, and the answer. A forget has no answer.
#[derive(Drop)]
pub struct ServedAsk {
    pub position: usize,
    pub answer: Option<Answer>,
}

/// Serves one ask, and appends its request and the answer to the journal.
pub fn serve_one<B: Backing>(
    alloc: Global,
    served: &mut Served,
    journal: &mut Journal,
    backing: &mut B,
    ask: Ask,
) -> ServedAsk
    requires backs { Backs (B.content backing.old) served.old.tree }
    requires room { 0 < journal.old.room }
    ensures position { result.position ≡ length journal.old.records }
    ensures pushes { journal.new.records ≡ journal.old.records ++ applied ask.what result.answer ∷ [] }
    ensures room { journal.new.room + 1 ≡ journal.old.room }
    // The answer is that of `apply`.
    ensures replay { Replay served.old ask.what result.answer served.new }
    ensures loads { Loads served.old.map ask.what result.answer served.new.map }
    ensures fails { FailsAs result.answer (B.failed backing.old) (B.failed backing.new) }
    ensures asks { AsksAs served.old ask.what result.answer (B.will_answer backing.old) }
    ensures same_content { (file : FileId) → B.content backing.new file ≡ B.content backing.old file }
    ensures same_manifest { served.new.tree.manifest ≡ served.old.tree.manifest }
{
    let position = journal.records().len();
    let (answer, noted) = twice(alloc, served.apply(alloc, backing, &ask.what));
    journal.push(Record {
        request: ask.what,
        answer: noted,
    });
    ServedAsk { position, answer }
}

/// Returns an answer twice, if there is one, as `Answer::twice` does.
fn twice(alloc: Global, answer: Option<Answer>) -> (Option<Answer>, Option<Answer>)
    ensures first { StandsForIt answer result.0 }
    ensures second { result.1 ≡ result.0 }
{
    match answer {
        Some(answer) => {
            let (first, second) = answer.twice(alloc);
            (Some(first), Some(second))
        }
        None => (None, None),
    }
}
