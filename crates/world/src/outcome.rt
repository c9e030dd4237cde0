//! The outcome of one event.
ghost use Rattle.std.specs.Prelude.{◌≡◌, ◌<◌, ◌++◌, [], ◌∷◌, length};
ghost use Rattle.daemon.specs.Refusals.{is_made, told_begun};

use arrayvec::ArrayVec;
use daemon::{Begun, Happened};
use std::marker::Model;

/// What happened at one event, in order: at most five things, as a `do` consists of five events.
#[derive(Drop)]
pub struct Outcome {
    happened: ArrayVec<Happened, 5>,
}

impl Model for Outcome {
    ghost use Rattle.std.specs.Prelude.{List};
    ghost use Rattle.daemon.specs.declared.happened.Happened.{Happened};

    ghost Value = { List Happened };

    ghost view = { λ o. o.happened.items };
}

impl Outcome {
    /// Makes an empty outcome.
    pub fn nothing() -> Outcome
        ensures nothing { result ≡ [] }
    {
        Outcome {
            happened: ArrayVec::new(),
        }
    }

    /// Empties the outcome.
    pub(crate) fn clear(&mut self)
        ensures nothing { self.new ≡ [] }
    {
        self.happened.clear();
    }

    /// Appends `happened`.
    pub(crate) fn tell(&mut self, happened: Happened)
        requires room { length self.old < 5 }
        ensures told { self.new ≡ self.old ++ happened ∷ [] }
    {
        self.happened.push(happened);
    }

    /// Appends `happened`, and returns whether the event was made.
    pub(crate) fn add(&mut self, happened: Happened) -> bool
        requires room { length self.old < 5 }
        ensures added { self.new ≡ self.old ++ happened ∷ [] }
        ensures made { result ≡ is_made happened }
    {
        let is_made = happened.is_made();
        self.tell(happened);
        is_made
    }

    /// Appends the result of an issue, and the result of the take after it if the request was issued.
    pub(crate) fn tell_begun(&mut self, begun: Begun)
        requires nothing { self.old ≡ [] }
        ensures told { self.new ≡ told_begun begun }
    {
        match begun {
            Begun::Refused(refusal) => self.tell(Happened::Refused(refusal)),
            Begun::Issued { unique, taken } => {
                self.tell(Happened::Asked(unique));
                self.tell(taken);
            }
        }
    }

    /// Returns what happened, in order.
    pub fn happened(&self) -> &[Happened]
        ensures happened { result.now ≡ self.now }
    {
        self.happened.as_slice()
    }
}
