//! Why a round fails.
ghost use Rattle.std.specs.Prelude.{Some};
ghost use Rattle.workers.specs.Faults.{fault_text};

use crate::round_state::RoundState;
use std::fmt;

/// Why a round failed. Only `NoMemory` gives back what may be served on. The texts are written by hand, since a derived
/// `Error` asks for `Debug` of all that is given back.
#[derive(Drop)]
pub enum RoundFault<B: Drop, C: Drop> {
    /// A channel was broken. The channels are given back in their order, each as its worker left it.
    Broken(Vec<C>),
    /// The receipts of the workers are not those of the journal.
    Unsettled,
    NoMemory(RoundState<B, C>),
}

impl<B: Drop, C: Drop> fmt::Display for RoundFault<B, C> {
    ghost output = { λ fault. Some (fault_text fault) };

    fn fmt<W: fmt::Write>(&self, f: &mut fmt::Formatter<W>) -> fmt::Result {
        f.write_str(match self {
            RoundFault::Broken(_left) => "the mount is over",
            RoundFault::Unsettled => "the receipts of the workers are not those of the journal",
            RoundFault::NoMemory(_back) => "out of memory",
        })
    }
}
