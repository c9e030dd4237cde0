//! Why a broker's script was not read.
ghost use Rattle.std.specs.Prelude.{◌≡◌};
ghost use Rattle.broker_script.specs.declared.fault.BrokerScriptFault.TheVariants.{NoMemory as WantOfMemory};

use eden_base::NoMemory;
use std::alloc::AllocFailed;

/// A bad line, or no memory for what the lines say.
#[derive(Clone, Copy, Debug, PartialEq, Eq)]
pub enum BrokerScriptFault {
    /// The number of the first bad line, counted from 1.
    BadLine(usize),
    NoMemory,
}

impl From<NoMemory> for BrokerScriptFault {
    ghost from_gives = { λ _ fault. fault ≡ WantOfMemory };

    fn from(_refused: NoMemory) -> BrokerScriptFault {
        BrokerScriptFault::NoMemory
    }
}

impl<T: Drop> From<AllocFailed<T>> for BrokerScriptFault {
    ghost from_gives = { λ _ fault. fault ≡ WantOfMemory };

    fn from(_refused: AllocFailed<T>) -> BrokerScriptFault {
        BrokerScriptFault::NoMemory
    }
}
