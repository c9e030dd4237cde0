//! A broker's script: how its lines are read, begun at the broker's desk, waited for and printed.
#![tactic(auto)]

mod awaited;
mod fault;
mod line;
mod print;
mod script;

pub use awaited::{Awaited, Came, look};
pub use fault::BrokerScriptFault;
pub use line::{BegunLine, begin};
pub use print::{print_begun, print_came, print_held};
pub use script::read_broker_script;
pub use script_lines::BrokerLine;
