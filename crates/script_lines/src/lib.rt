//! The lines of scripts: how a line is read, and what its event prints.
#![tactic(auto)]

mod broker_line;
mod decimal;
mod event_line;
mod lines;
mod listing;
mod print;
mod sums;
mod under_way;

pub use broker_line::{BrokerLine, read_broker_line};
pub use decimal::number;
pub use event_line::read_event;
pub use lines::first_line;
pub use print::{print_asked, print_event, print_numbered, print_refusal, print_reply};
