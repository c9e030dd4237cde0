//! A script of what happens to a mount and its daemons: it is read, run, and printed line by line. Also the program,
//! which does what the words of the command line ask for.
#![tactic(auto)]

mod command_handler;
mod complaint;
mod failure;
mod input;
mod process;
mod program;
mod program_end;
mod program_fault;
mod run;
mod run_error;
mod script;
mod sources;

pub use command_handler::CommandHandler;
pub use command_line::{
    BrokerWords, DEFAULT_LIMIT, DaemonWords, MountWords, Owner, ServerCommand, StartMode,
};
pub use failure::{Cause, Failure, STANDARD_OUTPUT};
pub use input::read_manifest;
pub use process::{Process, RunIn, end_command, end_ungathered, gather_lines, run_process};
pub use program::{run_program, run_words};
pub use program_end::ProgramEnd;
pub use program_fault::{ProgramFault, write_fault};
pub use run::{run_script, run_world};
pub use run_error::RunError;
pub use sources::{Sources, System, read_path, run_path};
