//! The program: it runs a script of what happens to a mount and its daemons, or is itself the broker or a daemon.
#![tactic(auto)]

mod commands;
mod host;
mod note;
mod streams;

use crate::commands::run_edend;
use crate::host::Host;
use crate::streams::{announce, reserve_numbers};
use non_blocking::Unblock;
use std::process::ExitCode;
use world_script::{STANDARD_OUTPUT, System};
pub use world_script::{DEFAULT_LIMIT, ProgramFault, run_world};

fn main(rt: HostRuntime) -> ExitCode {
    let _reserved = reserve_numbers(&rt);
    announce(&rt, &rt.stdin(), rt.stderr());
    let system = System {
        host: &rt,
        output: rt.stdout(),
        errors: rt.stderr(),
    };
    let mut ran = run_edend(&rt, rt.alloc(), &Host { system }, rt.stdin());
    if let Some(loss) = ran.output.finish() {
        ran.errors
            .print(format_args!("edend: {STANDARD_OUTPUT}: {loss}"));
    }
    let _said = ran.errors.finish();
    ExitCode::from(ran.status)
}
