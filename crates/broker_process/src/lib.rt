//! The broker as a process: a desk behind a Unix socket, and who plays the kernel, a script or a real mount.
#![tactic(auto)]

mod accept_loop;
mod broker;
mod broker_socket;
mod connection_handle;
mod connections;
mod context;
mod control;
mod delivery;
mod device;
mod fault;
mod held_takes;
mod mount;
mod reply_write;
mod script;
mod service;
mod shared_desk;
mod system_command;
mod unmounter;

pub use broker::{BrokerRun, run_broker};
pub use device::DEVICE;
pub use fault::{BrokerFault, MountRunFault};
pub use mount::{MountOptions, MountRun, run_mount};
