//! Why a broker ended before its script or its mount did.
ghost use Rattle.std.specs.Prelude.{◌≡◌};
ghost use Rattle.broker_process.specs.declared.fault.MountRunFault.TheVariants.{NoMemory as OutOfMemory};

use std::alloc::AllocError;
use std::io;

/// Why a broker ended before its script did, with the system's error that caused it.
#[derive(Clone, Copy)]
pub enum BrokerFault {
    /// The socket can't be listened at.
    CannotListen(io::Error),
    NoMemory,
    /// No thread could be made in which connections are taken.
    NoThread,
    /// What happened could not be printed.
    CannotWrite(io::Error),
}

/// Why a broker over a real mount ended before somebody unmounted, with the system's error that caused it.
#[derive(Clone, Copy)]
pub enum MountRunFault {
    /// The socket can't be listened at.
    CannotListen(io::Error),
    NoMemory,
    /// No thread could be made in which connections are taken or replies are written.
    NoThread,
    /// The file in which it is noted what the kernel holds can't be made.
    NoLog(io::Error),
    /// The device can't be opened.
    NoDevice(io::Error),
    /// The command that mounts can't be run, or failed.
    CannotMount(io::Error),
    /// The device can't be read any more.
    Broken(io::Error),
}

impl From<AllocError> for MountRunFault {
    ghost from_gives = { λ _ fault. fault ≡ OutOfMemory };

    fn from(_refused: AllocError) -> MountRunFault {
        MountRunFault::NoMemory
    }
}
