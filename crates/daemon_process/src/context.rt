//! What the functions of a daemon hand on.
use crate::contents::Contents;
use crate::shared::Shared;
use std::alloc::Global;

/// The host and the allocator of a daemon, what its threads share, and the contents that it serves.
#[derive(Drop)]
pub(crate) struct DaemonContext<'a, R> {
    pub(crate) rt: &'a R,
    pub(crate) alloc: Global,
    pub(crate) shared: &'a Shared,
    pub(crate) contents: &'a Contents<'a, R>,
}
