//! What the functions of a broker hand on.
use crate::shared_desk::SharedDesk;
use std::alloc::Global;

/// The host and the allocator of a broker, and what its threads share.
#[derive(Drop)]
pub(crate) struct BrokerContext<'a, R> {
    pub rt: &'a R,
    pub alloc: Global,
    pub shared: &'a SharedDesk,
}
