//! What a round is served over.
use crate::round_buffers::RoundBuffers;
use fuse_ops::Served;

/// What a round is served over: the memory that it works in, what is served, its backing, and a channel for each
/// worker. If memory is refused, `serve_round` gives back what it was handed, having taken no request, and `drain` what
/// it would leave.
#[derive(Drop)]
pub struct RoundState<B: Drop, C: Drop> {
    pub buffers: RoundBuffers,
    pub served: Served,
    pub backing: B,
    pub channels: Vec<C>,
}
