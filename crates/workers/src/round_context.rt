//! What the workers of a round share.
use crate::locked::{Opening, Shared};
use crate::stop::Stop;
use checkout::Backing;

/// What the workers of a round share: the map's lock, the calls around each turn, and the flag that asks them to end.
#[derive(Drop)]
pub struct RoundContext<'a, N: Opening, B: Backing + Drop, G> {
    pub shared: &'a Shared<N, B>,
    pub hook: &'a G,
    pub stop: &'a Stop,
}
