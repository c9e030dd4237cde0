//! How the workers of a round are run.
use crate::stop::Stop;

/// How the workers of a round are run: how many turns each may have, the calls around each turn, and the flag that asks
/// all of them to end.
#[derive(Drop)]
pub struct RoundOptions<'a, G> {
    pub turns: usize,
    pub hook: &'a G,
    pub stop: &'a Stop,
}
