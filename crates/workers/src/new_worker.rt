//! Workers before their first turn.
ghost use Rattle.std.specs.Prelude.{◌≡◌, ◌+◌, ◌*◌, ◌≤◌, vec_len};
ghost use Rattle.std.specs.List.{All};
ghost use Rattle.journal.specs.Receipts.{IsFresh};

use crate::channel::Channel;
use crate::locked::Opening;
use journal::Receipts;
use std::sync::ledger::Share;

/// What one worker begins with: its channel, receipts with room for its turns, how many turns it may have, and its
/// share of the round's ledger.
#[derive(Drop)]
pub struct NewWorker<N: Opening, C: Channel + Drop> {
    pub channel: C,
    pub receipts: Receipts,
    pub turns: usize,
    pub share: Share<N>,
}

/// What the workers of a round begin with: their channels and receipts, how many turns each may have, and the share of
/// the ledger from which their shares are split off.
#[derive(Drop)]
pub(crate) struct NewWorkers<N: Opening, C: Channel + Drop> {
    pub channels: Vec<C>,
    pub receipts: Vec<Receipts>,
    pub turns: usize,
    pub share: Share<N>,
    ghost named: { turns ≡ N.turns },
    ghost most: { turns ≤ 4096 },
    ghost parts: { share.parts ≡ vec_len channels * (N.turns + 1) },
    ghost no_amount: { share.amount ≡ 0 },
    ghost len: { vec_len receipts ≡ vec_len channels },
    ghost fresh: { All (IsFresh turns) receipts.items },
}
