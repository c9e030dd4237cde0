//! What a settled round leaves.
ghost use Rattle.std.specs.Prelude.{◌≡◌, vec_len, IfOk, IfErr, OnOk};
ghost use Rattle.journal.specs.Settled.{IsSettled};
ghost use Rattle.workers.specs.Faults.{GivesBack, GivesBuffers, IsUndrained};
ghost use Rattle.workers.specs.Buffers.{AreEmptied, buffers_of};

use crate::channel::Channel;
use crate::fault::RoundFault;
use crate::round::Round;
use crate::round_buffers::RoundBuffers;
use crate::round_state::RoundState;
use checkout::Backing;
use fuse_ops::Served;
use journal::is_settled;
use std::alloc::Global;

/// What may be served on after a settled round: no worker has an ask in hand, and every reply is posted.
#[derive(Drop)]
pub struct Settled<B: Backing + Drop, C: Channel + Drop> {
    pub buffers: RoundBuffers,
    pub served: Served,
    pub backing: B,
    pub channels: Vec<C>,
}

/// Compares the workers' receipts with the journal. If the round is settled, returns the served state, the backing, the
/// channels and the emptied buffers. Else returns Unsettled, and drops all of these.
pub fn drain<B: Backing + Drop, C: Channel + Drop>(
    alloc: Global,
    round: Round<B, C>,
) -> Result<Settled<B, C>, RoundFault<B, C>>
    ensures settled { OnOk result (IsSettled round.journal.records round.receipts.items) }
    ensures undrained { IfErr result (IsUndrained round.journal.records round.receipts.items) }
    ensures served { IfOk result (λ settled. settled.served ≡ round.served) }
    ensures backing { IfOk result (λ settled. settled.backing ≡ round.backing) }
    ensures channels { IfOk result (λ settled. settled.channels.items ≡ round.channels.items) }
    ensures buffers { IfOk result (λ settled. AreEmptied
        (buffers_of round.journal round.receipts.items (vec_len round.receipts)) settled.buffers) }
    ensures given_back { IfErr result (GivesBack round.served round.backing round.channels.items) }
    ensures buffers_back { IfErr result (GivesBuffers
        (buffers_of round.journal round.receipts.items (vec_len round.receipts))) }
{
    match is_settled(alloc, &round.journal, round.receipts.as_slice()) {
        Ok(true) => Ok(settled_by(round)),
        Ok(false) => {
            drop(round);
            Err(RoundFault::Unsettled)
        }
        Err(_refused) => Err(RoundFault::NoMemory(served_by(round))),
    }
}

/// Returns what a settled round leaves.
fn settled_by<B: Backing + Drop, C: Channel + Drop>(round: Round<B, C>) -> Settled<B, C>
    ensures served { result.served ≡ round.served }
    ensures backing { result.backing ≡ round.backing }
    ensures channels { result.channels.items ≡ round.channels.items }
    ensures buffers { AreEmptied
        (buffers_of round.journal round.receipts.items (vec_len round.receipts)) result.buffers }
{
    let RoundState {
        buffers,
        served,
        backing,
        channels,
    } = served_by(round);
    Settled {
        buffers,
        served,
        backing,
        channels,
    }
}

/// Gives back what a round served, and its buffers.
fn served_by<B: Backing + Drop, C: Channel + Drop>(round: Round<B, C>) -> RoundState<B, C>
    ensures served { result.served ≡ round.served }
    ensures backing { result.backing ≡ round.backing }
    ensures channels { result.channels.items ≡ round.channels.items }
    ensures buffers { AreEmptied
        (buffers_of round.journal round.receipts.items (vec_len round.receipts)) result.buffers }
{
    let Round {
        served,
        backing,
        channels,
        journal,
        receipts,
    } = round;
    let buffers = RoundBuffers::emptied(journal, receipts);
    RoundState {
        buffers,
        served,
        backing,
        channels,
    }
}
