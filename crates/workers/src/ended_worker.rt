//! What a worker leaves after its turns. `serve_channel` is public for its contract.
ghost use Rattle.std.specs.Prelude.{◌≡◌, ◌+◌, ◌<◌, ◌≤◌, true, Some, [], length};
ghost use Rattle.workers.specs.Endings.{Ends, LeavesSpare, Reports};

use crate::channel::Channel;
use crate::hook::Hook;
use crate::locked::Opening;
use crate::new_worker::NewWorker;
use crate::round_context::RoundContext;
use crate::worker::{Worker, WorkerEnd};
use checkout::Backing;
use journal::Receipts;
use std::sync::Wait;
use std::sync::ledger::Share;

/// What a worker leaves: its channel, its receipts, its share of the round's ledger, and why it took nothing more.
#[derive(Drop)]
pub struct EndedWorker<N: Opening, C: Channel + Drop> {
    pub channel: C,
    pub receipts: Receipts,
    pub share: Share<N>,
    pub ending: WorkerEnd,
}

/// Takes asks from a worker's channel, at most `given.turns`, serves each under the map's lock and posts its reply.
/// Ends if there is no ask, a stop is asked for, or the spare room of `given.receipts` is used. Where a channel was told that an
/// ask is taken next, one is, also where a stop is asked for meanwhile. Each turn leaves one
/// part of `given.share` under the lock, and never the last. The contract says nothing of the state under the lock.
pub fn serve_channel<N: Opening, B: Backing + Drop, C: Channel + Drop, G: Hook, R: Wait>(
    rt: &R,
    round: &RoundContext<'_, N, B, G>,
    given: NewWorker<N, C>,
) -> EndedWorker<N, C>
    requires parts { given.turns < given.share.parts }
    requires no_receipt { given.receipts.list ≡ [] }
    requires places { given.turns ≤ given.receipts.places }
    requires spare { given.receipts.spare ≡ true }
    ensures parts { result.share.parts + length result.receipts.list ≡ given.share.parts }
    ensures most { length result.receipts.list ≤ given.turns }
    ensures counted { result.share.amount ≡ given.share.amount + length result.receipts.list }
    ensures places { result.receipts.places + length result.receipts.list ≡ given.receipts.places }
    // The ending is OutOfMemory exactly if the spare room is used and the channel is not Broken.
    ensures spare { LeavesSpare (Some result.ending) result.receipts.spare }
    // The ending is Broken exactly if the channel was.
    ensures ends { Ends C.takes C.posts given.channel result.receipts.list result.ending result.channel }
    // If the worker ends well, the asks that it took are those of its receipts in order, and what it posted are their
    // answers.
    ensures reported { Reports C.reports result.ending (C.reported given.channel) (C.reported result.channel)
        result.receipts.list }
{
    let NewWorker {
        channel,
        receipts,
        turns,
        share,
    } = given;
    let mut worker: Worker<N, C> = Worker {
        channel,
        receipts,
        share,
    };
    let mut takes_next = false;
    for turn in 0..turns {
        if !takes_next && round.stop.asked() {
            return worker.end(WorkerEnd::Done);
        }
        takes_next = turn + 1 < turns && !round.stop.asked();
        match worker.turn(rt, round.shared, round.hook, takes_next) {
            None => {}
            Some(ending) => return worker.end(ending),
        }
    }
    worker.end(WorkerEnd::Done)
}
