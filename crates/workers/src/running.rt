//! The workers of a round while they run, each in its own thread if one can be made.
ghost use Rattle.std.specs.Prelude.{◌≡◌, ◌+◌, ◌*◌, ◌<◌, ◌≤◌, ◌++◌, ◌∷◌, ◌⊎◌, [], true, false, length, vec_len, vec_capacity};
ghost use Rattle.std.specs.List.{All};
ghost use Rattle.journal.specs.Receipts.{IsFresh};
ghost use Rattle.workers.specs.Buffers.{HasPlaces};
ghost use Rattle.workers.specs.Round.{AreLeft, AreServed, OneBreaks, receipts_in};
ghost use Rattle.workers.specs.Endings.{HasWorked};
ghost use Rattle.workers.specs.declared.worker.WorkerEnd.TheVariants.{Broken};

use crate::channel::Channel;
use crate::ended_worker::{EndedWorker, serve_channel};
use crate::hook::Hook;
use crate::locked::Opening;
use crate::new_worker::{NewWorker, NewWorkers};
use crate::round_context::RoundContext;
use crate::worker::WorkerEnd;
use checkout::Backing;
use journal::Receipts;
use std::marker::{Model, PhantomData};
use std::snapshot::Snapshot;
use std::sync::Wait;
use std::sync::ledger::Share;
use std::thread::{Promise, PromisedHandle, Scope, Threads};

/// What a worker promises when it starts: it serves the channel that it is handed, and counts its receipts in its
/// share.
#[derive(Drop)]
pub(crate) struct Serves<N: Opening, C: Channel + Drop> {
    channel: Snapshot<C>,
    of: PhantomData<N>,
}

impl<N: Opening, C: Channel + Drop> Promise<EndedWorker<N, C>> for Serves<N, C> {
    ghost use Rattle.std.specs.Prelude.{◌≡◌, ◌+◌, length};
    ghost use Rattle.workers.specs.Buffers.{HasPlaces};
    ghost use Rattle.workers.specs.Endings.{HasWorked};

    ghost kept_by = { λ promise ended. (ended.share.parts + length ended.receipts.list ≡ N.turns + 1)
        × (ended.share.amount ≡ length ended.receipts.list)
        × HasPlaces N.turns ended.receipts
        × HasWorked C.takes C.posts C.reports C.reported N.turns
        promise.channel.value ended.receipts ended.ending ended.channel };
}

/// A worker in a thread, or what the worker left if no thread was made for it. Contracts see the channel that the
/// worker was handed.
#[derive(Drop)]
pub(crate) struct Running<N: Opening, C: Channel + Drop> {
    channel: Snapshot<C>,
    worker: Result<PromisedHandle<EndedWorker<N, C>, Serves<N, C>>, EndedWorker<N, C>>,
}

impl<N: Opening, C: Channel + Drop> Model for Running<N, C> {
    ghost use Rattle.std.specs.Prelude.{◌≡◌, ◌+◌, length, IfOk, IfErr};
    ghost use Rattle.workers.specs.Buffers.{HasPlaces};
    ghost use Rattle.workers.specs.Endings.{HasWorked};

    ghost Value = { C };

    ghost view = { λ running. running.channel.value };

    ghost invariant = { λ running.
        IfOk running.worker (λ handle. handle.promise.channel.value ≡ running.channel.value)
        × IfErr running.worker (λ ended. (ended.share.parts + length ended.receipts.list ≡ N.turns + 1)
        × (ended.share.amount ≡ length ended.receipts.list)
        × HasPlaces N.turns ended.receipts
        × HasWorked C.takes C.posts C.reports C.reported N.turns
        running.channel.value ended.receipts ended.ending ended.channel) };
}

/// What the workers of a round left, in the order of their channels.
#[derive(Drop)]
pub(crate) struct Joined<N: Opening, C: Channel + Drop> {
    pub channels: Vec<C>,
    pub receipts: Vec<Receipts>,
    pub share: Share<N>,
    pub is_broken: bool,
}

/// Starts a worker in its own thread. If the worker is `alone`, or no thread can be made, it runs in the caller's
/// thread.
fn start<
    's,
    'e: 's,
    N: Opening + Send + Sync + 's,
    B: Backing + Drop + Send + 's,
    C: Channel + Drop + Send + 's,
    G: Hook + Sync + 's,
    R: Threads + Wait + Sync + 's,
>(
    scope: &Scope<'s, &'e ()>,
    rt: &'e R,
    round: &'e RoundContext<'e, N, B, G>,
    given: NewWorker<N, C>,
    alone: bool,
) -> Running<N, C>
    requires turns { given.turns ≡ N.turns }
    requires parts { given.share.parts ≡ N.turns + 1 }
    requires no_amount { given.share.amount ≡ 0 }
    requires no_receipt { given.receipts.list ≡ [] }
    requires places { given.turns ≤ given.receipts.places }
    requires spare { given.receipts.spare ≡ true }
    ensures channel { result ≡ given.channel }
{
    let was = Snapshot::of(&given.channel);
    let promise: Serves<N, C> = Serves {
        channel: Snapshot::of(&given.channel),
        of: PhantomData,
    };
    let work = move || -> EndedWorker<N, C>
        requires turns { given.turns ≡ N.turns }
        requires parts { given.share.parts ≡ N.turns + 1 }
        requires no_receipt { given.receipts.list ≡ [] }
        requires places { given.turns ≤ given.receipts.places }
        requires spare { given.receipts.spare ≡ true }
        ensures parts { result.share.parts + length result.receipts.list ≡ given.share.parts }
        ensures counted { result.share.amount ≡ given.share.amount + length result.receipts.list }
        ensures places { HasPlaces N.turns result.receipts }
        ensures worked { HasWorked C.takes C.posts C.reports C.reported N.turns
            given.channel result.receipts result.ending result.channel }
    { serve_channel(rt, round, given) };
    if alone {
        return Running {
            channel: was,
            worker: Err(work()),
        };
    }
    match scope.spawn_with(promise, work) {
        Ok(handle) => Running {
            channel: was,
            worker: Ok(handle),
        },
        Err(refused) => Running {
            channel: was,
            worker: Err((refused.value)()),
        },
    }
}

impl<N: Opening, C: Channel + Drop> Running<N, C> {
    /// Waits until the worker is done, and returns what it left.
    fn join<R: Threads>(self, rt: &R) -> EndedWorker<N, C>
        ensures parts { result.share.parts + length result.receipts.list ≡ N.turns + 1 }
        ensures counted { result.share.amount ≡ length result.receipts.list }
        ensures places { HasPlaces N.turns result.receipts }
        ensures worked { HasWorked C.takes C.posts C.reports C.reported N.turns
            self result.receipts result.ending result.channel }
    {
        let Running { channel: _, worker } = self;
        match worker {
            Ok(handle) => handle.join(rt),
            Err(ended) => ended,
        }
    }
}

impl<N: Opening, C: Channel + Drop> Joined<N, C> {
    /// Returns what the workers left, together with what one more worker left, whose channel comes after theirs.
    fn and(self, ended: EndedWorker<N, C>) -> Joined<N, C>
        requires channels { vec_len self.channels < vec_capacity self.channels }
        requires receipts { vec_len self.receipts < vec_capacity self.receipts }
        ensures channels { result.channels.items ≡ self.channels.items ++ ended.channel ∷ [] }
        ensures receipts { result.receipts.items ≡ self.receipts.items ++ ended.receipts ∷ [] }
        ensures channels_len { vec_len result.channels ≡ vec_len self.channels + 1 }
        ensures receipts_len { vec_len result.receipts ≡ vec_len self.receipts + 1 }
        ensures channels_capacity { vec_capacity result.channels ≡ vec_capacity self.channels }
        ensures receipts_capacity { vec_capacity result.receipts ≡ vec_capacity self.receipts }
        ensures parts { result.share.parts ≡ self.share.parts + ended.share.parts }
        ensures amount { result.share.amount ≡ self.share.amount + ended.share.amount }
        ensures broken { result.is_broken ≡ true → (self.is_broken ≡ true) ⊎ (ended.ending ≡ Broken) }
        ensures well { result.is_broken ≡ false → (self.is_broken ≡ false) × (ended.ending ≡ Broken → ⊥) }
    {
        let Joined {
            mut channels,
            mut receipts,
            mut share,
            is_broken,
        } = self;
        let broke = matches!(ended.ending, WorkerEnd::Broken);
        channels.push_reserved(ended.channel);
        receipts.push_reserved(ended.receipts);
        share.merge(ended.share);
        Joined {
            channels,
            receipts,
            share,
            is_broken: is_broken || broke,
        }
    }
}

/// Runs a worker for each channel, side by side, and waits until all are done. The worker of the first channel runs in
/// the caller's thread. Takes no memory: each list is emptied from its end, and filled again in the same memory.
pub(crate) fn serve_each<
    's,
    'e: 's,
    N: Opening + Send + Sync + 's,
    B: Backing + Drop + Send + 's,
    C: Channel + Drop + Send + 's,
    G: Hook + Sync + 's,
    R: Threads + Wait + Sync + 's,
>(
    scope: &Scope<'s, &'e ()>,
    rt: &'e R,
    round: &'e RoundContext<'e, N, B, G>,
    workers: NewWorkers<N, C>,
) -> Joined<N, C>
    ensures parts { result.share.parts + receipts_in result.receipts.items
        ≡ vec_len workers.channels * (N.turns + 1) }
    ensures counted { result.share.amount ≡ receipts_in result.receipts.items }
    ensures served { result.is_broken ≡ false → AreServed C.takes C.posts C.reports C.reported N.turns
        workers.channels.items result.channels.items result.receipts.items }
    ensures left { AreLeft C.takes C.posts N.turns workers.channels.items result.channels.items }
    ensures broken { result.is_broken ≡ true → OneBreaks C.takes C.posts N.turns
        workers.channels.items result.channels.items }
    ensures places { All (HasPlaces N.turns) result.receipts.items }
    ensures channels_len { vec_len result.channels ≡ vec_len workers.channels }
    ensures receipts_len { vec_len result.receipts ≡ vec_len workers.channels }
    ensures channels_capacity { vec_capacity result.channels ≡ vec_capacity workers.channels }
    ensures receipts_capacity { vec_capacity result.receipts ≡ vec_capacity workers.receipts }
{
    let NewWorkers {
        mut channels,
        mut receipts,
        turns,
        mut share,
    } = workers;
    let Some(channel) = channels.pop() else {
        return Joined {
            channels,
            receipts,
            share,
            is_broken: false,
        };
    };
    let Some(kept) = receipts.pop() else {
        unreachable!()
    };
    let part = share.split_off(turns as u64 + 1, 0);
    let alone = channels.is_empty();
    let given = NewWorker {
        channel,
        receipts: kept,
        turns,
        share: part,
    };
    let running = start(scope, rt, round, given, alone);
    let others = NewWorkers {
        channels,
        receipts,
        turns,
        share,
    };
    let joined = serve_each(scope, rt, round, others);
    joined.and(running.join(rt))
}
