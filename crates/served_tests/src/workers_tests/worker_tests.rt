//! One worker, under a lock that the test makes.
ghost use Rattle.std.specs.Prelude.{◌≡◌, ◌<◌, ◌≤◌, [], true};
ghost use Rattle.fuse_ops.specs.Loading.{Backs};

use super::rounds::{begun, channel};
use crate::again::manifest_of;
use crate::listed::LISTED;
use checkout::{Backing, ManifestBacking};
use eden_base::NoMemory;
use fuse_ops::Served;
use manifest::Manifest;
use std::alloc::Global;
use std::marker::Brand;
use std::sync::Wait;
use std::sync::ledger::Blank;
use workers::{
    EndedWorker, Journal, LockedMap, MemoryChannel, NewWorker, NoHook, Opened, Opening, Receipts,
    RoundContext, Shared, Stop, WorkerEnd, serve_channel,
};

/// What one worker serves, and what it works in.
#[derive(Drop)]
struct LoneWorker<B: Drop> {
    served: Served,
    backing: B,
    channel: MemoryChannel,
    journal: Journal,
    receipts: Receipts,
}

/// Opens a round of one worker with two turns, over a channel of three asks. Returns whether just two asks are taken,
/// answered and journaled.
fn takes_two<N: Opening, B: Backing + Drop, R: Wait>(
    rt: &R,
    alloc: Global,
    blank: Blank,
    lone: LoneWorker<B>,
) -> bool
    requires name { blank.name ≡ N.name }
    requires parts { (blank.parts ≡ N.parts) × (N.parts ≡ 3) }
    requires opening { lone.served ≡ N.opening }
    requires backs { Backs (B.content lone.backing) lone.served.tree }
    requires journal { (lone.journal.records ≡ []) × (lone.journal.room ≡ 2) }
    requires receipts { (lone.receipts.list ≡ []) × (lone.receipts.places ≡ 2) × (lone.receipts.spare ≡ true) }
{
    let LoneWorker {
        served,
        backing,
        channel,
        journal,
        receipts,
    } = lone;
    let Opened { shared, share } = LockedMap::<N, B>::open(alloc, blank, served, backing, journal);
    let given = NewWorker {
        channel,
        receipts,
        turns: 2,
        share,
    };
    let ended = serve_alone(rt, &shared, given);
    let parts = shared.into_inner().into_parts();
    let records = parts.journal.records().len();
    drop(parts);
    let took = ended.ending == WorkerEnd::Done
        && ended.receipts.as_slice().len() == 2
        && ended.channel.taken() == 2
        && ended.channel.replies().len() == 2;
    drop(ended);
    took && records == 2
}

/// Serves the channel of `given` without a hook, and asks for no stop.
fn serve_alone<N: Opening, B: Backing + Drop, R: Wait>(
    rt: &R,
    shared: &Shared<N, B>,
    given: NewWorker<N, MemoryChannel>,
) -> EndedWorker<N, MemoryChannel>
    requires parts { given.turns < given.share.parts }
    requires no_receipt { given.receipts.list ≡ [] }
    requires places { given.turns ≤ given.receipts.places }
    requires spare { given.receipts.spare ≡ true }
{
    let stop = Stop::new();
    let round = RoundContext {
        shared,
        hook: &NoHook,
        stop: &stop,
    };
    serve_channel(rt, &round, given)
}

/// Calls `takes_two` with a new daemon and a channel of three asks.
fn serves_alone<R: Wait>(rt: &R, alloc: Global, manifest: &Manifest) -> Result<bool, NoMemory> {
    let journal = Journal::new(alloc, 2)?;
    let receipts = Receipts::new(alloc, 2)?;
    let channel = channel(alloc, &[1, 2, 3])?;
    let served = begun(alloc, manifest)?;
    let lone = LoneWorker {
        served,
        backing: ManifestBacking::of(manifest),
        channel,
        journal,
        receipts,
    };
    Ok(takes_two::<Brand, ManifestBacking<'_>, R>(rt, alloc, Blank::new(3), lone))
}

/// Calls `serves_alone`, and returns whether it succeeds.
fn is_served_alone<R: Wait>(rt: &R, alloc: Global) -> bool {
    let Ok(manifest) = manifest_of(alloc, LISTED) else {
        return false;
    };
    let so = matches!(serves_alone(rt, alloc, &manifest), Ok(true));
    drop(manifest);
    so
}

#[test]
fn a_worker_serves_under_a_lock_of_its_own(rt: HostRuntime) {
    let so = is_served_alone(&rt, rt.alloc());
    assert!(rt; so);
}
