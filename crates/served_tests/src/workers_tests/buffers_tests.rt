//! Rounds one after another in the same buffers. Their asks have the longest names and batches.
ghost use Rattle.std.specs.Prelude.{◌≡◌, IfOk, IfSome};

use super::rounds::{begun, serve_state, state_of};
use crate::again::manifest_of;
use crate::listed::LISTED;
use checkout::ManifestBacking;
use eden_base::{Name, NoMemory, Number};
use fuse_wire::{Ask, Batch, Item, Reply, Request};
use manifest::Manifest;
use std::alloc::Global;
use std::sync::Wait;
use std::thread::Threads;
use workers::{
    Channel, NextAsk, NoHook, Posted, Round, RoundBuffers, RoundFault, RoundOptions, RoundState,
    Stop, drain,
};

/// How many asks each channel gives.
const ASKS: u64 = 40;

static LONGEST: [u8; 255] = [b'n'; 255];

/// A channel that takes no memory. It gives the last ask of its list first.
#[derive(Drop)]
struct Given {
    asks: Vec<Ask>,
    replies: u64,
}

impl Channel for Given {
    ghost use Rattle.std.specs.Prelude.{false, [], ⊤};

    ghost takes = { λ _ _ _. ⊤ };

    ghost posts = { λ _ _ _ _. ⊤ };

    ghost reports = { false };

    ghost reported = { λ channel. record { taken = []; posted = [] } };

    fn take(&mut self) -> NextAsk {
        match self.asks.pop() {
            Some(ask) => NextAsk::Ask(ask),
            None => NextAsk::Empty,
        }
    }

    fn post(&mut self, _reply: &Reply, _takes_next: bool) -> Posted {
        self.replies = self.replies.saturating_add(1);
        Posted::Done
    }
}

/// Makes a batch of 256 items.
fn longest_batch(alloc: Global) -> Result<Batch, NoMemory> {
    let items = [Item {
        node: Number(9),
        k: 1,
    }; 256];
    Batch::of(alloc, &items)
}

/// Makes the request of the ask `unique`: the longest batch if `unique` is odd, else a LOOKUP of the longest name. A copy of
/// either takes memory.
fn longest(alloc: Global, unique: u64) -> Result<Request, NoMemory> {
    if unique % 2 == 1 {
        return Ok(Request::BatchForget(longest_batch(alloc)?));
    }
    match Name::parse(alloc, &LONGEST) {
        Ok(name) => Ok(Request::Lookup {
            dir: Number::ROOT,
            name,
        }),
        Err(_refused) => Err(NoMemory),
    }
}

/// Makes a channel of 40 asks by `longest`. Half of them have a reply.
fn longest_channel(alloc: Global) -> Result<Given, NoMemory> {
    let mut asks = Vec::new(alloc);
    for unique in 0..ASKS {
        let what = longest(alloc, unique)?;
        asks.push(Ask { unique, what })?;
    }
    Ok(Given { asks, replies: 0 })
}

/// Makes two channels by `longest_channel`.
fn two(alloc: Global) -> Result<Vec<Given>, NoMemory> {
    let mut channels = Vec::with_capacity(alloc, 2)?;
    channels.push_reserved(longest_channel(alloc)?);
    channels.push_reserved(longest_channel(alloc)?);
    Ok(channels)
}

/// The state between two rounds.
type Between<'a> = RoundState<ManifestBacking<'a>, Given>;

/// Begins to serve `manifest` over the two channels of `two`, in new buffers.
fn begin<'a>(alloc: Global, manifest: &'a Manifest) -> Result<Between<'a>, NoMemory>
    ensures over { IfOk result (λ between. between.served.tree.manifest ≡ manifest.now) }
{
    let served = begun(alloc, manifest)?;
    match two(alloc) {
        Ok(channels) => Ok(RoundState {
            buffers: RoundBuffers::new(alloc),
            served,
            backing: ManifestBacking::of(manifest),
            channels,
        }),
        Err(NoMemory) => {
            drop(served);
            Err(NoMemory)
        }
    }
}

/// Drains `round`, and returns what is settled. If memory was refused, returns what was given back instead.
fn drained(alloc: Global, round: Round<ManifestBacking<'_>, Given>) -> Option<Between<'_>>
    ensures served { IfSome result (λ between. between.served ≡ round.entry.served) }
{
    match drain(alloc, round) {
        Ok(settled) => Some(state_of(settled)),
        Err(RoundFault::NoMemory(back)) => Some(back),
        Err(_other) => None,
    }
}

/// Serves a round of 64 turns and drains it. If memory was refused, returns what was given back instead.
fn next<'a, R: Threads + Wait + Sync>(
    rt: &R,
    alloc: Global,
    manifest: &'a Manifest,
    between: Between<'a>,
) -> Option<Between<'a>>
    requires over { between.served.tree.manifest ≡ manifest.now }
    ensures over { IfSome result (λ after. after.served.tree.manifest ≡ manifest.now) }
{
    let stop = Stop::new();
    let options = RoundOptions {
        turns: 64,
        hook: &NoHook,
        stop: &stop,
    };
    match serve_state(rt, alloc, manifest, between, &options) {
        Ok(round) => drained(alloc, round),
        Err(RoundFault::NoMemory(back)) => Some(back),
        Err(_other) => None,
    }
}

/// Serves `rounds` rounds one after another. Returns what they leave, or none if memory was refused at first.
fn after<'a, R: Threads + Wait + Sync>(
    rt: &R,
    alloc: Global,
    manifest: &'a Manifest,
    rounds: usize,
) -> Option<Between<'a>> {
    let mut between = begin(alloc, manifest).ok();
    for _round in 0..rounds {
        between = match between {
            Some(between) => next(rt, alloc, manifest, between),
            None => None,
        };
    }
    between
}

/// Returns whether each channel gave all its asks, and took replies to half of them.
fn are_done(channels: &[Given]) -> bool {
    let mut so = true;
    for one in channels {
        so = so && one.asks.is_empty() && one.replies == ASKS / 2;
    }
    so
}

/// Rows: channels, turns, and whether they fit in the buffers that a round of two channels and 64 turns left.
static FITS: [(usize, usize, bool); 6] = [
    (2, 64, true),
    (2, 63, true),
    (2, 1, true),
    (2, 65, false),
    (1, 64, false),
    (3, 64, false),
];

/// Returns whether `fit` of `buffers` answers as each of `rows` says.
fn are_fit(buffers: &RoundBuffers, rows: &[(usize, usize, bool)]) -> bool {
    let mut so = true;
    for (channels, turns, fits) in rows {
        so = so
            && *channels >= 1
            && *channels <= 16
            && *turns <= 4096
            && buffers.fit(*channels, *turns) == *fits;
    }
    so
}

/// Serves `rounds` rounds one after another. Returns whether they take all asks, and leave buffers as `FITS` says.
fn take_all<R: Threads + Wait + Sync>(
    rt: &R,
    alloc: Global,
    manifest: &Manifest,
    rounds: usize,
) -> Option<bool> {
    let between = after(rt, alloc, manifest, rounds);
    let are_taken = match &between {
        Some(between) => Some(are_done(&between.channels) && are_fit(&between.buffers, &FITS)),
        None => None,
    };
    drop(between);
    are_taken
}

/// Returns whether one round takes all asks if memory suffices: then no worker stops because memory for a copy was
/// refused. Two rounds have to take all also if one allocation is refused: a worker that stops loses no ask, and the
/// next round takes the rest.
fn all_are_taken<R: Threads + Wait + Sync>(rt: &R, alloc: Global) -> bool {
    let Ok(manifest) = manifest_of(alloc, LISTED) else {
        return false;
    };
    let at_once = take_all(rt, alloc, &manifest, 1) == Some(true)
        || take_all(rt, alloc, &manifest, 1) == Some(true);
    let in_two = match take_all(rt, alloc, &manifest, 2) {
        None => take_all(rt, alloc, &manifest, 2),
        taken => taken,
    };
    drop(manifest);
    at_once && in_two == Some(true)
}

#[test]
fn rounds_in_the_same_buffers_take_the_longest_asks(rt: HostRuntime) {
    let taken = all_are_taken(&rt, rt.alloc());
    assert!(rt; taken);
}
