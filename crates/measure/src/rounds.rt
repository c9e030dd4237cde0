//! Serves rounds of workers one after another, so that the instructions and the time of one round can be counted:
//! `measure rounds WORKERS ASKS ROUNDS [times]`. Each worker may take 64 requests a round, and finds ASKS asks.
ghost use Rattle.std.specs.Prelude.{◌≡◌, vec_len, IfOk, IfSome};

use crate::figures::Figures;
use crate::lines::{manifest_from, manifest_text};
use crate::words::number_at;
use checkout::ManifestBacking;
use eden_base::{NoMemory, Number};
use fuse_ops::Served;
use fuse_wire::{Ask, Reply, Request};
use manifest::Manifest;
use std::alloc::Global;
use std::rt::Clock;
use std::sync::Wait;
use std::thread::Threads;
use std::time::Duration;
use workers::{
    Channel, MAX_CHANNELS, NextAsk, NoHook, Posted, Round, RoundBuffers, RoundOptions, RoundState,
    Settled, Stop, drain, serve_round,
};

/// The most requests that a worker takes in a round.
const TURNS: usize = 64;

const LOADED_LIMIT: usize = 64;

/// A channel from which `left` more asks can be taken, each for the root's attributes. It takes no memory.
#[derive(Drop)]
struct Rooted {
    left: u64,
    posted: u64,
}

impl Channel for Rooted {
    ghost use Rattle.std.specs.Prelude.{false, [], ⊤};

    ghost takes = { λ _ _ _. ⊤ };

    ghost posts = { λ _ _ _ _. ⊤ };

    ghost reports = { false };

    ghost reported = { λ channel. record { taken = []; posted = [] } };

    fn take(&mut self) -> NextAsk {
        if self.left == 0 {
            return NextAsk::Empty;
        }
        self.left -= 1;
        NextAsk::Ask(Ask {
            unique: self.left,
            what: Request::Getattr { node: Number::ROOT },
        })
    }

    fn post(&mut self, _reply: &Reply, _takes_next: bool) -> Posted {
        self.posted = self.posted.wrapping_add(1);
        Posted::Done
    }
}

/// The state between two rounds.
type Between<'a> = Settled<ManifestBacking<'a>, Rooted>;

/// Returns a channel for each worker.
fn channels_of(alloc: Global, workers: usize) -> Result<Vec<Rooted>, NoMemory> {
    let mut channels = Vec::new(alloc);
    for _worker in 0..workers {
        channels.push(Rooted { left: 0, posted: 0 })?;
    }
    Ok(channels)
}

/// Returns the state before the first round over `manifest`.
fn begin<'a>(alloc: Global, manifest: &'a Manifest, workers: usize) -> Result<Between<'a>, NoMemory>
    ensures over { IfOk result (λ between. between.served.tree.manifest ≡ manifest.now) }
{
    let channels = channels_of(alloc, workers)?;
    let served = Served::new(alloc, manifest, LOADED_LIMIT)?;
    Ok(Settled {
        buffers: RoundBuffers::new(alloc),
        served,
        backing: ManifestBacking::of(manifest),
        channels,
    })
}

/// Gives each channel `asks` asks.
fn ask(channels: &mut Vec<Rooted>, asks: u64) {
    for channel in channels.iter_mut() {
        channel.left = asks;
    }
}

/// Drains a round. Returns none if the round is not settled.
fn drained(alloc: Global, round: Round<ManifestBacking<'_>, Rooted>) -> Option<Between<'_>>
    ensures served { IfSome result (λ between. between.served ≡ round.entry.served) }
{
    match drain(alloc, round) {
        Ok(settled) => Some(settled),
        Err(_fault) => None,
    }
}

/// Serves a round and drains it. Returns none where the round could not be served or is not settled.
fn next<'a, R: Threads + Wait + Sync>(
    rt: &R,
    alloc: Global,
    manifest: &'a Manifest,
    between: Between<'a>,
    asks: u64,
) -> Option<Between<'a>>
    requires over { between.served.tree.manifest ≡ manifest.now }
    ensures over { IfSome result (λ after. after.served.tree.manifest ≡ manifest.now) }
{
    let Settled {
        buffers,
        served,
        backing,
        mut channels,
    } = between;
    drop(backing);
    ask(&mut channels, asks);
    if channels.is_empty() || channels.len() > MAX_CHANNELS {
        drop(buffers);
        drop(served);
        drop(channels);
        return None;
    }
    let state = RoundState {
        buffers,
        served,
        backing: ManifestBacking::of(manifest),
        channels,
    };
    let stop = Stop::new();
    let options = RoundOptions {
        turns: TURNS,
        hook: &NoHook,
        stop: &stop,
    };
    match serve_round(rt, alloc, state, &options) {
        Ok(round) => drained(alloc, round),
        Err(_fault) => None,
    }
}

/// How many workers and rounds there are, and how many asks each worker finds in a round.
#[derive(Clone, Copy)]
struct Counts {
    workers: u32,
    asks: u32,
    rounds: u32,
}

/// Serves the rounds that `counts` says, one after another. Returns none where a round could not be served or is not
/// settled.
fn serve_rounds<'a, R: Threads + Wait + Sync>(
    rt: &R,
    alloc: Global,
    manifest: &'a Manifest,
    begun: Between<'a>,
    counts: Counts,
) -> Option<Between<'a>>
    requires over { begun.served.tree.manifest ≡ manifest.now }
{
    let mut between = begun;
    for _round in 0..counts.rounds {
        between = next(rt, alloc, manifest, between, u64::from(counts.asks))?;
    }
    Some(between)
}

/// Returns how many replies were posted to all channels.
fn posted(channels: &[Rooted]) -> u64 {
    let mut all = 0u64;
    for channel in channels {
        all = all.wrapping_add(channel.posted);
    }
    all
}

/// Returns the nanoseconds between two moments, divided by `rounds`.
fn each_between(started: Duration, ended: Duration, rounds: u32) -> u64 {
    let spent = ended.saturating_sub(started);
    let nanos = spent
        .as_secs()
        .saturating_mul(1_000_000_000)
        .saturating_add(u64::from(spent.subsec_nanos()));
    nanos / u64::from(rounds.max(1))
}

/// Serves rounds over `manifest`, as many as `counts` says. Returns how many replies were posted, and the nanoseconds
/// of a round.
fn measured_by<R: Threads + Wait + Clock + Sync>(
    rt: &R,
    alloc: Global,
    manifest: &Manifest,
    counts: Counts,
) -> Result<Option<(u64, u64)>, NoMemory> {
    let begun = begin(alloc, manifest, counts.workers as usize)?;
    let started = rt.monotonic().unwrap_or(Duration::ZERO);
    let Some(ended) = serve_rounds(rt, alloc, manifest, begun, counts) else {
        return Ok(None);
    };
    let now = rt.monotonic().unwrap_or(Duration::ZERO);
    let replies = posted(ended.channels.as_slice());
    drop(ended);
    Ok(Some((replies, each_between(started, now, counts.rounds))))
}

/// Measures rounds of workers, as `words` say.
pub(crate) fn measure<R: Threads + Wait + Clock + Sync>(
    rt: &R,
    alloc: Global,
    words: &[&str],
) -> Result<Option<Figures>, NoMemory> {
    let (Some(workers), Some(asks)) = (number_at(words, 0), number_at(words, 1)) else {
        return Ok(None);
    };
    let Some(rounds) = number_at(words, 2) else {
        return Ok(None);
    };
    let times = matches!(words.get(3), Some(&"times"));
    let manifest = manifest_from(alloc, manifest_text(alloc, 1, 10)?)?;
    let counts = Counts {
        workers,
        asks,
        rounds,
    };
    let measured = measured_by(rt, alloc, &manifest, counts);
    drop(manifest);
    Ok(match measured? {
        None => None,
        Some((replies, _nanos)) if !times => Some(Figures::of(&["replies"], &[replies])),
        Some((replies, nanos)) => Some(Figures::of(&["replies", "round"], &[replies, nanos])),
    })
}
