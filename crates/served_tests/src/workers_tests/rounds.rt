//! Rounds of two channels, and what these rounds leave, as counts.
ghost use Rattle.std.specs.Prelude.{◌≡◌, ◌≤◌, IfErr, IfOk};
ghost use Rattle.workers.specs.Faults.{GivesBack};

use crate::listed::LISTED;
use checkout::{Backing, ManifestBacking};
use eden_base::{NoMemory, Number};
use fuse_ops::Served;
use fuse_wire::{Ask, Request};
use manifest::Manifest;
use std::alloc::Global;
use std::mem::replace;
use std::sync::Wait;
use std::thread::Threads;
use workers::{
    Channel, Hook, MAX_CHANNELS, MemoryChannel, Receipt, Receipts, Round, RoundBuffers, RoundFault,
    RoundOptions, RoundState, Settled, drain, serve_round,
};

/// Makes a channel with a GETATTR of the root for each of `uniques`.
pub(crate) fn channel(alloc: Global, uniques: &[u64]) -> Result<MemoryChannel, NoMemory> {
    let mut asks = Vec::new(alloc);
    for unique in uniques {
        asks.push(Ask {
            unique: *unique,
            what: Request::Getattr { node: Number::ROOT },
        })?;
    }
    MemoryChannel::new(alloc, asks)
}

/// Begins to serve `manifest`.
pub(crate) fn begun(alloc: Global, manifest: &Manifest) -> Result<Served, NoMemory>
    ensures over { IfOk result (λ served. served.tree.manifest ≡ manifest.now) }
{
    Served::new(alloc, manifest, 4)
}

/// What is done to the first worker's receipts before a round is drained.
#[derive(Clone, Copy)]
pub enum Change {
    None,
    /// The last receipt is taken out.
    TakeOut,
    /// The first two receipts are exchanged.
    Exchange,
}

/// What a round left: the count of its records, the index in its journal of each worker's first receipt, how many asks
/// the first channel gave and how many replies it got, and whether the round is settled.
#[derive(Clone, Copy, PartialEq, Eq)]
pub struct RoundSummary {
    pub records: usize,
    pub first: Option<usize>,
    pub second: Option<usize>,
    pub taken: usize,
    pub replies: usize,
    pub is_settled: bool,
}

/// Returns the index in the journal of the first receipt of `worker`, or none.
fn first_place(receipts: &[Receipts], worker: usize) -> Option<usize> {
    let kept = receipts.get(worker)?;
    let receipt = kept.as_slice().first()?;
    Some(receipt.position)
}

/// Makes `change` in `list`, and returns whether it has enough receipts for that.
fn is_changed(list: &mut Vec<Receipt>, change: Change) -> bool {
    match change {
        Change::None => true,
        Change::TakeOut => list.pop().is_some(),
        Change::Exchange => {
            let is_enough = list.len() >= 2;
            if is_enough {
                list.swap(0, 1);
            }
            is_enough
        }
    }
}

/// Makes `change` in the receipts of the first worker, and returns whether there are enough of them.
fn is_first_changed(alloc: Global, workers: &mut Vec<Receipts>, change: Change) -> bool {
    let Some(kept) = workers.get_mut(0) else {
        return false;
    };
    let mut list = replace(kept, Receipts::of(alloc, Vec::new(alloc))).into_list();
    let so = is_changed(&mut list, change);
    drop(replace(kept, Receipts::of(alloc, list)));
    so
}

/// Returns what `round` left, but with `is_settled` false.
fn numbers_of(round: &Round<ManifestBacking<'_>, MemoryChannel>) -> Option<RoundSummary> {
    let channel = round.channels.as_slice().first()?;
    Some(RoundSummary {
        records: round.journal.records().len(),
        first: first_place(round.receipts.as_slice(), 0),
        second: first_place(round.receipts.as_slice(), 1),
        taken: channel.taken(),
        replies: channel.replies().len(),
        is_settled: false,
    })
}

/// Returns the parts of `settled` as the state of the next round.
pub(crate) fn state_of<B: Backing + Drop, C: Channel + Drop>(
    settled: Settled<B, C>,
) -> RoundState<B, C>
    ensures served { result.served ≡ settled.served }
{
    let Settled {
        buffers,
        served,
        backing,
        channels,
    } = settled;
    RoundState {
        buffers,
        served,
        backing,
        channels,
    }
}

/// Drains `round`, and returns whether it was settled, or none if memory was refused.
pub(crate) fn is_settled(
    alloc: Global,
    round: Round<ManifestBacking<'_>, MemoryChannel>,
) -> Option<bool> {
    match drain(alloc, round) {
        Ok(settled) => {
            drop(state_of(settled));
            Some(true)
        }
        Err(RoundFault::Unsettled) => Some(false),
        Err(refused) => {
            drop(refused);
            None
        }
    }
}

/// Returns what `round` left. Whether the round is settled is looked at after `change` is made in the first worker's
/// receipts.
fn summary_of(
    alloc: Global,
    round: Round<ManifestBacking<'_>, MemoryChannel>,
    change: Change,
) -> Option<RoundSummary> {
    let mut round = round;
    let summary = numbers_of(&round);
    let is_changed = is_first_changed(alloc, &mut round.receipts, change);
    let is_settled = is_settled(alloc, round);
    match (summary, is_settled) {
        (Some(summary), Some(is_settled)) if is_changed => Some(RoundSummary {
            is_settled,
            ..summary
        }),
        _ => None,
    }
}

/// Serves a round over `state`, with `manifest` as the backing. Drops all and returns Unsettled if there is no channel,
/// or more than 16.
pub(crate) fn serve_state<'a, C: Channel + Drop + Send, G: Hook + Sync, R: Threads + Wait + Sync>(
    rt: &R,
    alloc: Global,
    manifest: &'a Manifest,
    state: RoundState<ManifestBacking<'a>, C>,
    options: &RoundOptions<'_, G>,
) -> Result<Round<ManifestBacking<'a>, C>, RoundFault<ManifestBacking<'a>, C>>
    requires over { state.served.tree.manifest ≡ manifest.now }
    requires turns { (1 ≤ options.now.turns) × (options.now.turns ≤ 4096) }
    ensures over { IfOk result (λ round. round.served.tree.manifest ≡ manifest.now) }
    ensures given_back { IfErr result (GivesBack state.entry.served manifest.now state.entry.channels.items) }
{
    if state.channels.is_empty() || state.channels.len() > MAX_CHANNELS {
        drop(state);
        return Err(RoundFault::Unsettled);
    }
    let RoundState {
        buffers,
        served,
        backing,
        channels,
    } = state;
    drop(backing);
    let state = RoundState {
        buffers,
        served,
        backing: ManifestBacking::of(manifest),
        channels,
    };
    serve_round(rt, alloc, state, options)
}

/// Begins to serve `manifest`, and serves a round over `channels` in new buffers. If memory was refused, serves the
/// round once more with all that was given back. Returns Unsettled if memory was refused before the round.
pub(crate) fn serve<'a, C: Channel + Drop + Send, G: Hook + Sync, R: Threads + Wait + Sync>(
    rt: &R,
    alloc: Global,
    manifest: &'a Manifest,
    channels: Vec<C>,
    options: &RoundOptions<'_, G>,
) -> Result<Round<ManifestBacking<'a>, C>, RoundFault<ManifestBacking<'a>, C>>
    requires turns { (1 ≤ options.now.turns) × (options.now.turns ≤ 4096) }
{
    let Ok(served) = begun(alloc, manifest) else {
        drop(channels);
        return Err(RoundFault::Unsettled);
    };
    let new = RoundState {
        buffers: RoundBuffers::new(alloc),
        served,
        backing: ManifestBacking::of(manifest),
        channels,
    };
    match serve_state(rt, alloc, manifest, new, options) {
        Err(RoundFault::NoMemory(state)) => serve_state(rt, alloc, manifest, state, options),
        served => served,
    }
}

/// The uniques of the asks of two channels, and what is done to the first worker's receipts before their round is
/// drained.
#[derive(Clone, Copy)]
pub struct TwoChannels<'a> {
    pub first: &'a [u64],
    pub second: &'a [u64],
    pub change: Change,
}

/// Makes two channels, with asks of the uniques `first` and `second`.
fn two_channels(
    alloc: Global,
    first: &[u64],
    second: &[u64],
) -> Result<Vec<MemoryChannel>, NoMemory> {
    let mut channels = Vec::with_capacity(alloc, 2)?;
    channels.push_reserved(channel(alloc, first)?);
    channels.push_reserved(channel(alloc, second)?);
    Ok(channels)
}

/// Returns what the round of `left` left, by `summary_of`.
fn summary_by(
    alloc: Global,
    left: Result<
        Round<ManifestBacking<'_>, MemoryChannel>,
        RoundFault<ManifestBacking<'_>, MemoryChannel>,
    >,
    change: Change,
) -> Option<RoundSummary> {
    match left {
        Ok(round) => summary_of(alloc, round, change),
        Err(fault) => {
            drop(fault);
            None
        }
    }
}

/// Serves a round over the two channels of `row`, and returns what the round left.
pub(crate) fn round<G: Hook + Sync, R: Threads + Wait + Sync>(
    rt: &R,
    alloc: Global,
    row: &TwoChannels<'_>,
    options: &RoundOptions<'_, G>,
) -> Option<RoundSummary>
    requires turns { (1 ≤ options.now.turns) × (options.now.turns ≤ 4096) }
{
    let Ok(manifest) = Manifest::read(alloc, LISTED) else {
        return None;
    };
    let summary = match two_channels(alloc, row.first, row.second) {
        Ok(channels) => {
            let left = serve(rt, alloc, &manifest, channels, options);
            summary_by(alloc, left, row.change)
        }
        Err(NoMemory) => None,
    };
    drop(manifest);
    summary
}

/// Calls `round`, and once more if the first call returned none.
pub(crate) fn round_again<G: Hook + Sync, R: Threads + Wait + Sync>(
    rt: &R,
    alloc: Global,
    row: &TwoChannels<'_>,
    options: &RoundOptions<'_, G>,
) -> Option<RoundSummary>
    requires turns { (1 ≤ options.now.turns) × (options.now.turns ≤ 4096) }
{
    match round(rt, alloc, row, options) {
        Some(summary) => Some(summary),
        None => round(rt, alloc, row, options),
    }
}
