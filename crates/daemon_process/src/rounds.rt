//! Rounds of workers over what a daemon serves.
ghost use Rattle.std.specs.Prelude.{◌≡◌, ◌≤◌, vec_len, IfOk, IfErr, OnErr};
ghost use Rattle.journal.specs.Settled.{IsSettled};
ghost use Rattle.workers.specs.Round.{AreLeft};
ghost use Rattle.daemon_process.specs.Ending.{exit_of_broken, is_over};
ghost use Rattle.daemon_process.specs.Rounds.{EndsRound, EndsService, exit_of, one_ended, one_is_over};
ghost use Rattle.daemon_process.specs.declared.exit.Exit.TheVariants.{Faulty};
ghost use Rattle.daemon_process.specs.declared.fault.DaemonFault.TheVariants.{Broken};

use crate::channel_end::ChannelEnd;
use crate::exit::Exit;
use crate::fault::DaemonFault;
use broker_core::TakeFault;
use checkout::{Backing, ManifestBacking};
use daemon::Lease;
use fuse_ops::Served;
use manifest::Manifest;
use std::alloc::Global;
use std::sync::Wait;
use std::thread::Threads;
use workers::{
    Channel, MAX_CHANNELS, NoHook, Round, RoundBuffers, RoundFault, RoundOptions, RoundState, Stop,
    drain, serve_round,
};

/// The most requests that a round serves of one worker.
const TURNS: usize = 64;

/// What a round is served with, and what it leaves: its lease, its channels, and the buffers that it works in.
#[derive(Drop)]
pub(crate) struct RoundParts<C: Channel + Drop> {
    pub(crate) lease: Lease,
    pub(crate) channels: Vec<C>,
    pub(crate) buffers: RoundBuffers,
}

/// The parts of a round, with the served state in place of the lease.
#[derive(Drop)]
struct ServedParts<C: Channel + Drop> {
    buffers: RoundBuffers,
    served: Served,
    channels: Vec<C>,
}

/// Serves a round over `lease`, and returns the lease with what else the round leaves. If memory is refused, the round
/// took no ask. Without a channel, or with more than 16, no round is served.
pub(crate) fn serve_one<C: Channel + ChannelEnd + Drop + Send, R: Threads + Wait + Sync>(
    rt: &R,
    alloc: Global,
    parts: RoundParts<C>,
    stop: &Stop,
) -> Result<RoundParts<C>, Exit>
    ensures left { IfOk result (λ left. AreLeft C.takes C.posts 64 parts.channels.items left.channels.items) }
    ensures ends { IfErr result (EndsService C.takes C.posts C.reports C.reported C.why_ended
        (vec_len parts.channels) parts.channels.items) }
{
    let RoundParts {
        lease,
        channels,
        buffers,
    } = parts;
    if channels.is_empty() || channels.len() > MAX_CHANNELS {
        return Err(Exit::Faulty(DaemonFault::Broken));
    }
    let Lease {
        generation,
        manifest,
        served,
    } = lease;
    let served = ServedParts {
        buffers,
        served,
        channels,
    };
    match serve_over(rt, alloc, served, &manifest, stop) {
        Ok(back) => Ok(left_by(generation, manifest, back)),
        Err(exit) => Err(exit),
    }
}

/// Returns what a round leaves, over its manifest.
fn left_by<C: Channel + Drop>(
    generation: u64,
    manifest: Manifest,
    back: ServedParts<C>,
) -> RoundParts<C>
    requires over { back.served.tree.manifest ≡ manifest }
    ensures channels { result.channels.items ≡ back.channels.items }
{
    let ServedParts {
        buffers,
        served,
        channels,
    } = back;
    let lease = Lease {
        generation,
        manifest,
        served,
    };
    RoundParts {
        lease,
        channels,
        buffers,
    }
}

/// Serves a round over a manifest's checkout. Where the round breaks, the channels that come back decide how the daemon
/// ends.
fn serve_over<C: Channel + ChannelEnd + Drop + Send, R: Threads + Wait + Sync>(
    rt: &R,
    alloc: Global,
    parts: ServedParts<C>,
    manifest: &Manifest,
    stop: &Stop,
) -> Result<ServedParts<C>, Exit>
    requires channels { (1 ≤ vec_len parts.channels) × (vec_len parts.channels ≤ 16) }
    requires over { parts.served.tree.manifest ≡ manifest.now }
    ensures over { IfOk result (λ back. back.served.tree.manifest ≡ manifest.now) }
    ensures left { IfOk result (λ back. AreLeft C.takes C.posts 64 parts.channels.items back.channels.items) }
    ensures ends { IfErr result (EndsRound C.takes C.posts C.reports C.reported C.why_ended parts.channels.items) }
{
    let ServedParts {
        buffers,
        served,
        channels,
    } = parts;
    let backing = ManifestBacking::of(manifest);
    let state = RoundState {
        buffers,
        served,
        backing,
        channels,
    };
    let options = RoundOptions {
        turns: TURNS,
        hook: &NoHook,
        stop,
    };
    match serve_round(rt, alloc, state, &options) {
        Ok(round) => settle(alloc, round),
        Err(RoundFault::NoMemory(back)) => Ok(back_of(back)),
        Err(RoundFault::Broken(left)) => Err(exit_of_broken(one_is_over(left.as_slice()))),
        Err(RoundFault::Unsettled) => unreachable!(),
    }
}

/// Returns what was given back as memory was refused, but for the backing.
fn back_of<B: Backing + Drop, C: Channel + Drop>(back: RoundState<B, C>) -> ServedParts<C>
    ensures served { result.served ≡ back.served }
    ensures channels { result.channels.items ≡ back.channels.items }
{
    let RoundState {
        buffers,
        served,
        backing: _,
        channels,
    } = back;
    ServedParts {
        buffers,
        served,
        channels,
    }
}

/// Returns how a daemon ends whose round broke, by whether the broker said that the mount is over.
pub(crate) fn exit_of_broken(is_over: bool) -> Exit
    ensures exit { result ≡ exit_of_broken is_over }
{
    if is_over {
        Exit::Ended
    } else {
        Exit::Faulty(DaemonFault::Broken)
    }
}

/// Returns whether the broker said to one of these channels that the mount is over.
pub(crate) fn one_is_over<C: ChannelEnd>(channels: &[C]) -> bool
    ensures exact { result ≡ one_is_over C.why_ended channels.now }
{
    channels.iter().any(|channel| is_over(channel.ended()))
}

/// Returns whether the broker said that the mount is over, by why it has no more for a channel.
fn is_over(why: Option<TakeFault>) -> bool
    ensures exact { result ≡ is_over why }
{
    matches!(why, Some(TakeFault::Ended))
}

/// Compares a round's receipts with its journal, and returns what the round leaves. If memory for that is refused,
/// they are not compared: each worker ended well, so each reply was posted.
fn settle<B: Backing + Drop, C: Channel + Drop>(
    alloc: Global,
    round: Round<B, C>,
) -> Result<ServedParts<C>, Exit>
    ensures served { IfOk result (λ back. back.served ≡ round.served) }
    ensures channels { IfOk result (λ back. back.channels.items ≡ round.channels.items) }
    ensures unsettled { OnErr result (IsSettled round.journal.records round.receipts.items → ⊥) }
    ensures faulty { IfErr result (λ exit. exit ≡ Faulty Broken) }
{
    match drain(alloc, round) {
        Ok(settled) => Ok(ServedParts {
            buffers: settled.buffers,
            served: settled.served,
            channels: settled.channels,
        }),
        Err(RoundFault::NoMemory(back)) => Ok(back_of(back)),
        Err(RoundFault::Unsettled) => Err(Exit::Faulty(DaemonFault::Broken)),
        Err(RoundFault::Broken(_left)) => unreachable!(),
    }
}

/// Returns the exit of a daemon whose round ended well, if the broker has no more for one of its channels.
pub(crate) fn exit_of<C: ChannelEnd>(channels: &[C]) -> Option<Exit>
    ensures exit { result ≡ exit_of C.why_ended channels.now }
{
    if one_is_over(channels) {
        return Some(Exit::Ended);
    }
    if one_ended(channels) {
        return Some(Exit::Faulty(DaemonFault::Broken));
    }
    None
}

/// Returns whether the broker has no more for one of these channels.
fn one_ended<C: ChannelEnd>(channels: &[C]) -> bool
    ensures exact { result ≡ one_ended C.why_ended channels.now }
{
    channels.iter().any(|channel| channel.ended().is_some())
}
