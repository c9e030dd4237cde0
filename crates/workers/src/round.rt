//! One round of workers.
ghost use Rattle.std.specs.Prelude.{◌≡◌, ◌+◌, ◌*◌, ◌≤◌, true, false, length, vec_len};
ghost use Rattle.std.specs.Prelude.{IfOk, IfErr, OnOk, OnErr};
ghost use Rattle.std.specs.List.{All};
ghost use Rattle.fuse_ops.specs.Loading.{Backs};
ghost use Rattle.workers.specs.Replays.{Replays};
ghost use Rattle.workers.specs.Round.{AreServed, OneBreaks, receipts_in};
ghost use Rattle.workers.specs.Buffers.{Fit, HasPlaces, HaveRoom, buffers_of};
ghost use Rattle.workers.specs.Faults.{GivesBack, IsBroken, IsUnserved, WasNeeded};
ghost use Rattle.workers.specs.declared.fault.RoundFault.TheVariants as fault;

use crate::channel::Channel;
use crate::fault::RoundFault;
use crate::hook::Hook;
use crate::locked::{LockedMap, Opened, Opening, Parts};
use crate::new_worker::NewWorkers;
use crate::round_context::RoundContext;
use crate::round_options::RoundOptions;
use crate::round_state::RoundState;
use crate::running::{Joined, serve_each};
use checkout::Backing;
use fuse_ops::Served;
use journal::{Journal, Receipts};
use std::alloc::Global;
use std::marker::Brand;
use std::sync::Wait;
use std::sync::ledger::Blank;
use std::thread;
use std::thread::Threads;

/// The greatest count of channels that a round serves.
pub const MAX_CHANNELS: usize = 16;

/// What a round leaves: what is served, its backing and the journal; and the channels in their order, each with its
/// worker's receipts.
#[derive(Drop)]
pub struct Round<B: Backing + Drop, C: Channel + Drop> {
    pub served: Served,
    pub backing: B,
    pub channels: Vec<C>,
    pub journal: Journal,
    pub receipts: Vec<Receipts>,
}

/// Runs a worker for each channel, in threads that end before this call returns.
fn serve_all<
    N: Opening + Send + Sync,
    B: Backing + Drop + Send,
    C: Channel + Drop + Send,
    G: Hook + Sync,
    R: Threads + Wait + Sync,
>(rt: &R, round: &RoundContext<'_, N, B, G>, workers: NewWorkers<N, C>) -> Joined<N, C>
    ensures parts { result.share.parts + receipts_in result.receipts.items
        ≡ vec_len workers.channels * (N.turns + 1) }
    ensures counted { result.share.amount ≡ receipts_in result.receipts.items }
    ensures served { result.is_broken ≡ false → AreServed C.takes C.posts C.reports C.reported N.turns
        workers.channels.items result.channels.items result.receipts.items }
    ensures broken { result.is_broken ≡ true → OneBreaks C.takes C.posts N.turns
        workers.channels.items result.channels.items }
    ensures places { All (HasPlaces N.turns) result.receipts.items }
    ensures workers { vec_len result.receipts ≡ vec_len workers.channels }
{
    thread::scope(
        thread::scope_env(),
        rt,
        move |scope| -> Joined<N, C>
            ensures parts { result.share.parts + receipts_in result.receipts.items
                ≡ vec_len workers.channels * (N.turns + 1) }
            ensures counted { result.share.amount ≡ receipts_in result.receipts.items }
            ensures served { result.is_broken ≡ false → AreServed C.takes C.posts C.reports C.reported N.turns
                workers.channels.items result.channels.items result.receipts.items }
            ensures broken { result.is_broken ≡ true → OneBreaks C.takes C.posts N.turns
                workers.channels.items result.channels.items }
            ensures places { All (HasPlaces N.turns) result.receipts.items }
            ensures workers { vec_len result.receipts ≡ vec_len workers.channels }
        { serve_each(scope, rt, round, workers) },
    )
}

/// Makes what a round leaves, after its workers are done. The ledger shows that there are as many records as receipts.
/// There are no more receipts, since the amount of the shares is at most the total. There are no more records, since
/// all parts together are at most the ledger's.
fn closed<N: Opening, B: Backing + Drop, C: Channel + Drop>(
    parts: Parts<N, B>,
    joined: Joined<N, C>,
) -> Round<B, C>
    requires backs { Backs (B.content parts.backing) parts.served.tree }
    requires total { parts.total.total ≡ length parts.journal.records }
    requires spent { parts.spent.parts ≡ length parts.journal.records }
    requires all_parts { joined.share.parts + receipts_in joined.receipts.items ≡ N.parts }
    requires counted { joined.share.amount ≡ receipts_in joined.receipts.items }
    ensures served { result.served ≡ parts.served }
    ensures backs { Backs (B.content result.backing) result.served.tree }
    ensures journal { result.journal ≡ parts.journal }
    ensures channels { result.channels.items ≡ joined.channels.items }
    ensures receipts { result.receipts ≡ joined.receipts }
    ensures counted { length result.journal.records ≡ receipts_in result.receipts.items }
{
    let Parts {
        served,
        backing,
        journal,
        mut total,
        spent,
    } = parts;
    let Joined {
        channels,
        receipts,
        mut share,
        is_broken: _,
    } = joined;
    total.audit(&mut share);
    share.merge(spent);
    Round {
        served,
        backing,
        channels,
        journal,
        receipts,
    }
}

/// Returns what a round leaves, if each of its workers ended well, else Broken with the channels.
fn left_by<N: Opening, B: Backing + Drop, C: Channel + Drop>(
    parts: Parts<N, B>,
    joined: Joined<N, C>,
) -> Result<Round<B, C>, RoundFault<B, C>>
    requires replays { Replays N.opening parts.journal.records parts.served }
    requires same_manifest { parts.served.tree.manifest ≡ N.opening.tree.manifest }
    requires backs { Backs (B.content parts.backing) parts.served.tree }
    requires total { parts.total.total ≡ length parts.journal.records }
    requires spent { parts.spent.parts ≡ length parts.journal.records }
    requires room { N.parts ≤ length parts.journal.records + parts.journal.room + 1 }
    requires all_parts { joined.share.parts + receipts_in joined.receipts.items ≡ N.parts }
    requires counted { joined.share.amount ≡ receipts_in joined.receipts.items }
    ensures replays { IfOk result (λ round. Replays N.opening round.journal.records round.served) }
    ensures same_manifest { IfOk result (λ round. round.served.tree.manifest ≡ N.opening.tree.manifest) }
    ensures backs { IfOk result (λ round. Backs (B.content round.backing) round.served.tree) }
    ensures channels { IfOk result (λ round. round.channels.items ≡ joined.channels.items) }
    ensures receipts { IfOk result (λ round. round.receipts.items ≡ joined.receipts.items) }
    ensures workers { IfOk result (λ round. vec_len round.receipts ≡ vec_len joined.receipts) }
    ensures room { IfOk result (λ round. N.parts ≤ length round.journal.records + round.journal.room + 1) }
    ensures well { OnOk result (joined.is_broken ≡ false) }
    ensures counted { IfOk result (λ round. length round.journal.records ≡ receipts_in round.receipts.items) }
    ensures broken { OnErr result (joined.is_broken ≡ true) }
    ensures left { IfErr result (λ why. why ≡ fault.Broken joined.channels) }
{
    if joined.is_broken {
        drop(parts);
        return Err(RoundFault::Broken(joined.channels));
    }
    Ok(closed(parts, joined))
}

/// Serves a round. Its contracts name the round by the type `N`, which has the round's ledger and opening state.
fn round_of<
    N: Opening + Send + Sync,
    B: Backing + Drop + Send,
    C: Channel + Drop + Send,
    G: Hook + Sync,
    R: Threads + Wait + Sync,
>(
    rt: &R,
    alloc: Global,
    blank: Blank,
    state: RoundState<B, C>,
    options: &RoundOptions<'_, G>,
) -> Result<Round<B, C>, RoundFault<B, C>>
    requires name { blank.name ≡ N.name }
    requires parts { blank.parts ≡ N.parts }
    requires opening { state.served ≡ N.opening }
    requires a_part_each { blank.parts ≡ vec_len state.channels * (N.turns + 1) }
    requires backs { Backs (B.content state.backing) state.served.tree }
    requires buffers { Fit (vec_len state.channels) options.now.turns state.buffers }
    requires channels { vec_len state.channels ≤ 16 }
    requires turns { (options.now.turns ≡ N.turns) × (options.now.turns ≤ 4096) }
    ensures replays { IfOk result (λ round. Replays N.opening round.journal.records round.served) }
    ensures same_manifest { IfOk result (λ round. round.served.tree.manifest ≡ N.opening.tree.manifest) }
    ensures backs { IfOk result (λ round. Backs (B.content round.backing) round.served.tree) }
    ensures counted { IfOk result (λ round. length round.journal.records ≡ receipts_in round.receipts.items) }
    ensures each { IfOk result (λ round. AreServed C.takes C.posts C.reports C.reported N.turns
        state.channels.items round.channels.items round.receipts.items) }
    ensures room { IfOk result (λ round. HaveRoom (vec_len state.channels) N.turns
        (buffers_of round.journal round.receipts.items (vec_len round.receipts))) }
    ensures broken { IfErr result (IsBroken C.takes C.posts N.turns state.channels.items) }
{
    let RoundState {
        buffers,
        served,
        backing,
        channels,
    } = state;
    let (journal, receipts) = buffers.into_parts();
    let Opened { shared, share } = LockedMap::<N, B>::open(alloc, blank, served, backing, journal);
    let workers = NewWorkers {
        channels,
        receipts,
        turns: options.turns,
        share,
    };
    let round = RoundContext {
        shared: &shared,
        hook: options.hook,
        stop: options.stop,
    };
    let joined = serve_all(rt, &round, workers);
    drop(round);
    left_by(shared.into_inner().into_parts(), joined)
}

/// Serves the channels of `state`, each by its own worker. A worker ends after the turns that `options` allow, when its
/// channel has no ask, when a stop is asked for, or after memory was refused for a copy. The memory that the buffers
/// lack is taken first. If it is refused, no ask was taken, and all is given back. `drain` gives the buffers back for
/// the next round.
pub fn serve_round<
    B: Backing + Drop + Send,
    C: Channel + Drop + Send,
    G: Hook + Sync,
    R: Threads + Wait + Sync,
>(
    rt: &R,
    alloc: Global,
    state: RoundState<B, C>,
    options: &RoundOptions<'_, G>,
) -> Result<Round<B, C>, RoundFault<B, C>>
    requires backs { Backs (B.content state.backing) state.served.tree }
    requires channels { (1 ≤ vec_len state.channels) × (vec_len state.channels ≤ 16) }
    requires turns { (1 ≤ options.now.turns) × (options.now.turns ≤ 4096) }
    // The records lead from what was served to what is served, each by a legal step.
    ensures replays { IfOk result (λ round. Replays state.served round.journal.records round.served) }
    // Another round may follow: the manifest is the same, and the backing still holds its files.
    ensures same_manifest { IfOk result (λ round. round.served.tree.manifest ≡ state.served.tree.manifest) }
    ensures backs { IfOk result (λ round. Backs (B.content round.backing) round.served.tree) }
    ensures counted { IfOk result (λ round. length round.journal.records ≡ receipts_in round.receipts.items) }
    // Each worker ended well, after at most so many turns. What its channel reports grew by its receipts.
    ensures each { IfOk result (λ round. AreServed C.takes C.posts C.reports C.reported options.now.turns
        state.channels.items round.channels.items round.receipts.items) }
    // The room for such a round is still there.
    ensures room { IfOk result (λ round. HaveRoom (vec_len state.channels) options.now.turns
        (buffers_of round.journal round.receipts.items (vec_len round.receipts))) }
    // The fault is Broken exactly if a worker found its channel broken, and it is never Unsettled. What it gives back
    // are the channels as their workers left them.
    ensures broken { IfErr result (IsUnserved C.takes C.posts options.now.turns state.channels.items) }
    // Buffers that fit need no memory.
    ensures needed { IfErr result (WasNeeded (vec_len state.channels) options.now.turns state.buffers) }
    ensures given_back { IfErr result (GivesBack state.served state.backing state.channels.items) }
{
    let RoundState {
        mut buffers,
        served,
        backing,
        channels,
    } = state;
    let Ok(()) = buffers.refill(alloc, channels.len(), options.turns) else {
        return Err(RoundFault::NoMemory(RoundState {
            buffers,
            served,
            backing,
            channels,
        }));
    };
    let blank = Blank::new(channels.len() as u64 * (options.turns as u64 + 1));
    let state = RoundState {
        buffers,
        served,
        backing,
        channels,
    };
    round_of::<Brand, B, C, G, R>(rt, alloc, blank, state, options)
}
