//! How rounds end whose channels run out of asks, stop, or break, and how a round ends that is asked to stop.
ghost use Rattle.std.specs.Prelude.{◌≤◌};

use super::rounds::serve;
use super::scripted::{Rest, Scripted, Then};
use crate::again::manifest_of;
use crate::listed::LISTED;
use eden_base::NoMemory;
use manifest::Manifest;
use std::alloc::Global;
use std::sync::Wait;
use std::sync::atomic::{AtomicU64, Ordering};
use std::thread::Threads;
use workers::{Hook, NoHook, RoundFault, RoundOptions, Stop};

/// How a round ended.
#[derive(Clone, Copy, PartialEq, Eq)]
enum Ended {
    /// Without a fault, with this many records in the journal.
    Well(usize),
    /// By a channel that was broken, with two channels that were left so.
    Broken(Rest, Rest),
    Otherwise,
}

/// A channel: how many asks it gives, how many replies it takes, and what it says after its last ask.
type Script = (u64, usize, Then);

/// A channel that gives one ask, and is empty after that.
const WELL: Script = (1, 9, Then::Empty);

/// What `WELL` is left with.
const DONE: Rest = (0, 8, 1);

/// Rows: two channels, and how a round over them ends.
static ENDINGS: [(Script, Script, Ended); 16] = [
    (WELL, WELL, Ended::Well(2)),
    ((2, 9, Then::Stopped), WELL, Ended::Well(3)),
    (WELL, (2, 9, Then::Stopped), Ended::Well(3)),
    ((0, 9, Then::Stopped), (0, 9, Then::Stopped), Ended::Well(0)),
    ((2, 9, Then::Broken), WELL, Ended::Broken((0, 7, 1), DONE)),
    (WELL, (2, 9, Then::Broken), Ended::Broken(DONE, (0, 7, 1))),
    ((5, 2, Then::Empty), WELL, Ended::Broken((2, 0, 4), DONE)),
    (WELL, (5, 4, Then::Empty), Ended::Broken(DONE, (0, 0, 2))),
    (
        (0, 9, Then::Broken),
        (1, 0, Then::Empty),
        Ended::Broken((0, 9, 0), (0, 0, 0)),
    ),
    ((4, 4, Then::Empty), (4, 4, Then::Stopped), Ended::Well(8)),
    ((0, 9, Then::Broken), WELL, Ended::Broken((0, 9, 0), DONE)),
    ((1, 9, Then::Broken), WELL, Ended::Broken(DONE, DONE)),
    ((1, 0, Then::Empty), WELL, Ended::Broken((0, 0, 0), DONE)),
    (WELL, (0, 9, Then::Broken), Ended::Broken(DONE, (0, 9, 0))),
    (WELL, (1, 9, Then::Broken), Ended::Broken(DONE, DONE)),
    (WELL, (1, 0, Then::Empty), Ended::Broken(DONE, (0, 0, 0))),
];

/// Makes two channels, of the scripts `first` and `second`.
fn two<'a>(
    alloc: Global,
    first: Script,
    second: Script,
    posted: &'a AtomicU64,
) -> Result<Vec<Scripted<'a>>, NoMemory> {
    let mut channels = Vec::with_capacity(alloc, 2)?;
    channels.push_reserved(Scripted::new(first.0, first.1, first.2, posted));
    channels.push_reserved(Scripted::new(second.0, second.1, second.2, posted));
    Ok(channels)
}

/// Returns how a round ended that broke and gave back `channels`.
fn broken_with(channels: &[Scripted<'_>]) -> Ended {
    if channels.len() != 2 {
        return Ended::Otherwise;
    }
    Ended::Broken(channels[0].rest(), channels[1].rest())
}

/// Serves a round over `channels`, and returns how it ended.
fn ending_of<R: Threads + Wait + Sync, G: Hook + Sync>(
    rt: &R,
    alloc: Global,
    manifest: &Manifest,
    channels: Vec<Scripted<'_>>,
    options: &RoundOptions<'_, G>,
) -> Ended
    requires turns { (1 ≤ options.now.turns) × (options.now.turns ≤ 4096) }
{
    let left = serve(rt, alloc, manifest, channels, options);
    let ended = match &left {
        Ok(round) => Ended::Well(round.journal.records().len()),
        Err(RoundFault::Broken(channels)) => broken_with(channels.as_slice()),
        Err(_other) => Ended::Otherwise,
    };
    drop(left);
    ended
}

/// Returns whether a round over the channels of `row` ends as `row` says.
fn ends_so<R: Threads + Wait + Sync>(
    rt: &R,
    alloc: Global,
    manifest: &Manifest,
    row: &(Script, Script, Ended),
) -> bool {
    let posted = AtomicU64::new(0);
    let Ok(channels) = two(alloc, row.0, row.1, &posted) else {
        return false;
    };
    let stop = Stop::new();
    let options = RoundOptions {
        turns: 64,
        hook: &NoHook,
        stop: &stop,
    };
    ending_of(rt, alloc, manifest, channels, &options) == row.2
}

/// Calls `ends_so` with each of `rows`, and returns whether all calls return true.
fn all_end_so<R: Threads + Wait + Sync>(
    rt: &R,
    alloc: Global,
    rows: &[(Script, Script, Ended)],
) -> bool {
    let Ok(manifest) = manifest_of(alloc, LISTED) else {
        return false;
    };
    let mut so = true;
    for row in rows {
        so = so && ends_so(rt, alloc, &manifest, row);
    }
    drop(manifest);
    so
}

#[test]
fn a_round_ends_as_its_channels_do(rt: HostRuntime) {
    let all = all_end_so(&rt, rt.alloc(), &ENDINGS);
    assert!(rt; all);
}

/// A hook that asks for a stop after each reply, and sets `early` to 1 if no reply was posted before its call.
#[derive(Drop)]
struct Stopping<'a> {
    stop: &'a Stop,
    posted: &'a AtomicU64,
    early: AtomicU64,
}

impl<'a> Hook for Stopping<'a> {
    fn before(&self, _unique: u64) {}

    fn after(&self, _unique: u64) {
        if self.posted.load(Ordering::SeqCst) == 0 {
            self.early.store(1, Ordering::SeqCst);
        }
        self.stop.ask()
    }
}

/// Serves a round with a hook that asks for a stop after the first reply. Its channel heard by then that an ask is taken next.
/// Returns whether the round ends with two records, so behind that ask, and the hook was called after each post.
fn stops_behind_the_next<R: Threads + Wait + Sync>(rt: &R, alloc: Global) -> bool {
    let Ok(manifest) = manifest_of(alloc, LISTED) else {
        return false;
    };
    let posted = AtomicU64::new(0);
    let stop = Stop::new();
    let hook = Stopping {
        stop: &stop,
        posted: &posted,
        early: AtomicU64::new(0),
    };
    let options = RoundOptions {
        turns: 64,
        hook: &hook,
        stop: &stop,
    };
    let ended = match two(alloc, (3, 9, Then::Empty), (0, 9, Then::Empty), &posted) {
        Ok(channels) => ending_of(rt, alloc, &manifest, channels, &options),
        Err(NoMemory) => Ended::Otherwise,
    };
    drop(manifest);
    ended == Ended::Well(2) && hook.early.load(Ordering::SeqCst) == 0
}

#[test]
fn a_stop_behind_a_reply_is_seen_behind_the_next_ask(rt: HostRuntime) {
    let stops = stops_behind_the_next(&rt, rt.alloc());
    assert!(rt; stops);
}
