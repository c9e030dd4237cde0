//! Rounds in which each worker takes all that it may.
use super::rounds::{channel, is_settled, serve};
use crate::again::manifest_of;
use crate::listed::LISTED;
use checkout::ManifestBacking;
use eden_base::NoMemory;
use manifest::Manifest;
use std::alloc::Global;
use std::sync::Wait;
use std::thread::Threads;
use workers::{MemoryChannel, NoHook, Receipts, Round, RoundOptions, Stop};

/// The uniques of a channel's asks, which are one more than a worker takes.
static UNIQUES: [u64; 65] = [7; 65];

/// Rows: how many channels a round has, and how many records it leaves.
static ROUNDS: [(usize, usize); 3] = [(1, 64), (2, 128), (16, 1024)];

/// Makes `count` channels, each with the asks of `UNIQUES`.
fn channels_of(alloc: Global, count: usize) -> Result<Vec<MemoryChannel>, NoMemory> {
    let mut channels = Vec::new(alloc);
    for _channel in 0..count {
        channels.push(channel(alloc, &UNIQUES)?)?;
    }
    Ok(channels)
}

/// Returns whether each channel was asked 64 times, and answered as often, and each worker kept as many receipts.
fn are_full(channels: &[MemoryChannel], workers: &[Receipts]) -> bool {
    let mut so = true;
    for channel in channels {
        so = so && channel.taken() == 64 && channel.replies().len() == 64;
    }
    for kept in workers {
        so = so && kept.as_slice().len() == 64;
    }
    so
}

/// Returns whether each worker of `round` took and answered 64 asks, and the journal has as many records as `row` says.
fn is_full(round: &Round<ManifestBacking<'_>, MemoryChannel>, row: &(usize, usize)) -> bool {
    let channels = round.channels.as_slice();
    let workers = round.receipts.as_slice();
    round.journal.records().len() == row.1
        && channels.len() == row.0
        && workers.len() == row.0
        && are_full(channels, workers)
}

/// Returns whether a round over as many channels as `row` says is full, and settled.
fn fills<R: Threads + Wait + Sync>(
    rt: &R,
    alloc: Global,
    manifest: &Manifest,
    row: &(usize, usize),
) -> bool {
    let Ok(channels) = channels_of(alloc, row.0) else {
        return false;
    };
    let stop = Stop::new();
    let options = RoundOptions {
        turns: 64,
        hook: &NoHook,
        stop: &stop,
    };
    match serve(rt, alloc, manifest, channels, &options) {
        Ok(round) => {
            let full = is_full(&round, row);
            is_settled(alloc, round) == Some(true) && full
        }
        Err(fault) => {
            drop(fault);
            false
        }
    }
}

/// Calls `fills` with each of `rows`, and returns whether all calls return true.
fn all_fill<R: Threads + Wait + Sync>(rt: &R, alloc: Global, rows: &[(usize, usize)]) -> bool {
    let Ok(manifest) = manifest_of(alloc, LISTED) else {
        return false;
    };
    let mut so = true;
    for row in rows {
        so = so && fills(rt, alloc, &manifest, row);
    }
    drop(manifest);
    so
}

#[test]
fn workers_take_all_that_they_may(rt: HostRuntime) {
    let full = all_fill(&rt, rt.alloc(), &ROUNDS);
    assert!(rt; full);
}
