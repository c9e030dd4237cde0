//! Rounds over channels that have a few asks, and what these rounds leave.
ghost use Rattle.std.specs.Prelude.{◌≤◌};

mod buffers_tests;
mod ending_tests;
mod full_tests;
mod hooks;
mod rounds;
mod scripted;
mod worker_tests;

use crate::workers_tests::hooks::SecondFirst;
use crate::workers_tests::rounds::{Change, RoundSummary, TwoChannels, round, round_again};
use std::alloc::Global;
use std::rt::Clock;
use std::sync::Wait;
use std::sync::atomic::Ordering;
use std::thread::Threads;
use workers::{NoHook, RoundOptions, Stop};

/// Serves a round of two channels with one ask each, with uniques `first` and `second`. Returns whether the ask with
/// unique 2 is first in the journal, and the round is settled exactly if `change` is `None`.
fn serves_second_first<R: Threads + Wait + Clock + Sync>(
    rt: &R,
    alloc: Global,
    first: u64,
    second: u64,
    change: Change,
) -> bool {
    let hook = SecondFirst::new(rt);
    let place = if first == 2 { 0 } else { 1 };
    let wanted = RoundSummary {
        records: 2,
        first: Some(place),
        second: Some(1 - place),
        taken: 1,
        replies: 1,
        is_settled: matches!(change, Change::None),
    };
    let stop = Stop::new();
    let row = TwoChannels {
        first: &[first],
        second: &[second],
        change,
    };
    let options = RoundOptions {
        turns: 64,
        hook: &hook,
        stop: &stop,
    };
    let left = round(rt, alloc, &row, &options);
    left == Some(wanted) && !hook.gave_up.load(Ordering::SeqCst)
}

/// Each worker runs in a separate thread. If the channels were served one after the other, the hook would give up.
#[test]
fn channels_are_served_side_by_side(rt: HostRuntime) {
    let served = serves_second_first(&rt, rt.alloc(), 1, 2, Change::None);
    assert!(rt; served);
}

#[test]
fn channels_are_served_side_by_side_in_either_order(rt: HostRuntime) {
    let served = serves_second_first(&rt, rt.alloc(), 2, 1, Change::None);
    assert!(rt; served);
}

#[test]
fn a_receipt_that_is_taken_out_unsettles_a_round(rt: HostRuntime) {
    let served = serves_second_first(&rt, rt.alloc(), 1, 2, Change::TakeOut);
    assert!(rt; served);
}

/// Serves a round of at most `turns` turns of each worker over the channels of `row`, without a hook and a stop. Serves
/// it once more if memory was refused. Returns what the round left.
fn plain_round<R: Threads + Wait + Sync>(
    rt: &R,
    alloc: Global,
    row: &TwoChannels<'_>,
    turns: usize,
) -> Option<RoundSummary>
    requires turns { (1 ≤ turns) × (turns ≤ 4096) }
{
    let stop = Stop::new();
    let options = RoundOptions {
        turns,
        hook: &NoHook,
        stop: &stop,
    };
    round_again(rt, alloc, row, &options)
}

/// The journal has the asks of each worker in the order in which that worker took them.
#[test]
fn receipts_that_are_exchanged_unsettle_a_round(rt: HostRuntime) {
    let wanted = RoundSummary {
        records: 2,
        first: Some(0),
        second: None,
        taken: 2,
        replies: 2,
        is_settled: false,
    };
    let row = TwoChannels {
        first: &[1, 2],
        second: &[],
        change: Change::Exchange,
    };
    let left = plain_round(&rt, rt.alloc(), &row, 64);
    let as_wanted = left == Some(wanted);
    assert!(rt; as_wanted);
}

/// Returns whether a round of one ask on each channel leaves both in its journal, in either order.
fn serves_both<R: Threads + Wait + Sync>(rt: &R, alloc: Global) -> bool {
    let in_order = RoundSummary {
        records: 2,
        first: Some(0),
        second: Some(1),
        taken: 1,
        replies: 1,
        is_settled: true,
    };
    let in_other_order = RoundSummary {
        first: Some(1),
        second: Some(0),
        ..in_order
    };
    let row = TwoChannels {
        first: &[1],
        second: &[2],
        change: Change::None,
    };
    let left = plain_round(rt, alloc, &row, 64);
    left == Some(in_order) || left == Some(in_other_order)
}

/// Passes also if one allocation is refused: a round gives back what it was handed, and is served again. A worker that
/// gets no separate thread runs after the other worker.
#[test]
fn an_ask_of_each_channel_is_served(rt: HostRuntime) {
    let served = serves_both(&rt, rt.alloc());
    assert!(rt; served);
}

/// Passes also if one allocation is refused: a round gives back what it was handed, and is served again.
#[test]
fn one_turn_takes_one_ask_of_three(rt: HostRuntime) {
    let wanted = RoundSummary {
        records: 1,
        first: Some(0),
        second: None,
        taken: 1,
        replies: 1,
        is_settled: true,
    };
    let row = TwoChannels {
        first: &[1, 2, 3],
        second: &[],
        change: Change::None,
    };
    let left = plain_round(&rt, rt.alloc(), &row, 1);
    let as_wanted = left == Some(wanted);
    assert!(rt; as_wanted);
}

/// Passes also if one allocation is refused. A stop that is asked for twice stays asked for.
#[test]
fn a_stop_that_was_asked_for_takes_nothing(rt: HostRuntime) {
    let wanted = RoundSummary {
        records: 0,
        first: None,
        second: None,
        taken: 0,
        replies: 0,
        is_settled: true,
    };
    let stop = Stop::new();
    stop.ask();
    stop.ask();
    let row = TwoChannels {
        first: &[1],
        second: &[2],
        change: Change::None,
    };
    let options = RoundOptions {
        turns: 64,
        hook: &NoHook,
        stop: &stop,
    };
    let left = round_again(&rt, rt.alloc(), &row, &options);
    let as_wanted = left == Some(wanted);
    assert!(rt; as_wanted);
}
