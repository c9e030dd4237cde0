//! What the calls of an arena cost: `measure arena CAPACITY` makes the calls on a full arena, and `measure arena
//! CAPACITY times` prints the nanoseconds that the calls of each round take.
use crate::clock::{each_since, moment};
use crate::figures::Figures;
use crate::random::next_random;
use crate::words::number_at;
use eden_base::NoMemory;
use node_arena::{NodeArena, Slot};
use std::alloc::Global;
use std::time::CpuClock;

/// How often the calls of a round are made.
const ROUNDS: u32 = 1_000_000;

/// The names of the rounds, by the calls in each. The last three rounds pick any slot, the three before them one of
/// eight.
const NAMES: [&str; 8] = [
    "oldest/touch",
    "oldest/remove/add",
    "is_held/touch",
    "is_held/get/get_mut",
    "is_held/remove/add",
    "any:is_held/touch",
    "any:is_held/get/get_mut",
    "any:is_held/remove/add",
];

/// Returns one of `slots`, picked by `random`, if there is one.
fn pick(slots: &[Slot], random: u64) -> Option<Slot> {
    if slots.is_empty() {
        return None;
    }
    Some(slots[(random >> 33) as usize % slots.len()])
}

/// Fills an arena, and returns its slots.
fn fill(alloc: Global, nodes: &mut NodeArena<u64>) -> Result<Vec<Slot>, NoMemory> {
    let mut slots = Vec::new(alloc);
    for value in 0..nodes.capacity() {
        if let Ok(slot) = nodes.add(value as u64) {
            slots.push(slot)?;
        }
    }
    Ok(slots)
}

/// Calls `oldest`, and `touch` of the slot that it returns.
#[inline(never)]
fn touch_oldest(nodes: &mut NodeArena<u64>) {
    for _ in 0..ROUNDS {
        if let Some(slot) = nodes.oldest() {
            nodes.touch(slot);
        }
    }
}

/// Calls `oldest`, `remove` of the slot that it returns, and `add`.
#[inline(never)]
fn replace_oldest(nodes: &mut NodeArena<u64>) {
    for _ in 0..ROUNDS {
        if let Some(slot) = nodes.oldest() {
            let value = nodes.remove(slot);
            let _ = nodes.add(value);
        }
    }
}

/// Calls `is_held` and `touch` of slots in a random order.
#[inline(never)]
fn touch_any(nodes: &mut NodeArena<u64>, slots: &[Slot]) {
    let mut random = 1;
    for _ in 0..ROUNDS {
        random = next_random(random);
        if let Some(slot) = pick(slots, random) {
            if nodes.is_held(slot) {
                nodes.touch(slot);
            }
        }
    }
}

/// Calls `is_held`, `get` and `get_mut` of slots in a random order.
#[inline(never)]
fn write_any(nodes: &mut NodeArena<u64>, slots: &[Slot]) {
    let mut random = 1;
    for _ in 0..ROUNDS {
        random = next_random(random);
        if let Some(slot) = pick(slots, random) {
            if nodes.is_held(slot) {
                let value = *nodes.get(slot);
                *nodes.get_mut(slot) = value ^ random;
            }
        }
    }
}

/// Calls `is_held`, `remove` and `add` of slots in a random order.
#[inline(never)]
fn replace_any(nodes: &mut NodeArena<u64>, slots: &[Slot]) {
    let mut random = 1;
    for _ in 0..ROUNDS {
        random = next_random(random);
        if let Some(slot) = pick(slots, random) {
            if nodes.is_held(slot) {
                let value = nodes.remove(slot);
                let _ = nodes.add(value);
            }
        }
    }
}

/// A round of calls on an arena.
#[derive(Clone, Copy)]
enum ArenaRound {
    TouchOldest,
    ReplaceOldest,
    TouchAny,
    WriteAny,
    ReplaceAny,
}

/// Makes the calls of `round`, `ROUNDS` times.
fn make(round: ArenaRound, nodes: &mut NodeArena<u64>, slots: &[Slot]) {
    match round {
        ArenaRound::TouchOldest => touch_oldest(nodes),
        ArenaRound::ReplaceOldest => replace_oldest(nodes),
        ArenaRound::TouchAny => touch_any(nodes, slots),
        ArenaRound::WriteAny => write_any(nodes, slots),
        ArenaRound::ReplaceAny => replace_any(nodes, slots),
    }
}

/// Returns the nanoseconds that it takes to make the calls of `round` once.
fn time(rt: &impl CpuClock, round: ArenaRound, nodes: &mut NodeArena<u64>, slots: &[Slot]) -> u64 {
    let started = moment(rt);
    make(round, nodes, slots);
    each_since(rt, started, u64::from(ROUNDS))
}

/// Returns the nanoseconds that the calls of `round` take on all of `slots`, and on eight of them.
fn time_both(
    rt: &impl CpuClock,
    round: ArenaRound,
    nodes: &mut NodeArena<u64>,
    slots: &[Slot],
) -> (u64, u64) {
    let all = time(rt, round, nodes, slots);
    let few = if slots.len() > 8 { &slots[..8] } else { slots };
    (all, time(rt, round, nodes, few))
}

/// Returns the nanoseconds that the calls of each round take, in the order of `NAMES`.
fn time_all(rt: &impl CpuClock, nodes: &mut NodeArena<u64>, slots: &[Slot]) -> [u64; 8] {
    let oldest = time(rt, ArenaRound::TouchOldest, nodes, slots);
    let replaced = time(rt, ArenaRound::ReplaceOldest, nodes, slots);
    let (touched, touched_few) = time_both(rt, ArenaRound::TouchAny, nodes, slots);
    let (written, written_few) = time_both(rt, ArenaRound::WriteAny, nodes, slots);
    let (put, put_few) = time_both(rt, ArenaRound::ReplaceAny, nodes, slots);
    [
        oldest,
        replaced,
        touched_few,
        written_few,
        put_few,
        touched,
        written,
        put,
    ]
}

/// Returns the sum of the values in an arena.
fn sum_of(nodes: &NodeArena<u64>, slots: &[Slot]) -> u64 {
    let mut sum = 0u64;
    for &slot in slots {
        if nodes.is_held(slot) {
            sum = sum.wrapping_add(*nodes.get(slot));
        }
    }
    sum
}

/// Fills an arena and makes the calls of all rounds on it. Returns their times if `timed`, else the sum of the values.
fn measure_filled(
    rt: &impl CpuClock,
    alloc: Global,
    nodes: &mut NodeArena<u64>,
    timed: bool,
) -> Result<Figures, NoMemory> {
    let slots = fill(alloc, nodes)?;
    let times = time_all(rt, nodes, slots.as_slice());
    let sum = sum_of(nodes, slots.as_slice());
    drop(slots);
    if timed {
        return Ok(Figures::of(&NAMES, &times));
    }
    Ok(Figures::of(&["sum"], &[sum]))
}

/// Makes an arena, and the calls of all rounds on it.
fn measure_made(rt: &HostRuntime, capacity: usize, timed: bool) -> Result<Figures, NoMemory> {
    let mut nodes = NodeArena::new(rt.alloc(), capacity.clamp(1, 65_536))?;
    let figures = measure_filled(rt, rt.alloc(), &mut nodes, timed);
    drop(nodes);
    figures
}

/// Measures an arena, as `words` say.
pub(crate) fn measure(rt: &HostRuntime, words: &[&str]) -> Result<Option<Figures>, NoMemory> {
    let Some(capacity) = number_at(words, 0) else {
        return Ok(None);
    };
    let capacity = capacity as usize;
    match words {
        [_] => measure_made(rt, capacity, false).map(Some),
        [_, "times"] => measure_made(rt, capacity, true).map(Some),
        _ => Ok(None),
    }
}
