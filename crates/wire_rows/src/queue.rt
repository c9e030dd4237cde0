//! Queues in blocks, of numbers.
//!
//! `queue reserve N`. `queue push N`. `queue fill COUNT STEP`: appends 0, STEP, 2 * STEP and so on. `queue len`.
//! `queue runs COUNT STEP`: whether a run of at least one member begins at each index below COUNT, none at COUNT, and all
//! members are those of `fill`. `queue remove I ..`: the members at these indexes, each as `get` shows it before it is
//! removed, or `none`.
ghost use Rattle.std.specs.Prelude.{◌≤◌, OnOk};

use block_queue::BlockQueue;
use row_words::{Output, RowFault, Words, chosen};
use std::alloc::AllocError;

/// The calls that have a number.
#[derive(Clone, Copy)]
enum QueueNumberCall {
    Reserve,
    Push,
    Fill,
    Runs,
}

/// The calls of a queue.
#[derive(Clone, Copy)]
enum QueueCall {
    Number(QueueNumberCall),
    Remove,
    Len,
}

static QUEUE_CALLS: [(&str, QueueCall); 6] = [
    ("reserve", QueueCall::Number(QueueNumberCall::Reserve)),
    ("push", QueueCall::Number(QueueNumberCall::Push)),
    ("fill", QueueCall::Number(QueueNumberCall::Fill)),
    ("runs", QueueCall::Number(QueueNumberCall::Runs)),
    ("remove", QueueCall::Remove),
    ("len", QueueCall::Len),
];

/// How many indexes a row may have.
const MOST_INDEXES: usize = 10_000;

/// Makes room for one more member, and asks once more if memory was refused.
fn make_room(queue: &mut BlockQueue<u64>) -> Result<(), AllocError>
    ensures room { OnOk result (1 ≤ queue.new.room) }
{
    match queue.reserve(1) {
        Ok(()) => Ok(()),
        Err(AllocError) => queue.reserve(1),
    }
}

/// Appends `count` members: 0, `step`, and so on.
fn fill(queue: &mut BlockQueue<u64>, count: u64, step: u64) -> Result<(), AllocError> {
    for index in 0..count {
        make_room(queue)?;
        queue.push_reserved(index.wrapping_mul(step));
    }
    Ok(())
}

/// Returns whether `run` is not empty, and its members are those of `fill` from `index` on.
fn is_run(run: &[u64], index: u64, step: u64) -> bool {
    let mut at = index;
    for member in run {
        if *member != at.wrapping_mul(step) {
            return false;
        }
        at = at.wrapping_add(1);
    }
    !run.is_empty()
}

/// Returns whether a run of members begins at each index below `count`, and none at `count`.
fn has_runs(queue: &BlockQueue<u64>, count: u64, step: u64) -> bool {
    for index in 0..count {
        if !is_run(queue.run_from(index as usize), index, step) {
            return false;
        }
    }
    queue.run_from(count as usize).is_empty()
}

/// Removes the member at `index`, and writes it.
fn remove(queue: &mut BlockQueue<u64>, index: u64, output: &mut Output) {
    let shown = queue.get(index as usize).copied();
    let removed = queue.remove(index as usize);
    match removed {
        Some(member) if shown == removed => output.number(member),
        None if shown.is_none() => output.word("none"),
        _ => output.word("differs"),
    }
}

/// Removes the members at the indexes that are left of `words`.
fn remove_each(queue: &mut BlockQueue<u64>, words: &mut Words<'_>, output: &mut Output) {
    for _index in 0..MOST_INDEXES {
        if !words.has_more() {
            break;
        }
        remove(queue, words.number(), output);
    }
}

/// Makes a call that has a number.
fn call_number(
    queue: &mut BlockQueue<u64>,
    call: QueueNumberCall,
    words: &mut Words<'_>,
    output: &mut Output,
) -> Result<(), RowFault> {
    let number = words.number();
    let step = if words.has_more() { words.number() } else { 1 };
    words.end()?;
    match call {
        QueueNumberCall::Reserve => queue.reserve(number as usize)?,
        QueueNumberCall::Push => {
            queue.reserve(1)?;
            queue.push_reserved(number);
        }
        QueueNumberCall::Fill => fill(queue, number, step)?,
        QueueNumberCall::Runs => {
            output.flag(has_runs(queue, number, step));
            return Ok(());
        }
    }
    output.word("ok");
    Ok(())
}

/// Makes a call of a queue.
pub(crate) fn call_queue(
    queue: &mut BlockQueue<u64>,
    words: &mut Words<'_>,
    output: &mut Output,
) -> Result<(), RowFault> {
    match chosen(&QUEUE_CALLS, words.word()).ok_or(RowFault::BadRow)? {
        QueueCall::Number(call) => return call_number(queue, call, words, output),
        QueueCall::Remove => remove_each(queue, words, output),
        QueueCall::Len => output.number(queue.len() as u64),
    }
    words.end()
}
