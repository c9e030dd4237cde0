//! Makes a round of RECORDS records, each with its receipt, and asks ROUNDS times whether the round is settled. So the
//! instructions of one such call can be counted: `measure journal RECORDS WORKERS ROUNDS`.
use crate::figures::Figures;
use crate::names::file_name;
use crate::words::number_at;
use eden_base::{Attr, Kind, NoMemory, Number, Perm};
use fuse_wire::{Answer, Ask, Item, Request};
use journal::{Journal, Receipt, Receipts, Record, is_settled};
use std::alloc::Global;

/// Returns the number that request `i` is about.
fn number_of(i: u32) -> Number {
    Number(u64::from(i).wrapping_add(2))
}

/// Returns request `i`. Four kinds follow one another again and again; two of them carry a name.
fn request_of(alloc: Global, i: u32) -> Result<Request, NoMemory> {
    let dir = Number::ROOT;
    let node = number_of(i);
    match i % 4 {
        0 => Ok(Request::Lookup {
            dir,
            name: file_name(alloc, u64::from(i))?,
        }),
        1 => Ok(Request::Getattr { node }),
        2 => Ok(Request::Forget(Item { node, k: 1 })),
        _ => Ok(Request::Create {
            dir,
            name: file_name(alloc, u64::from(i))?,
            perm: Perm::DIRECTORY,
        }),
    }
}

/// Returns the answer to request `i`.
fn answer_of(i: u32) -> Option<Answer> {
    let number = number_of(i);
    let attr = Attr {
        kind: Kind::File,
        perm: Perm::DIRECTORY,
        size: u64::from(i),
        nlink: 1,
    };
    match i % 4 {
        0 => Some(Answer::Entry { number, attr }),
        1 => Some(Answer::Attrs { number, attr }),
        2 => None,
        _ => Some(Answer::Opened { number, attr }),
    }
}

/// Appends `records` records to `journal`, as long as it has room.
fn fill(alloc: Global, journal: &mut Journal, records: u32) -> Result<(), NoMemory> {
    for i in 0..records {
        let request = request_of(alloc, i)?;
        if journal.room() > 0 {
            let answer = answer_of(i);
            journal.push(Record { request, answer });
        }
    }
    Ok(())
}

/// Returns the receipt of record `i`.
fn receipt_of(alloc: Global, i: u32) -> Result<Receipt, NoMemory> {
    let what = request_of(alloc, i)?;
    Ok(Receipt {
        position: i as usize,
        ask: Ask {
            unique: u64::from(i),
            what,
        },
        answer: answer_of(i),
    })
}

/// Returns the receipts of `worker`: those of every record `i` with `i` modulo `workers` equal to `worker`.
fn receipts_of(
    alloc: Global,
    worker: u32,
    workers: u32,
    records: u32,
) -> Result<Receipts, NoMemory> {
    let mut list = Vec::new(alloc);
    for i in 0..records {
        if i % workers.max(1) == worker {
            list.push(receipt_of(alloc, i)?)?;
        }
    }
    Ok(Receipts::of(alloc, list))
}

/// Returns the receipts of all workers: record `i` belongs to worker `i` modulo `workers`.
fn list_receipts(alloc: Global, workers: u32, records: u32) -> Result<Vec<Receipts>, NoMemory> {
    let mut list = Vec::new(alloc);
    for worker in 0..workers {
        list.push(receipts_of(alloc, worker, workers, records)?)?;
    }
    Ok(list)
}

#[inline(never)]
fn settled(alloc: Global, journal: &Journal, workers: &[Receipts]) -> Result<bool, NoMemory> {
    is_settled(alloc, journal, workers)
}

/// Asks `rounds` times whether a round is settled, and returns how often it is.
fn ask_often(alloc: Global, journal: &Journal, workers: &[Receipts], rounds: u32) -> u32 {
    let mut times = 0u32;
    for _ in 0..rounds {
        if settled(alloc, journal, workers) == Ok(true) {
            times = times.wrapping_add(1);
        }
    }
    times
}

/// Makes the records and the receipts of a round, and calls `ask_often` with them.
fn ask_made(
    alloc: Global,
    journal: &mut Journal,
    records: u32,
    workers: u32,
    rounds: u32,
) -> Result<u32, NoMemory> {
    fill(alloc, journal, records)?;
    let list = list_receipts(alloc, workers, records)?;
    let times = ask_often(alloc, journal, list.as_slice(), rounds);
    drop(list);
    Ok(times)
}

/// Makes a round, and calls `ask_often` with it.
fn times_settled(alloc: Global, records: u32, workers: u32, rounds: u32) -> Result<u32, NoMemory> {
    let mut journal = Journal::new(alloc, records as usize)?;
    let times = ask_made(alloc, &mut journal, records, workers, rounds);
    drop(journal);
    times
}

/// Measures whether a round is settled, as `words` say. Returns none if they say no numbers.
pub(crate) fn measure(alloc: Global, words: &[&str]) -> Result<Option<Figures>, NoMemory> {
    let (Some(records), Some(workers)) = (number_at(words, 0), number_at(words, 1)) else {
        return Ok(None);
    };
    let Some(rounds) = number_at(words, 2) else {
        return Ok(None);
    };
    let times = times_settled(alloc, records, workers, rounds)?;
    Ok(Some(Figures::of(&["settled"], &[u64::from(times)])))
}
