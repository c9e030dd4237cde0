//! Whether the receipts of a round are its journal.
ghost use Rattle.std.specs.Prelude.{◌≡◌, ◌+◌, ◌<◌, ◌↔◌, ℕ, length, slice_index, EachIndex, SomeIndex, IfOk, IsTrue, IsFalse};
ghost use Rattle.std.specs.List.{All};
ghost use Rattle.journal.specs.Settled.{IsOf, IsRising, IsSettled, times};
ghost use Rattle.journal.specs.declared.receipt.Receipt.{Receipt as ReceiptValue};

use crate::journal::{Journal, Record};
use crate::receipt::{Receipt, Receipts};
use eden_base::NoMemory;
use fuse_wire::Answer;
use std::alloc::Global;

/// Returns whether `first` and `second` are the same answer, or are both none.
fn same_outcome(first: &Option<Answer>, second: &Option<Answer>) -> bool
    ensures same { IsTrue result ↔ (first.now ≡ second.now) }
{
    match first {
        Some(first) => match second {
            Some(second) => first.is(second),
            None => false,
        },
        None => second.is_none(),
    }
}

/// Returns whether the record at the receipt's index has the receipt's request and its answer.
fn is_of(records: &[Record], receipt: &Receipt) -> bool
    ensures same { IsTrue result ↔ IsOf records.now receipt.now }
{
    match records.get(receipt.position) {
        Some(record) => {
            record.request.is(&receipt.ask.what) && same_outcome(&record.answer, &receipt.answer)
        }
        None => false,
    }
}

/// Returns whether the record at each receipt's index has that receipt's request and its answer.
fn are_of(records: &[Record], receipts: &[Receipt]) -> bool
    ensures same { IsTrue result ↔ All (IsOf records.now) receipts.now }
{
    for receipt in receipts {
        if !is_of(records, receipt) {
            return false;
        }
    }
    true
}

/// Returns whether each receipt's index is below that of the next receipt.
fn is_rising(receipts: &[Receipt]) -> bool
    ensures rising { IsTrue result ↔ IsRising receipts.now }
{
    for next in 1..receipts.len() {
        if receipts[next].position <= receipts[next - 1].position {
            return false;
        }
    }
    true
}

/// Counts the index of each receipt in `counts`, and returns whether none was counted before.
fn count(counts: &mut Vec<u8>, receipts: &[Receipt]) -> bool
    requires in_range { All (λ (receipt : ReceiptValue). receipt.position < length counts.old.items) receipts.now }
    ensures len { length counts.new.items ≡ length counts.old.items }
    ensures counted { IsTrue result → EachIndex counts.old.items (λ (position : ℕ).
        slice_index counts.new.items position ≡ slice_index counts.old.items position + times receipts.now position) }
    ensures twice { IsFalse result → SomeIndex counts.old.items (λ (position : ℕ).
        1 < slice_index counts.old.items position + times receipts.now position) }
{
    for receipt in receipts {
        if counts[receipt.position] > 0 {
            return false;
        }
        counts[receipt.position] = 1;
    }
    true
}

/// Returns whether each index was counted once.
fn all_once(counts: &[u8]) -> bool
    ensures once { IsTrue result ↔ EachIndex counts.now (λ (position : ℕ). slice_index counts.now position ≡ 1) }
{
    counts.iter().all(|count| *count == 1)
}

/// Counts the indices of a worker's receipts. Returns whether each receipt is that of the record at its index, and
/// the indices rise and were not counted before.
fn joins(records: &[Record], counts: &mut Vec<u8>, receipts: &[Receipt]) -> bool
    requires len { length counts.old.items ≡ length records.now }
    ensures len { length counts.new.items ≡ length counts.old.items }
    ensures same { IsTrue result → All (IsOf records.now) receipts.now }
    ensures rising { IsTrue result → IsRising receipts.now }
    ensures counted { IsTrue result → EachIndex counts.old.items (λ (position : ℕ).
        slice_index counts.new.items position ≡ slice_index counts.old.items position + times receipts.now position) }
    ensures twice { IsFalse result → All (IsOf records.now) receipts.now → IsRising receipts.now
        → SomeIndex counts.old.items (λ (position : ℕ).
        1 < slice_index counts.old.items position + times receipts.now position) }
{
    if !are_of(records, receipts) || !is_rising(receipts) {
        return false;
    }
    count(counts, receipts)
}

/// Returns whether a round is settled: each receipt is that of the record at its index, the indices of each worker
/// rise, and each record of the journal has one receipt.
pub fn is_settled(alloc: Global, journal: &Journal, workers: &[Receipts]) -> Result<bool, NoMemory>
    ensures settled { IfOk result (λ settled. IsTrue settled ↔ IsSettled journal.now.records workers.now) }
{
    let records = journal.records();
    let mut counts = Vec::from_elem(alloc, 0, records.len())?;
    for kept in workers {
        if !joins(records, &mut counts, kept.as_slice()) {
            return Ok(false);
        }
    }
    Ok(all_once(counts.as_slice()))
}
