//! Cells: each is empty, or has a key and its number.
ghost use Rattle.std.specs.Prelude.{◌≡◌, ℕ, ◌<◌, ◌==◌, ◌&&◌, None, Some, if◌then◌else◌};
ghost use Rattle.key_map.specs.Cells.{bits, home, in_cell, kept_at};

/// A key and its number. A cell with number 0 is empty.
#[derive(Clone, Copy)]
pub(crate) struct Cell {
    key: u64,
    number: u64,
}

/// Returns the bits of `key` from `shift` on, once it is multiplied by a large odd number.
#[tactic(auto, unfolding(crate::specs::Cells::bits))]
fn bits_of(shift: u32, key: u64) -> u64
    ensures bits { result ≡ bits shift key }
{
    key.wrapping_mul(0xD6E8_FEB8_6659_FD93).wrapping_shr(shift)
}

/// Returns the index of the bucket that `key` has among `len` buckets.
pub(crate) fn home_of(len: usize, shift: u32, key: u64) -> usize
    requires { 0 < len }
    ensures home { result ≡ home shift len key }
    ensures bound { result < len }
{
    (bits_of(shift, key) % len as u64) as usize
}

impl Cell {
    pub(crate) const EMPTY: Cell = Cell { key: 0, number: 0 };

    /// Returns the number of the cell, if it has one and its key is `key`.
    pub(crate) fn get(self, key: u64) -> Option<u64>
        ensures number { result ≡ in_cell key self }
    {
        if self.key == key && self.number > 0 {
            return Some(self.number);
        }
        None
    }

    /// Fills an empty cell with `key` and `number`, and returns whether it did. It never puts a `number` of 0.
    pub(crate) fn put(&mut self, key: u64, number: u64) -> bool
        ensures put { (k : ℕ) → in_cell k self.new
            ≡ (if result && k == key then Some number else in_cell k self.old) }
    {
        if self.number > 0 || number == 0 {
            return false;
        }
        *self = Cell { key, number };
        true
    }

    /// Empties the cell, if its key is `key`.
    pub(crate) fn empty(&mut self, key: u64)
        ensures emptied { (k : ℕ) → in_cell k self.new ≡ (if k == key then None else in_cell k self.old) }
    {
        if self.key == key {
            *self = Cell::EMPTY;
        }
    }

    /// Returns the cell if its key has the bucket at index `place` of `len` buckets, else an empty cell.
    pub(crate) fn kept_at(self, shift: u32, len: usize, place: usize) -> Cell
        requires room { 0 < len }
        ensures cell { result ≡ kept_at shift len place self }
    {
        if home_of(len, shift, self.key) == place {
            return self;
        }
        Cell::EMPTY
    }
}
