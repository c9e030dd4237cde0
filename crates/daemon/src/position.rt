//! Positions in a list. The first position is 1.
ghost use Rattle.std.specs.Prelude.{MatchOption};
ghost use Rattle.daemon.specs.Serving.{IsIndex, HasNone};

/// Returns the index of `position` in a list of `count` members. Returns none if the list has no such position.
pub fn index_of(position: u64, count: usize) -> Option<usize>
    ensures index { MatchOption result (HasNone count position) (IsIndex count position) }
{
    if position == 0 {
        return None;
    }
    if position - 1 >= count as u64 {
        return None;
    }
    Some((position - 1) as usize)
}
