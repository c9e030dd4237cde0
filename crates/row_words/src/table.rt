//! Words that stand for one of a few things.

/// Returns what `word` stands for in `table`, if it is one of the words there.
pub fn chosen<T: Copy>(table: &[(&str, T)], word: &[u8]) -> Option<T> {
    for (known, meant) in table {
        if known.as_bytes() == word {
            return Some(*meant);
        }
    }
    None
}
