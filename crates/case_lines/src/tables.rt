//! Words that name values.

/// The value that a word names in a table.
pub fn named<T: Copy>(table: &[(&'static str, T)], word: &[u8]) -> Option<T> {
    for (name, value) in table {
        if name.as_bytes() == word {
            return Some(*value);
        }
    }
    None
}
