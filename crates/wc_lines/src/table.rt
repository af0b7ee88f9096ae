//! Values by their words.

/// The value of the first entry of this word; `None` where there is no such entry.
pub fn named<T: Copy>(table: &[(&str, T)], word: &str) -> Option<T> {
    for entry in table {
        if entry.0 == word {
            return Some(entry.1);
        }
    }
    None
}
