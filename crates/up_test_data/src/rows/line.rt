//! The words of a line.
use crate::rows::row_fault::RowFault;

/// The first word of a text, and the text after it.
pub fn cut(text: &str) -> (&str, &str) {
    text.split_once(' ').unwrap_or((text, ""))
}

/// The number in a word.
pub fn number_of(word: &str) -> Result<u64, RowFault> {
    word.parse::<u64>().map_err(|_| RowFault::Number)
}
