//! Bytes as text, with Rust's escapes.
use std::alloc::AllocError;
use std::fmt::Write;

/// Adds the bytes.
pub fn push_escaped(words: &mut String, bytes: &[u8]) -> Result<(), AllocError> {
    write!(words, "{}", bytes.escape_ascii())
}

/// Adds the bytes in brackets.
pub fn push_in_brackets(words: &mut String, bytes: &[u8]) -> Result<(), AllocError> {
    words.push_str("[")?;
    push_escaped(words, bytes)?;
    words.push_str("]")
}

/// Adds a name and its value, with this mark between them.
pub fn push_pair(
    words: &mut String,
    name: &[u8],
    mark: &str,
    value: &[u8],
) -> Result<(), AllocError> {
    push_escaped(words, name)?;
    words.push_str(mark)?;
    push_escaped(words, value)
}
