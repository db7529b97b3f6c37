//! What the words of a command line ask for, as text.
use crate::rows::row_fault::RowFault;
use std::alloc::{AllocError, Global};
use up_words::{Words, WordsFault, words};

/// What is asked for, as text.
fn text_of(alloc: Global, words: &Words) -> Result<String, AllocError> {
    format!(in alloc; "{words:?}")
}

/// What is asked for if nothing is said.
pub fn default(alloc: Global) -> Result<String, RowFault> {
    Ok(text_of(alloc, &Words::default())?)
}

/// The words of a text, which are between spaces.
fn split(alloc: Global, text: &str) -> Result<Vec<String>, AllocError> {
    let mut list = Vec::new(alloc);
    for word in text.split_ascii_whitespace() {
        list.push(String::from_str(alloc, word)?)?;
    }
    Ok(list)
}

/// What these words ask for, or "refused".
pub fn asked(alloc: Global, text: &str) -> Result<String, RowFault> {
    match words(alloc, split(alloc, text)?) {
        Ok(words) => Ok(text_of(alloc, &words)?),
        Err(WordsFault::Refused(_)) => Ok(String::from_str(alloc, "refused")?),
        Err(WordsFault::Memory) => Err(RowFault::Memory(AllocError)),
    }
}
