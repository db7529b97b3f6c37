//! A conversation, and its expected result.
use crate::talks::line_fault::LineFault;
use crate::text::put_bytes;
use std::alloc::{AllocError, Global};
use up_words::{Words, WordsFault, words};

/// What is asked in a conversation, of which server, and the expected result.
#[derive(Drop)]
pub struct Talk {
    pub name: String,
    /// What the words of the command line ask for, if they are given.
    pub words: Option<Words>,
    pub asked: Vec<u8>,
    /// How many of the asked bytes must be read, if that is given.
    pub read: Option<usize>,
    pub wanted: Vec<u8>,
    /// The text of the fault with which the run must end, if any.
    pub fault: Option<String>,
}

impl Talk {
    /// A talk in which nothing is asked and nothing expected.
    pub fn new(alloc: Global, name: &str) -> Result<Talk, LineFault> {
        if name.is_empty() {
            return Err(LineFault::NoName);
        }
        Ok(Talk {
            name: String::from_str(alloc, name)?,
            words: None,
            asked: Vec::new(alloc),
            read: None,
            wanted: Vec::new(alloc),
            fault: None,
        })
    }

    /// Adds a line.
    pub fn add(&mut self, alloc: Global, mark: &str, text: &str) -> Result<(), LineFault> {
        match mark {
            "words" => set(&mut self.words, words_of(alloc, text)?),
            "fault" => set(&mut self.fault, String::from_str(alloc, text)?),
            "unread" => set(&mut self.read, self.asked.len()),
            ">>" => put_ask(&mut self.asked, text),
            ">" => put_line(&mut self.asked, text),
            ">." => Ok(put_bytes(&mut self.asked, text)?),
            ">*" => put_times(&mut self.asked, text),
            "<<" => put_answer(&mut self.wanted, text),
            "<" => put_line(&mut self.wanted, text),
            "<." => Ok(put_bytes(&mut self.wanted, text)?),
            "<*" => put_times(&mut self.wanted, text),
            "|" => put_feed(&mut self.wanted, text),
            _ => Err(LineFault::Mark),
        }
    }
}

/// Stores a value, which may be given only once.
fn set<T: Drop>(kept: &mut Option<T>, said: T) -> Result<(), LineFault> {
    if kept.is_some() {
        return Err(LineFault::Twice);
    }
    *kept = Some(said);
    Ok(())
}

/// What these words ask for after `replay`.
fn words_of(alloc: Global, text: &str) -> Result<Words, LineFault> {
    let mut list = Vec::new(alloc);
    list.push(String::from_str(alloc, "replay")?)?;
    for word in text.split_ascii_whitespace() {
        list.push(String::from_str(alloc, word)?)?;
    }
    words(alloc, list).map_err(|fault| match fault {
        WordsFault::Refused(_) => LineFault::Words,
        WordsFault::Memory => LineFault::Memory(AllocError),
    })
}

fn put_line(bytes: &mut Vec<u8>, text: &str) -> Result<(), LineFault> {
    put_bytes(bytes, text)?;
    bytes.extend_from_slice(b"\r\n")?;
    Ok(())
}

fn put_feed(bytes: &mut Vec<u8>, text: &str) -> Result<(), LineFault> {
    put_bytes(bytes, text)?;
    bytes.push(b'\n')?;
    Ok(())
}

/// Adds the start of a message with this method and target.
fn put_ask(bytes: &mut Vec<u8>, text: &str) -> Result<(), LineFault> {
    put_bytes(bytes, text)?;
    bytes.extend_from_slice(b" HTTP/1.1\r\nHost: a\r\nTus-Resumable: 1.0.0\r\n")?;
    Ok(())
}

/// Adds the start of a response with this status.
fn put_answer(bytes: &mut Vec<u8>, text: &str) -> Result<(), LineFault> {
    bytes.extend_from_slice(b"HTTP/1.1 ")?;
    put_bytes(bytes, text)?;
    bytes.extend_from_slice(b"\r\nTus-Resumable: 1.0.0\r\nCache-Control: no-store\r\n")?;
    Ok(())
}

/// Adds a text as often as the number before it says.
fn put_times(bytes: &mut Vec<u8>, text: &str) -> Result<(), LineFault> {
    let Some((count, text)) = text.split_once(' ') else {
        return Err(LineFault::Count);
    };
    let Ok(count) = count.parse::<u32>() else {
        return Err(LineFault::Count);
    };
    for _ in 0..count {
        put_bytes(bytes, text)?;
    }
    Ok(())
}
