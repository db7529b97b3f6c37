//! The talks of a text.
use crate::talks::line_fault::{BadLine, LineFault};
use crate::talks::talk::Talk;
use std::alloc::Global;

/// Reads a line: a new talk, or more of the last one.
fn take_line(alloc: Global, talks: &mut Vec<Talk>, line: &str) -> Result<(), LineFault> {
    if line.is_empty() || line.starts_with('#') {
        return Ok(());
    }
    let (mark, text) = line.split_once(' ').unwrap_or((line, ""));
    if mark == "talk" {
        talks.push(Talk::new(alloc, text)?)?;
        return Ok(());
    }
    match talks.last_mut() {
        Some(talk) => talk.add(alloc, mark, text),
        None => Err(LineFault::Outside),
    }
}

/// The talks of a text, in order. The error is the first line that cannot be read.
pub fn talks_of(alloc: Global, text: &str) -> Result<Vec<Talk>, BadLine> {
    let mut talks = Vec::new(alloc);
    for (before, line) in text.lines().enumerate() {
        if let Err(fault) = take_line(alloc, &mut talks, line) {
            return Err(BadLine {
                number: before + 1,
                fault,
            });
        }
    }
    Ok(talks)
}
