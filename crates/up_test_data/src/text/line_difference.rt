//! Where two texts differ.
ghost use Rattle.std.specs.Prelude.{◌≡◌, ◌≤◌, ◌↔◌, IsNone, length};

use std::fmt;

/// The first line in which two texts differ.
#[derive(Clone, Copy)]
pub struct LineDifference<'a> {
    /// The number of the line, counted from 1.
    pub number: usize,
    /// The line in the first text, with its line feed; empty if that text has ended.
    pub wanted: &'a [u8],
    /// The line in the second text, likewise.
    pub written: &'a [u8],
}

impl<'a> fmt::Display for LineDifference<'a> {
    fn fmt<W: fmt::Write>(&self, f: &mut fmt::Formatter<W>) -> fmt::Result {
        let number = self.number;
        let wanted = self.wanted.escape_ascii();
        let written = self.written.escape_ascii();
        write!(
            f,
            "line {number}: wanted \"{wanted}\", written \"{written}\""
        )
    }
}

/// The number of bytes that two texts have in common at their start.
fn common(one: &[u8], other: &[u8]) -> usize
    ensures { (result ≤ length one.now) × (result ≤ length other.now) }
{
    one.iter()
        .zip(other.iter())
        .take_while(|pair| pair.0 == pair.1)
        .count()
}

/// The line from a place on, with its line feed.
fn line_at(text: &[u8], start: usize) -> &[u8]
    requires { start ≤ length text.now }
{
    let rest = &text[start..];
    match rest.iter().position(|byte| *byte == b'\n') {
        Some(feed) => &rest[..feed + 1],
        None => rest,
    }
}

/// The first line in which the texts differ, if they do. A line ends with its line feed.
pub fn difference<'a>(wanted: &'a [u8], written: &'a [u8]) -> Option<LineDifference<'a>>
    ensures { IsNone result ↔ (wanted.now ≡ written.now) }
{
    if wanted == written {
        return None;
    }
    let front = &wanted[..common(wanted, written)];
    let feeds = front.iter().filter(|byte| **byte == b'\n').count();
    let start = match front.iter().rposition(|byte| *byte == b'\n') {
        Some(feed) => feed + 1,
        None => 0,
    };
    Some(LineDifference {
        number: feeds + 1,
        wanted: line_at(wanted, start),
        written: line_at(written, start),
    })
}
