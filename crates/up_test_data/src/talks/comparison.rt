//! Comparing the result of a talk with the expected one.
ghost use Rattle.std.specs.Prelude.{◌≡◌, ◌≢◌, Ok, IsOk, IsNone, IsTrue, IfOk};
ghost use Rattle.up_events.specs.Delivery.{IsPrefix};
ghost use Rattle.up_test_data.specs.declared.talks.comparison.Comparison.TheVariants.{Line, Same};

use crate::talks::serving::Served;
use crate::talks::talk::Talk;
use crate::text::{LineDifference, difference};
use std::alloc::{AllocError, Global};
use std::fmt;
use up_server::ServerFault;

/// How the result of a talk compares with the expected one.
#[derive(Clone, Copy)]
pub enum Comparison<'a> {
    Same,
    Line(LineDifference<'a>),
    /// The run ended differently.
    Ended(Result<(), ServerFault>),
    /// The run left this number of bytes unread.
    Unread(usize),
    /// A book alone gives other replies, or accepts another number of changes.
    Twin,
}

impl<'a> fmt::Display for Comparison<'a> {
    fn fmt<W: fmt::Write>(&self, f: &mut fmt::Formatter<W>) -> fmt::Result {
        match self {
            Comparison::Same => write!(f, "same"),
            Comparison::Line(line) => write!(f, "differs at {line}"),
            Comparison::Ended(Ok(())) => write!(f, "differs, since it ended without a fault"),
            Comparison::Ended(Err(fault)) => write!(
                f,
                "differs, since it ended with the fault {fault}"
            ),
            Comparison::Unread(count) => write!(f, "differs, since {count} bytes were left unread"),
            Comparison::Twin => write!(f, "differs from what a book alone answers"),
        }
    }
}

/// Whether a run ended with the fault of this text, or without a fault if there is no text.
fn ends_so(
    alloc: Global,
    wanted: &Option<String>,
    ended: Result<(), ServerFault>,
) -> Result<bool, AllocError>
    ensures without { IsNone wanted.now → IfOk result (λ so. IsTrue so → IsOk ended) }
{
    match (wanted, ended) {
        (None, Ok(())) => Ok(true),
        (Some(text), Err(fault)) => Ok(fault.to_string(alloc)?.as_str() == text.as_str()),
        _ => Ok(false),
    }
}

/// Whether the expected number of bytes was left unread.
fn stops_so(talk: &Talk, unread: usize) -> bool {
    match talk.read {
        Some(read) => talk.asked.len().saturating_sub(read) == unread,
        None => true,
    }
}

/// Whether a text begins with another.
fn begins_with(text: &[u8], front: &[u8]) -> bool
    ensures { IsTrue result → IsPrefix front.now text.now }
{
    text.starts_with(front)
}

/// How the result of a talk compares with the expected one: the first line that differs, or else how it ended, or else
/// how much it left unread, or else whether a book alone gives the same replies.
pub fn compare<'a>(
    alloc: Global,
    talk: &'a Talk,
    served: &'a Served,
) -> Result<Comparison<'a>, AllocError>
    ensures written { result ≡ Ok Same → talk.now.wanted.items ≡ served.now.written.items }
    ensures line { (line : _) → result ≡ Ok (Line line)
        → talk.now.wanted.items ≢ served.now.written.items }
    ensures ended { IsNone talk.now.fault → result ≡ Ok Same → IsOk served.now.ended }
    ensures twin { result ≡ Ok Same → IsPrefix served.now.twin.items served.now.written.items }
{
    if let Some(line) = difference(&talk.wanted, &served.written) {
        return Ok(Comparison::Line(line));
    }
    if !ends_so(alloc, &talk.fault, served.ended)? {
        return Ok(Comparison::Ended(served.ended));
    }
    if !stops_so(talk, served.unread) {
        return Ok(Comparison::Unread(served.unread));
    }
    if !begins_with(&served.written, &served.twin) {
        return Ok(Comparison::Twin);
    }
    Ok(Comparison::Same)
}
