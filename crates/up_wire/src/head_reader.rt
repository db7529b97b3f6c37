//! Reading a head.
ghost use Rattle.std.specs.Prelude.{◌≡◌, ◌<◌, false};
ghost use Rattle.httparse.specs.Grammar.{HasNoRequest};
ghost use Rattle.up_wire.specs.Message.{is_crlfs};
ghost use Rattle.up_wire.specs.Limits.{max_interruptions};
ghost use Rattle.up_wire.specs.Steps.{HasRead, IsFaultOfPartialHead, IsHeadRead};

use crate::device::Source;
use crate::head::{Head, MAX_FIELDS, Parsed, parse};
use crate::line::{Line, is_line_end, take_line};
use crate::wire_fault::WireFault;
use httparse::spans::{EMPTY_HEADER_SPAN, parse_request};
use httparse::{Error, Status};
use std::alloc::Global;

/// The maximum number of bytes of a head.
pub(crate) const MAX_HEAD: usize = 16384;

/// The result of reading a head.
#[derive(Drop)]
pub(crate) enum HeadRead {
    Whole(Head),
    Fault { fault: WireFault, bare: bool },
    End,
}

impl HeadRead {
    /// A fault whose response has a body.
    fn refuse(fault: WireFault) -> HeadRead
        ensures { result ≡ HeadRead.Fault fault false }
    {
        HeadRead::Fault { fault, bare: false }
    }
}

/// Whether the bytes are only empty lines.
fn is_blank(mut text: &[u8]) -> bool
    ensures { result ≡ is_crlfs text.now }
{
    while let [b'\r', b'\n', rest @ ..] = text {
        text = rest;
    }
    text.is_empty()
}

/// The fault of bytes that are no head: `waiting` if they can still become one.
fn fault_of(text: &[u8], waiting: WireFault) -> WireFault
    requires { HasNoRequest text.now }
    ensures { IsFaultOfPartialHead text.now waiting result }
{
    let mut spans = [EMPTY_HEADER_SPAN; MAX_FIELDS];
    match parse_request(text, &mut spans) {
        Ok(Status::Partial) => waiting,
        Ok(Status::Complete(_)) => unreachable!(),
        Err(Error::TooManyHeaders) => WireFault::HeadTooLarge,
        Err(_) => WireFault::BadHead,
    }
}

/// Reads a head, and no byte after it. Its bytes are parsed after its first line, so that a line that is not a request
/// line is refused at once, and after each empty line, which is where the head can be whole.
pub(crate) fn read_head<R: Source>(
    alloc: Global,
    source: &mut R,
    interruptions: &mut u32,
) -> HeadRead
    requires { interruptions.old < max_interruptions }
    ensures { HasRead (R.device source.old) (R.device source.new)
        interruptions.old interruptions.new
        (λ input ending. IsHeadRead input ending result) }
{
    let mut text = Vec::new(alloc);
    let mut is_begun = false;
    'lines: loop {
        let start = text.len();
        match take_line(source, interruptions, &mut text, MAX_HEAD) {
            Line::Whole => {
                let is_empty = is_line_end(&text[start..]);
                if is_begun == is_empty {
                    match parse(alloc, &text) {
                        Parsed::Whole(head) => return HeadRead::Whole(head),
                        Parsed::NoMemory(bare) => {
                            return HeadRead::Fault {
                                fault: WireFault::NoMemory,
                                bare,
                            };
                        }
                        Parsed::Partial => {}
                        Parsed::Invalid => return HeadRead::refuse(WireFault::BadHead),
                        Parsed::TooManyFields => return HeadRead::refuse(WireFault::HeadTooLarge),
                    }
                    is_begun = true;
                }
            }
            Line::Full => return HeadRead::refuse(fault_of(&text, WireFault::HeadTooLarge)),
            Line::Ended => {
                if is_blank(&text) {
                    return HeadRead::End;
                }
                return HeadRead::refuse(WireFault::BadHead);
            }
            Line::Failed => return HeadRead::refuse(fault_of(&text, WireFault::ReadFailed)),
            Line::NoMemory => return HeadRead::refuse(WireFault::NoMemory),
        }
    }
}
