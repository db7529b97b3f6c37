//! Texts for bytes, with Rust's escapes: `\r`, `\n`, `\t`, `\\`, `\'`, `\"` and `\xHH`; the first line in which two
//! texts differ; and responses as text.
ghost use Rattle.std.specs.Prelude.{◌<◌, IfOk, length};

mod escaped;
mod line_difference;
mod pieces;
mod responses;

pub use crate::text::escaped::{push_escaped, push_in_brackets, push_pair};
pub use crate::text::line_difference::{LineDifference, difference};
pub use crate::text::pieces::bytes_of;
pub use crate::text::responses::{push_body, push_fields, push_pieces, push_response, push_runs};
use std::alloc::AllocError;
use thiserror::Error;

/// Why a text cannot be decoded to bytes.
#[derive(Clone, Copy, Debug, PartialEq, Eq, Error)]
pub enum EscapeFault {
    #[error("no such escape")]
    Escape,
    #[error(transparent)]
    Memory(#[from(alloc)] AllocError),
}

/// The value of a hexadecimal digit.
fn digit(byte: u8) -> Result<u8, EscapeFault>
    ensures { IfOk result (λ value. value < 16) }
{
    match byte {
        b'0'..=b'9' => Ok(byte - b'0'),
        b'a'..=b'f' => Ok(byte - b'a' + 10),
        b'A'..=b'F' => Ok(byte - b'A' + 10),
        _ => Err(EscapeFault::Escape),
    }
}

/// The byte that the text after a backslash begins with, and the text after it.
fn take_escape(text: &[u8]) -> Result<(u8, &[u8]), EscapeFault>
    ensures { IfOk result (λ taken. length taken.1.now < length text.now) }
{
    match text {
        [b'r', rest @ ..] => Ok((b'\r', rest)),
        [b'n', rest @ ..] => Ok((b'\n', rest)),
        [b't', rest @ ..] => Ok((b'\t', rest)),
        [b'x', high, low, rest @ ..] => Ok((digit(*high)? * 16 + digit(*low)?, rest)),
        [mark, rest @ ..] if matches!(*mark, b'\\' | b'\'' | b'"') => Ok((*mark, rest)),
        _ => Err(EscapeFault::Escape),
    }
}

/// Appends the bytes that a text encodes to `bytes`. `Escape` if an escape is unknown, `Memory` if memory runs out.
pub fn put_bytes(bytes: &mut Vec<u8>, text: &str) -> Result<(), EscapeFault> {
    let mut rest = text.as_bytes();
    while let [first, behind @ ..] = rest {
        if *first == b'\\' {
            let (byte, left) = take_escape(behind)?;
            bytes.push(byte)?;
            rest = left;
        } else {
            bytes.push(*first)?;
            rest = behind;
        }
    }
    Ok(())
}
