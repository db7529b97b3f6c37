//! A closure's reason for refusing a request.
ghost use Rattle.std.specs.Prelude.{◌≡◌, ◌-◌, ◌≤◌, ◌++◌, true, length, replicate};
ghost use Rattle.std.specs.List.{list_all};
ghost use Rattle.up_machine.specs.Reasons.{is_printable, is_reason, reason_of};

use std::marker::Model;

/// The maximum number of bytes of a reason.
const MAX_REASON_BYTES: usize = 80;

/// A closure's reason for refusing a request: 1 to 80 bytes, each of them a space or a visible character of ASCII (0x20
/// to 0x7E). It is the body of the response, followed by a line feed.
#[derive(Clone, Copy, Debug, PartialEq, Eq)]
pub struct Reason {
    bytes: [u8; MAX_REASON_BYTES],
    count: usize,
}

impl Model for Reason {
    ghost use Rattle.std.specs.Prelude.{List, ℕ, take};
    ghost use Rattle.std.specs.Coded.{coded_list, coded_ℕ};

    ghost Value = { List ℕ };

    ghost coded = { coded_list coded_ℕ };

    ghost use Rattle.up_machine.specs.Padded.{IsPadded, padded, padded_back};

    ghost view = { λ a. take a.count a.bytes };

    ghost invariant = { IsPadded };

    ghost inverse = { padded };

    ghost inverse_ok = { padded_back };
}

/// Whether the byte is a space or a visible character of ASCII.
fn is_printable(byte: u8) -> bool
    ensures { result ≡ is_printable byte }
{
    (0x20..=0x7e).contains(&byte)
}

/// Whether all bytes of the text are spaces or visible characters of ASCII.
fn are_printable(text: &[u8]) -> bool
    ensures { result ≡ list_all is_printable text.now }
{
    text.iter().all(|byte| is_printable(*byte))
}

/// Whether the text can be a reason.
fn is_reason(text: &[u8]) -> bool
    ensures { result ≡ is_reason text.now }
{
    !text.is_empty() && text.len() <= MAX_REASON_BYTES && are_printable(text)
}

/// The text, followed by zeros.
fn padded(text: &[u8]) -> [u8; MAX_REASON_BYTES]
    requires { length text.now ≤ 80 }
    ensures { result ≡ text.now ++ replicate (80 - length text.now) 0 }
{
    let mut bytes = [0; MAX_REASON_BYTES];
    bytes[..text.len()].copy_from_slice(text);
    bytes
}

impl Reason {
    /// The reason with this text. `None` if the text is empty, has more than 80 bytes, or has a byte that is neither a
    /// space nor a visible character of ASCII.
    pub fn new(text: &[u8]) -> Option<Self>
        ensures { result ≡ reason_of text.now }
    {
        if is_reason(text) {
            Some(Reason {
                bytes: padded(text),
                count: text.len(),
            })
        } else {
            None
        }
    }

    /// The text.
    pub fn bytes(&self) -> &[u8]
        ensures value { result.now ≡ self.now }
        ensures text { is_reason result.now ≡ true }
    {
        &self.bytes[..self.count]
    }
}
