//! What a head says about the connection: that it closes after the message, or that the client waits for
//! `100 Continue`.
ghost use Rattle.std.specs.Prelude.{◌≡◌, codes};
ghost use Rattle.std.specs.List.{list_any};
ghost use Rattle.httparse.specs.Grammar.{skip_ows, trim_ows};
ghost use Rattle.up_message.specs.Fields.{values};
ghost use Rattle.up_wire.specs.Framing.{has_token, says_close, closes, is_continue, asks_to_continue};

use httparse::is_space_or_tab;
use up_message::{Field, same_name, trim_end_ows};

/// The text without the blanks before it.
fn trim_start_ows(mut text: &[u8]) -> &[u8]
    ensures { result.now ≡ skip_ows text.now }
{
    while let [first, rest @ ..] = text
        && is_space_or_tab(*first)
    {
        text = rest;
    }
    text
}

/// The text without the blanks around it.
fn trim_ows(text: &[u8]) -> &[u8]
    ensures { result.now ≡ trim_ows text.now }
{
    trim_end_ows(trim_start_ows(text))
}

/// Whether one of the tokens between the commas of the text is this one.
fn has_token(value: &[u8], token: &[u8]) -> bool
    ensures { result ≡ has_token token.now value.now }
{
    let mut rest = value;
    'pieces: loop {
        match rest.iter().position(|b| *b == b',') {
            Some(comma) => {
                if same_name(trim_ows(&rest[..comma]), token) {
                    return true;
                }
                rest = &rest[comma + 1..];
            }
            None => return same_name(trim_ows(rest), token),
        }
    }
}

/// Whether the connection closes after a message with these fields.
pub(crate) fn closes(minor: u8, fields: &[Field]) -> bool
    ensures { result ≡ closes minor fields.now }
{
    minor == 0 || says_close(fields)
}

/// Whether a `Connection` field has the token `close` (RFC 9112, section 9.6).
fn says_close(fields: &[Field]) -> bool
    ensures { result ≡ says_close fields.now }
{
    let mut closes = false;
    for field in fields {
        if same_name(field.0.as_slice(), b"connection") {
            closes |= has_token(field.1.as_slice(), b"close");
        }
    }
    closes
}

/// Whether the client waits for `100 Continue`.
pub(crate) fn asks_to_continue(minor: u8, fields: &[Field]) -> bool
    ensures { result ≡ asks_to_continue minor fields.now }
{
    minor == 1 && expects_continue(fields)
}

/// Whether an `Expect` field asks for `100 Continue` (RFC 9110, section 10.1.1).
fn expects_continue(fields: &[Field]) -> bool
    ensures { result ≡ list_any is_continue (values (codes "expect") fields.now) }
{
    let mut asks = false;
    for field in fields {
        if same_name(field.0.as_slice(), b"expect") {
            asks |= is_continue(field.1.as_slice());
        }
    }
    asks
}

/// Whether the value of an `Expect` field asks for `100 Continue`.
#[tactic(auto, unfolding(crate::specs::Framing::is_continue))]
fn is_continue(value: &[u8]) -> bool
    ensures { result ≡ is_continue value.now }
{
    same_name(value, b"100-continue")
}
