//! Reading the fields of a head.
ghost use Rattle.std.specs.Prelude.{◌≡◌};
ghost use Rattle.up_message.specs.Fields.{values, same_name, trim_end_ows, IsOneOf};

use crate::message::Field;
use httparse::is_space_or_tab;

/// The values of the fields of one name (RFC 9110, section 5.3).
#[derive(Clone, Copy)]
pub enum Values<'a> {
    /// No field has the name.
    Absent,
    /// Exactly one field has the name, and this is its value.
    One(&'a [u8]),
    /// More than one field has the name.
    Several,
}

/// Whether the names of two fields are the same, ignoring case (RFC 9110, section 5.1).
pub fn same_name(a: &[u8], b: &[u8]) -> bool
    ensures { result ≡ same_name a.now b.now }
{
    a.eq_ignore_ascii_case(b)
}

/// The value of the field with this name, if exactly one field has it. Names are compared ignoring case.
pub fn find_value<'a>(fields: &'a [Field], name: &[u8]) -> Values<'a>
    ensures { IsOneOf result (values name.now fields.now) }
{
    let mut found = Values::Absent;
    for field in fields {
        if same_name(field.0.as_slice(), name) {
            found = match found {
                Values::Absent => Values::One(field.1.as_slice()),
                _ => Values::Several,
            };
        }
    }
    found
}

/// The text without the spaces and tabs at its end (RFC 9110, section 5.6.3).
pub fn trim_end_ows(mut text: &[u8]) -> &[u8]
    ensures { result.now ≡ trim_end_ows text.now }
{
    while let [rest @ .., last] = text
        && is_space_or_tab(*last)
    {
        text = rest;
    }
    text
}
