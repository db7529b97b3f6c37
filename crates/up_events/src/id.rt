//! The id of an upload: a number, and its text of 32 digits.
ghost use Rattle.std.specs.Prelude.{◌≡◌, ◌≢◌, ◌%◌, ◌<◌, ℕ, Some};
ghost use Rattle.std.specs.Option.{IfSome, IfNone};
ghost use Rattle.up_events.specs.IdText.{text_of, hex_digit};

use std::fmt;
use std::marker::Model;

/// The id of an upload. Ids have the order of their numbers.
#[derive(Clone, Copy, Debug, PartialEq, Eq, PartialOrd, Ord, Hash)]
pub struct Id(u128);

impl Model for Id {
    ghost Value = { ℕ };

    ghost view = { λ a. a.0 };

    ghost inverse = { λ n. record { 0 = n } };
}

/// The ASCII code of a hexadecimal digit, in lower case.
fn hex_digit(digit: u8) -> u8
    requires { digit < 16 }
    ensures { result ≡ hex_digit digit }
{
    if digit < 10 {
        b'0' + digit
    } else {
        b'a' - 10 + digit
    }
}

/// The digit with this ASCII code.
fn digit_value(byte: u8) -> Option<u8>
    ensures some { IfSome result (λ digit. (digit < 16) × (byte ≡ hex_digit digit)) }
    ensures none { IfNone result ((digit : ℕ) → digit < 16 → byte ≢ hex_digit digit) }
{
    match byte {
        b'0'..=b'9' => Some(byte - b'0'),
        b'a'..=b'f' => Some(byte - b'a' + 10),
        _ => None,
    }
}

impl Id {
    /// The id with this number.
    pub fn new(number: u128) -> Self
        ensures { result ≡ number }
    {
        Id(number)
    }

    /// The number of the id.
    pub fn number(&self) -> u128
        ensures { result ≡ self.now }
    {
        self.0
    }

    /// The id with this text, which must be exactly 32 hexadecimal digits in lower case. `None` for any other text.
    pub fn parse(text: &[u8]) -> Option<Self>
        ensures some { IfSome result (λ id. text.now ≡ text_of id) }
        ensures none { IfNone result ((id : ℕ) → text.now ≢ text_of id) }
    {
        if text.len() != 32 {
            return None;
        }
        let mut number: u128 = 0;
        for byte in text {
            number = number * 16 + u128::from(digit_value(*byte)?);
        }
        Some(Id(number))
    }

    /// The remainder of the id's number, divided by `divisor`.
    pub(crate) fn modulo(&self, divisor: u64) -> u64
        requires { 0 < divisor }
        ensures { result ≡ self.now % divisor }
    {
        (self.0 % u128::from(divisor)) as u64
    }

    /// The lane for the events of this upload if there are `lanes` lanes. The first lane is 0.
    pub fn lane(&self, lanes: u64) -> u64
        requires { 0 < lanes }
        ensures { result ≡ self.now % lanes }
    {
        self.modulo(lanes)
    }

    /// The id as 32 hexadecimal digits in lower case, the highest digit first.
    pub fn text(&self) -> [u8; 32]
        ensures { result ≡ text_of self.now }
    {
        hex_text(self.0)
    }
}

impl fmt::Display for Id {
    ghost output = { λ id. Some (text_of id) };

    fn fmt<W: fmt::Write>(&self, f: &mut fmt::Formatter<W>) -> fmt::Result {
        let digits = self.text();
        let text = str::from_utf8(&digits).unwrap();
        write!(f, "{text}")
    }
}

/// The 32 digits of a number, the highest digit first.
fn hex_text(number: u128) -> [u8; 32]
    ensures { result ≡ text_of number }
{
    let mut text = [0; 32];
    let mut rest = number;
    let mut places = 32;
    while places > 0 {
        places -= 1;
        text[places] = hex_digit((rest % 16) as u8);
        rest /= 16;
    }
    text
}
