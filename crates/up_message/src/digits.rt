//! Decimal numbers of any length.
ghost use Rattle.std.specs.Prelude.{◌≡◌, ◌^◌, ◌≤◌, IsTrue, MatchOption};
ghost use Rattle.std.specs.Str.Parse.{digits_value};
ghost use Rattle.std.specs.List.{list_all};
ghost use Rattle.std.specs.Char.{is_ascii_digit};
ghost use Rattle.up_message.specs.Digits.{is_digits};

/// Whether the text is one or more decimal digits.
pub fn is_digits(text: &[u8]) -> bool
    ensures { result ≡ is_digits text.now }
{
    !text.is_empty() && are_digits(text)
}

/// Whether all bytes of the text are decimal digits.
fn are_digits(text: &[u8]) -> bool
    ensures { result ≡ list_all is_ascii_digit text.now }
{
    text.iter().all(|b| b.is_ascii_digit())
}

/// The number that the digits spell, or `None` if it is 2^64 or more.
pub fn number(digits: &[u8]) -> Option<u64>
    requires { IsTrue (is_digits digits.now) }
    ensures { MatchOption result (2 ^ 64 ≤ digits_value 10 digits.now)
        (λ number. number ≡ digits_value 10 digits.now) }
{
    let mut number: u64 = 0;
    for b in digits {
        number = number.checked_mul(10)?.checked_add(u64::from(*b - b'0'))?;
    }
    Some(number)
}
