//! Words between spaces.
ghost use Rattle.std.specs.Prelude.{◌≡◌};
ghost use Rattle.up_headers.specs.Words.{IsFirstWord, skip_spaces, from_space, trim_end_spaces};

/// The text after the spaces at its start.
pub(crate) fn skip_spaces(mut text: &[u8]) -> &[u8]
    ensures { result.now ≡ skip_spaces text.now }
{
    while let [first, rest @ ..] = text
        && *first == b' '
    {
        text = rest;
    }
    text
}

/// The text from its first space on.
fn from_space(mut text: &[u8]) -> &[u8]
    ensures { result.now ≡ from_space text.now }
{
    while let [first, rest @ ..] = text
        && *first != b' '
    {
        text = rest;
    }
    text
}

/// The text without the spaces at its end.
pub(crate) fn trim_end_spaces(mut text: &[u8]) -> &[u8]
    ensures { result.now ≡ trim_end_spaces text.now }
{
    while let [rest @ .., last] = text
        && *last == b' '
    {
        text = rest;
    }
    text
}

/// The first word of the text, and the text after it. `None` if there are only spaces.
pub(crate) fn first_word(text: &[u8]) -> Option<(&[u8], &[u8])>
    ensures { IsFirstWord text.now result }
{
    let text = skip_spaces(text);
    let behind = from_space(text);
    let word = &text[..text.len() - behind.len()];
    if word.is_empty() {
        None
    } else {
        Some((word, behind))
    }
}
