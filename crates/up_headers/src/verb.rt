//! The methods that the server distinguishes.
ghost use Rattle.std.specs.Prelude.{◌≡◌};
ghost use Rattle.up_headers.specs.Verbs.{verb_of};

/// The method of a request.
#[derive(Clone, Copy, PartialEq, Eq)]
pub(crate) enum Verb {
    Options,
    Post,
    Head,
    Patch,
    Delete,
    Get,
    /// Any other method. No place supports it.
    Other,
}

/// The method with this name; upper and lower case differ (RFC 9110, section 9.1).
pub(crate) fn verb_of(name: &[u8]) -> Verb
    ensures { result ≡ verb_of name.now }
{
    if name == b"OPTIONS".as_slice() {
        Verb::Options
    } else if name == b"POST".as_slice() {
        Verb::Post
    } else if name == b"HEAD".as_slice() {
        Verb::Head
    } else if name == b"PATCH".as_slice() {
        Verb::Patch
    } else if name == b"DELETE".as_slice() {
        Verb::Delete
    } else if name == b"GET".as_slice() {
        Verb::Get
    } else {
        Verb::Other
    }
}
