//! The verdicts of the rules on a request.
ghost use Rattle.std.specs.Prelude.{◌≡◌, true, IsTrue};
ghost use Rattle.up_headers.specs.Creations.{is_above};
ghost use Rattle.up_hooks.specs.Verdicts.{is_allowed_verdict};
ghost use Rattle.up_machine.specs.Reasons.{is_reason};
ghost use Rattle.up_machine.specs.declared.ask.Verdict.TheVariants.{Refuse};
ghost use Rattle.up_rules.specs.Rules.{at_most, finishes_at_most, keeps, needs_key};

use up_events::Kind;
use up_machine::{Ask, Reason, Verdict};

/// A refusal with this status and this reason, as a verdict of a closure. The reason has 1 to 80 bytes, each a space or
/// a visible character of ASCII. The closure must show that it may refuse with this status.
pub fn refuse(status: u16, text: &[u8]) -> Verdict
    requires { is_reason text.now ≡ true }
    ensures { result ≡ Refuse status text.now }
{
    let reason = Reason::new(text).unwrap();
    Verdict::Refuse { status, reason }
}

/// Refuses a plain or final upload whose metadata does not have this key, compared byte for byte, with 422. The value
/// may be empty, and a partial upload needs no key.
pub fn needs_key(ask: &Ask, key: &[u8]) -> Verdict
    ensures answer { result ≡ needs_key ask.now key.now }
    ensures lawful { IsTrue (is_allowed_verdict result) }
{
    if ask.kind == Kind::Partial || ask.value(key).is_some() {
        Verdict::Allow
    } else {
        refuse(422, b"metadata key missing")
    }
}

/// Whether the length of the upload is known and above the limit.
fn is_longer(ask: &Ask, limit: u64) -> bool
    ensures { result ≡ is_above limit ask.now.length }
{
    ask.length.is_some_and(|length| length > limit)
}

/// Refuses an upload with more bytes than the limit, with 413. The length of a final upload is that of its parts
/// together. An upload whose length is not known yet is allowed.
pub fn at_most(ask: &Ask, limit: u64) -> Verdict
    ensures answer { result ≡ at_most ask.now limit }
    ensures lawful { IsTrue (is_allowed_verdict result) }
{
    if is_longer(ask, limit) {
        refuse(413, b"too long for this server")
    } else {
        Verdict::Allow
    }
}

/// Refuses to complete an upload with more bytes than the limit, with 422.
pub fn finishes_at_most(ask: &Ask, limit: u64) -> Verdict
    ensures answer { result ≡ finishes_at_most ask.now limit }
    ensures lawful { IsTrue (is_allowed_verdict result) }
{
    if is_longer(ask, limit) {
        refuse(422, b"too long to finish")
    } else {
        Verdict::Allow
    }
}

/// Refuses every request, with 403.
pub fn keeps(ask: &Ask) -> Verdict
    ensures answer { result ≡ keeps ask.now }
    ensures lawful { IsTrue (is_allowed_verdict result) }
{
    refuse(403, b"uploads are kept")
}
