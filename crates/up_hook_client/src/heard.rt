//! What a hook server's answer says.
ghost use Rattle.std.specs.Prelude.{◌≡◌, ◌≢◌, ◌↔◌, IsSomeAnd, IsTrue, None, Some, codes};
ghost use Rattle.std.specs.Prelude.{false, true};
ghost use Rattle.std.specs.Option.{option_or};
ghost use Rattle.serde_json.specs.View.{view};
ghost use Rattle.up_hooks.specs.Verdicts.{is_allowed_verdict, is_refusal_status};
ghost use Rattle.up_hook_client.specs.Answers.{asked_of, body_of, status_of};
ghost use Rattle.up_hook_client.specs.Chosen.{is_asked_at};
ghost use Rattle.up_hook_client.specs.Heard.{Allows, IsEmptyAt, IsFalseAt};
ghost use Rattle.up_hook_client.specs.Heard.{IsSuccess, LetsPass};
ghost use Rattle.up_hook_client.specs.Told.{AsksAbout};
ghost use Rattle.up_machine.specs.declared.ask.Point.TheVariants.{Terminate};
ghost use Rattle.up_machine.specs.declared.ask.Verdict.TheVariants.{Allow};
ghost use Rattle.up_machine.specs.Reasons.{is_reason};

use crate::connection::Answer;
use crate::enabled::Enabled;
use serde_json::Value;
use std::alloc::Global;
use up_hooks::Origin;
use up_machine::{Ask, Point, Reason, Verdict};

/// The status of a refusal because the hook server gave no answer, or one that can't be understood.
const UNANSWERED: u16 = 409;

/// The most bytes of a reason.
const MAX_REASON: usize = 80;

/// A refusal with this status and this reason.
fn refuse(status: u16, text: &[u8]) -> Verdict
    requires status { IsTrue (is_refusal_status status) }
    requires reason { IsTrue (is_reason text.now) }
    ensures lawful { IsTrue (is_allowed_verdict result) }
    ensures refuses { result ≢ Allow }
{
    let reason = Reason::new(text).unwrap();
    Verdict::Refuse { status, reason }
}

/// Whether the answer acknowledges an event: its status says that the request succeeded.
pub fn is_acknowledgement(answer: &Answer) -> bool
    ensures { IsTrue result ↔ IsSuccess (status_of answer.now) }
{
    let status = answer.status();
    200 <= status && status < 300
}

/// The status of a refusal for that of an answer: the same if a closure may refuse with it, 403 for 401, and else 400.
fn refusal_status(status: Option<u64>) -> u16
    ensures { IsTrue (is_refusal_status result) }
{
    match status {
        Some(401 | 403) => 403,
        Some(409) => 409,
        Some(413) => 413,
        Some(422) => 422,
        Some(429) => 429,
        _ => 400,
    }
}

/// The first line of a text as a reason, or its first 80 bytes, if these can be one.
fn reason_of(text: &str) -> Option<Reason> {
    let line = text.lines().next().unwrap_or("");
    let bytes = line.as_bytes();
    Reason::new(&bytes[..bytes.len().min(MAX_REASON)])
}

/// The refusal that an answer asks for.
fn refusal_of(value: &Value) -> Verdict
    ensures lawful { IsTrue (is_allowed_verdict result) }
    ensures refuses { result ≢ Allow }
{
    let status = value.pointer("/HTTPResponse/StatusCode");
    let status = refusal_status(status.and_then(Value::as_u64));
    let body = value.pointer("/HTTPResponse/Body").and_then(Value::as_str);
    match body.and_then(reason_of) {
        Some(reason) => Verdict::Refuse { status, reason },
        None => refuse(status, b"rejected by the hook"),
    }
}

/// Whether the object has no such member, or the member is `null` or `false`.
fn is_false_at(value: &Value, key: &str) -> bool
    ensures { IsTrue result → IsFalseAt key.now (view value.now) }
{
    matches!(
        value.get(key),
        None | Some(Value::Null) | Some(Value::Bool(false))
    )
}

/// Whether the object has no such member, or the member is `null` or an empty object.
fn is_empty_at(value: &Value, key: &str) -> bool
    ensures { IsTrue result → IsEmptyAt key.now (view value.now) }
{
    match value.get(key) {
        None | Some(Value::Null) => true,
        Some(Value::Object(map)) => map.is_empty(),
        Some(_) => false,
    }
}

/// Whether an answer asks for no change of the upload.
fn changes_nothing(value: &Value) -> bool
    ensures { IsTrue result → IsEmptyAt (codes "ChangeFileInfo") (view value.now) }
{
    is_empty_at(value, "ChangeFileInfo")
}

/// Whether an answer says something that is ignored if it rejects nothing: that the upload is to stop, or what is to be
/// answered to the client.
fn says_more(value: &Value) -> bool {
    !is_false_at(value, "StopUpload") || !is_empty_at(value, "HTTPResponse")
}

/// Whether an answer rejects nothing at this point.
fn rejects_nothing(value: &Value, point: Point) -> bool
    ensures upload { IsTrue result → IsFalseAt (codes "RejectUpload") (view value.now) }
    ensures removal { IsTrue result → point ≡ Terminate
        → IsFalseAt (codes "RejectTermination") (view value.now) }
{
    if point == Point::Terminate && !is_false_at(value, "RejectTermination") {
        return false;
    }
    is_false_at(value, "RejectUpload")
}

/// The verdict of an answer in JSON, which was asked for at this point.
fn verdict_in(value: &Value, point: Point) -> Verdict
    ensures lawful { IsTrue (is_allowed_verdict result) }
    ensures allows { result ≡ Allow → LetsPass point (view value.now) }
{
    if !value.is_object() {
        return refuse(UNANSWERED, b"the hook's answer is no JSON");
    }
    if !rejects_nothing(value, point) {
        return refusal_of(value);
    }
    if !changes_nothing(value) {
        return refuse(UNANSWERED, b"the hook asks for a change of the upload");
    }
    Verdict::Allow
}

/// The verdict of a hook server's answer to what it was asked at this point, and whether the answer says more.
fn verdict_of(alloc: Global, point: Point, answer: &Answer) -> (Verdict, bool)
    ensures lawful { IsTrue (is_allowed_verdict result.0) }
    ensures allows { result.0 ≡ Allow → Allows point (status_of answer.now) (body_of answer.now) }
{
    if !is_acknowledgement(answer) {
        return (refuse(UNANSWERED, b"the hook has failed"), false);
    }
    let Ok(text) = str::from_utf8(answer.body()) else {
        return (refuse(UNANSWERED, b"the hook's answer is no JSON"), false);
    };
    match Value::from_str(alloc, text) {
        Ok(value) => (verdict_in(&value, point), says_more(&value)),
        Err(_) => (refuse(UNANSWERED, b"the hook's answer is no JSON"), false),
    }
}

/// What a hook server says of a request: the verdict, and the answer that it comes from. If the server is asked at this
/// point, it allows only by a whole answer of a status of 200 to 299 whose body is an object of JSON that rejects
/// nothing, and asks for no change of the upload.
#[derive(Drop)]
pub struct Judged {
    enabled: Enabled,
    point: Point,
    verdict: Verdict,
    /// Whether the answer says something that is ignored if it rejects nothing.
    says_more: bool,
    answer: Option<Answer>,
    ghost lawful: { IsTrue (is_allowed_verdict verdict) },
    pub ghost allows: { ∥ (is_asked_at enabled point ≡ true → verdict ≡ Allow
        → IsSomeAnd answer (λ a. Allows point (status_of a) (body_of a))) ∥₁ },
}

impl Judged {
    ghost use Rattle.up_hook_client.specs.Judgements.{answer_of, asked_by, point_of, said_by};

    /// What the answer says of a request, about which a server was asked that is asked at these points.
    pub fn of(alloc: Global, enabled: Enabled, ask: &Ask, origin: &Origin, answer: Answer) -> Judged
        requires asked { AsksAbout ask.now (option_or ask.now.target origin.now.id) (asked_of answer) }
        ensures enabled { asked_by result ≡ enabled }
        ensures point { point_of result ≡ ask.now.point }
        ensures answer { answer_of result ≡ Some answer }
    {
        // For the prover: the request is the one that the server was asked about.
        let _ = origin;
        let (verdict, says_more) = verdict_of(alloc, ask.point, &answer);
        Judged {
            enabled,
            point: ask.point,
            verdict,
            says_more,
            answer: Some(answer),
        }
    }

    /// The refusal of a request about which the hook server gave no answer.
    pub fn unanswered(enabled: Enabled, point: Point) -> Judged
        ensures enabled { asked_by result ≡ enabled }
        ensures point { point_of result ≡ point }
        ensures answer { answer_of result ≡ None }
    {
        let verdict = refuse(UNANSWERED, b"no answer from the hook");
        Judged {
            enabled,
            point,
            verdict,
            says_more: false,
            answer: None,
        }
    }

    /// What is said of a request at a point at which the server isn't asked: it may pass.
    pub fn unasked(enabled: Enabled, point: Point) -> Judged
        requires { is_asked_at enabled point ≡ false }
        ensures enabled { asked_by result ≡ enabled }
        ensures point { point_of result ≡ point }
        ensures answer { answer_of result ≡ None }
    {
        Judged {
            enabled,
            point,
            verdict: Verdict::Allow,
            says_more: false,
            answer: None,
        }
    }

    /// Whether the request may pass.
    pub fn lets_pass(&self) -> bool
        ensures { IsTrue result ↔ (said_by self.now ≡ Allow) }
    {
        self.verdict == Verdict::Allow
    }

    /// Whether the request may pass though the answer says something that is ignored then.
    pub fn ignores_something(&self) -> bool {
        self.lets_pass() && self.says_more
    }

    /// The verdict, which refuses only as a closure may.
    pub fn verdict(self) -> Verdict
        ensures verdict { result ≡ said_by self }
        ensures lawful { IsTrue (is_allowed_verdict result) }
    {
        self.verdict
    }
}
