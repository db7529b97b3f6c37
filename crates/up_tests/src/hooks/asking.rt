//! Closures that are asked before a change.
ghost use Rattle.std.specs.Prelude.{IsTrue};
ghost use Rattle.up_hooks.specs.Verdicts.{is_allowed_verdict};

use crate::same::expect_same;
use std::alloc::{AllocError, Global};
use std::process::Abort;
use std::sync::Arc;
use std::sync::atomic::{AtomicU64, Ordering};
use up_events::Kind;
use up_hooks::{PreHook, PreHooks};
use up_machine::{Ask, Asked, Point, Reason, Verdict};
use up_message::Sequence;

/// The refusal of a closure: a status and a reason.
type Refusal = (u16, &'static str);

/// A closure's point and its refusal, if it refuses, and how often it must be called.
type Row = (Point, Option<Refusal>, u64);

const MISSING: Option<Refusal> = Some((422, "metadata key missing"));

const KEPT: Option<Refusal> = Some((403, "uploads are kept"));

/// The closure's verdict: it refuses in this way, or allows.
fn verdict_of(rt: &impl Abort, refusal: Option<Refusal>) -> Verdict {
    let Some((status, text)) = refusal else {
        return Verdict::Allow;
    };
    let reason = Reason::new(text.as_bytes()).expect(rt, "a reason");
    Verdict::Refuse { status, reason }
}

/// The verdict of all closures of a point: one refuses in this way, or none does.
fn asked_of(rt: &impl Abort, point: Point, refusal: Option<Refusal>) -> Asked {
    let Some((status, text)) = refusal else {
        return if point == Point::Finish {
            Asked::AllowedFinish
        } else {
            Asked::Allowed
        };
    };
    let reason = Reason::new(text.as_bytes()).expect(rt, "a reason");
    Asked::Refused { status, reason }
}

/// Counts a call, and returns this verdict, if a closure may return it. Otherwise it allows.
fn counted(calls: &AtomicU64, verdict: Verdict) -> Verdict
    ensures { IsTrue (is_allowed_verdict result) }
{
    calls.fetch_add(1, Ordering::SeqCst);
    match verdict {
        Verdict::Refuse {
            status: 400 | 403 | 409 | 413 | 422 | 429,
            ..
        } => verdict,
        _ => Verdict::Allow,
    }
}

/// The question about an upload of this length.
fn ask_of(alloc: Global, point: Point, length: u64) -> Ask {
    Ask {
        point,
        target: None,
        kind: Kind::Plain,
        offset: 0,
        length: Some(length),
        pairs: Sequence::new(alloc),
        concat: None,
    }
}

/// `count` counters of calls.
fn new_counters(alloc: Global, count: usize) -> Result<Vec<Arc<AtomicU64>>, AllocError> {
    let mut counters = Vec::new(alloc);
    for _ in 0..count {
        counters.push(Arc::new(alloc, AtomicU64::new(0))?)?;
    }
    Ok(counters)
}

/// Checks that all closures of a point together return this.
fn hold_answer(
    rt: &impl Abort,
    alloc: Global,
    hooks: &PreHooks,
    point: Point,
    wanted: Option<Refusal>,
) {
    let asked = hooks.ask(&ask_of(alloc, point, 5));
    expect_same(rt, &asked, &asked_of(rt, point, wanted));
}

/// Checks what closures that refuse in this way, or allow, return together. Each counts its calls.
fn hold_asked(
    rt: &impl Abort,
    alloc: Global,
    rows: &[Row],
    counters: &[Arc<AtomicU64>],
    point: Point,
    wanted: Option<Refusal>,
) {
    let mut hooks = Vec::new(alloc);
    for ((point, refusal, _), calls) in rows.iter().zip(counters) {
        let verdict = verdict_of(rt, *refusal);
        let counter = Arc::try_clone(calls).expect(rt, "memory");
        let judge = Box::new(
            alloc,
            move |_: &Ask| -> Verdict
                ensures { IsTrue (is_allowed_verdict result) }
            { counted(&counter, verdict) },
        )
        .expect(rt, "memory");
        hooks.push(PreHook::new(*point, judge)).expect(rt, "memory");
    }
    hold_answer(rt, alloc, &PreHooks::new(hooks), point, wanted);
}

/// Checks that closures that refuse in this way, or allow, are called as often as the number after each says, and what
/// they return together.
fn hold(rt: &impl Abort, alloc: Global, rows: &[Row], point: Point, wanted: Option<Refusal>) {
    let counters = new_counters(alloc, rows.len()).expect(rt, "memory");
    hold_asked(rt, alloc, rows, &counters, point, wanted);
    for ((_, _, times), calls) in rows.iter().zip(&counters) {
        expect_same(rt, &calls.load(Ordering::SeqCst), times);
    }
}

/// Closures of one point, of which the second refuses: the third is not called.
static FIRST_MISSING: [Row; 3] = [
    (Point::Create, None, 1),
    (Point::Create, MISSING, 1),
    (Point::Create, KEPT, 0),
];

/// The first refuses: no other is called.
static FIRST_KEPT: [Row; 3] = [
    (Point::Create, KEPT, 1),
    (Point::Create, MISSING, 0),
    (Point::Create, None, 0),
];

/// One closure is of the point of a creation, and comes after one of another point.
static BEHIND_ANOTHER_POINT: [Row; 3] = [
    (Point::Terminate, KEPT, 0),
    (Point::Create, MISSING, 1),
    (Point::Terminate, None, 0),
];

/// The first that refuses is not of the point of a removal.
static OF_ANOTHER_POINT: [Row; 3] = [
    (Point::Create, MISSING, 0),
    (Point::Terminate, KEPT, 1),
    (Point::Terminate, MISSING, 0),
];

#[test]
fn the_first_that_refuses_decides(rt: HostRuntime) {
    let alloc = rt.alloc();
    hold(&rt, alloc, &FIRST_MISSING, Point::Create, MISSING);
    hold(&rt, alloc, &FIRST_KEPT, Point::Create, KEPT);
    hold(&rt, alloc, &BEHIND_ANOTHER_POINT, Point::Create, MISSING);
    hold(&rt, alloc, &OF_ANOTHER_POINT, Point::Terminate, KEPT);
}

/// No closure refuses.
static ALL_ALLOW: [Row; 3] = [
    (Point::Terminate, None, 1),
    (Point::Terminate, None, 1),
    (Point::Terminate, None, 1),
];

/// Only closures of another point refuse.
static ALLOWS_BESIDE_ANOTHER_POINT: [Row; 3] = [
    (Point::Create, KEPT, 0),
    (Point::Terminate, None, 1),
    (Point::Create, MISSING, 0),
];

#[test]
fn allowed_where_none_refuses(rt: HostRuntime) {
    let (alloc, point) = (rt.alloc(), Point::Terminate);
    hold(&rt, alloc, &[], Point::Create, None);
    hold(&rt, alloc, &ALL_ALLOW, point, None);
    hold(&rt, alloc, &ALLOWS_BESIDE_ANOTHER_POINT, point, None);
}

/// Closures that are asked whether an upload may be complete, after one of another point.
static BEFORE_THE_END: [Row; 4] = [
    (Point::Create, KEPT, 0),
    (Point::Finish, None, 1),
    (Point::Finish, MISSING, 1),
    (Point::Finish, KEPT, 0),
];

#[test]
fn closures_are_asked_whether_an_upload_may_be_complete(rt: HostRuntime) {
    hold(&rt, rt.alloc(), &[], Point::Finish, None);
    hold(&rt, rt.alloc(), &BEFORE_THE_END, Point::Finish, MISSING);
}

/// A refusal with each status, with the shortest and the longest reason among them.
static REFUSALS: [Refusal; 6] = [
    (400, "a"),
    (403, "uploads are kept"),
    (409, " "),
    (413, "too long for this server"),
    (422, "~"),
    (
        429,
        "01234567890123456789012345678901234567890123456789012345678901234567890123456789",
    ),
];

#[test]
fn status_and_reason_come_through(rt: HostRuntime) {
    for refusal in &REFUSALS {
        let refusal = Some(*refusal);
        let rows = [(Point::Create, refusal, 1)];
        hold(&rt, rt.alloc(), &rows, Point::Create, refusal);
    }
}
