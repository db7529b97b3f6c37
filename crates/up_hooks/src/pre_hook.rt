//! A closure that is asked before a change.
ghost use Rattle.std.specs.Prelude.{◌≡◌, ◌↔◌, true, IsTrue};
ghost use Rattle.up_hooks.specs.Verdicts.{is_allowed_verdict};

use up_machine::{Ask, Point, Verdict};

/// A closure that decides whether an upload is created, completed or removed. It allows this, or refuses it with a
/// status and a reason, which are then the response.
///
/// It must accept every `Ask`. It must return, since the request waits for it. It may refuse only with the statuses
/// 400, 403, 409, 413, 422 and 429. Several threads may call it at once. The uploads may change between its answer and
/// the time when the request is carried out; everything else that can refuse the request is then checked again, but the
/// closure is not asked again.
pub type Judge = Box<dyn Fn(&Ask) -> Verdict + Send + Sync>;

/// A closure, with the point at which it is asked.
#[derive(Drop)]
pub struct PreHook {
    point: Point,
    judge: Judge,
    ghost callable: { Judge.IsAlwaysCallable judge },
    ghost lawful: { (ask : _) (verdict : _) → Judge.post judge ask verdict → IsTrue (is_allowed_verdict verdict) },
}

/// Calls the closure.
fn call(judge: &Judge, ask: &Ask) -> Verdict
    requires { Judge.IsAlwaysCallable judge.now }
    ensures { Judge.post judge.entry.now ask.entry result }
{
    judge(ask)
}

impl PreHook {
    ghost use Rattle.up_hooks.specs.MayAnswer.{MayReturn, judge_of, point_of};

    /// A closure that is asked at this point and at no other. It must meet the requirements of `Judge`, which a clause
    /// at the closure shows: `ensures { IsTrue (is_allowed_verdict result) }`. Takes no memory.
    pub fn new(point: Point, judge: Judge) -> Self
        requires callable { Judge.IsAlwaysCallable judge }
        requires lawful { (ask : _) (verdict : _) → Judge.post judge ask verdict
            → IsTrue (is_allowed_verdict verdict) }
        ensures point { point_of result ≡ point }
        ensures judge { judge_of result ≡ (judge.vtable, judge.value) }
    {
        PreHook { point, judge }
    }

    /// Whether the closure is asked at this point.
    pub(crate) fn is_of(&self, point: Point) -> bool
        ensures { IsTrue result ↔ (point_of self.now ≡ point) }
    {
        self.point == point
    }

    /// Calls the closure, and returns its verdict.
    pub(crate) fn judge(&self, ask: &Ask) -> Verdict
        ensures lawful { IsTrue (is_allowed_verdict result) }
        ensures answer { MayReturn self.now ask.now result }
    {
        call(&self.judge, ask)
    }
}
