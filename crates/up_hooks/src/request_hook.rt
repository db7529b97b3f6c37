//! A closure that is asked before a change, and sees the head of the request.
ghost use Rattle.std.specs.Prelude.{◌≡◌, IsTrue};
ghost use Rattle.up_hooks.specs.Verdicts.{is_allowed_verdict};

use crate::origin::Origin;
use up_machine::{Ask, Verdict};

/// A closure that decides as a `Judge` does, and also sees the head of the request.
pub type RequestJudge = Box<dyn Fn(&Ask, &Origin) -> Verdict + Send + Sync>;

/// A closure that is asked at each point, after those of the point.
#[derive(Drop)]
pub struct RequestHook {
    judge: RequestJudge,
    ghost callable: { RequestJudge.IsAlwaysCallable judge },
    ghost lawful: { (ask : _) (origin : _) (verdict : _) → RequestJudge.post judge ask origin verdict
        → IsTrue (is_allowed_verdict verdict) },
}

/// Calls the closure.
fn call(judge: &RequestJudge, ask: &Ask, origin: &Origin) -> Verdict
    requires { RequestJudge.IsAlwaysCallable judge.now }
    ensures { RequestJudge.post judge.entry.now ask.entry origin.entry result }
{
    judge(ask, origin)
}

impl RequestHook {
    ghost use Rattle.up_hooks.specs.MayAnswerRequest.{MayReturnAt, request_judge_of};

    /// A closure that is asked at each point. It must meet the requirements of `Judge`. Takes no memory.
    pub fn new(judge: RequestJudge) -> Self
        requires callable { RequestJudge.IsAlwaysCallable judge }
        requires lawful { (ask : _) (origin : _) (verdict : _)
            → RequestJudge.post judge ask origin verdict → IsTrue (is_allowed_verdict verdict) }
        ensures { request_judge_of result ≡ (judge.vtable, judge.value) }
    {
        RequestHook { judge }
    }

    /// Calls the closure, and returns its verdict.
    pub(crate) fn judge(&self, ask: &Ask, origin: &Origin) -> Verdict
        ensures lawful { IsTrue (is_allowed_verdict result) }
        ensures answer { MayReturnAt self.now ask.now origin.now result }
    {
        call(&self.judge, ask, origin)
    }
}
