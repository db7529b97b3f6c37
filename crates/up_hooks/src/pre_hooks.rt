//! The closures that are asked before a change.
ghost use Rattle.std.specs.Prelude.{IsTrue};
ghost use Rattle.up_hooks.specs.MayAnswer.{HooksMayAnswer};
ghost use Rattle.up_hooks.specs.MayAnswerRequest.{EndsAt, IsAddedAt};
ghost use Rattle.up_hooks.specs.Verdicts.{has_lawful_status};

use crate::links::Links;
use crate::origin::Origin;
use crate::pre_hook::PreHook;
use crate::request_hook::RequestHook;
use up_machine::{Ask, Asked, Point, Verdict};

/// The closures of a server, in the order in which they are asked.
#[derive(Drop)]
pub struct PreHooks {
    hooks: Vec<PreHook>,
    /// The closure that is asked at each point, after those of the point.
    last: Option<RequestHook>,
    /// The connections that it keeps between questions.
    links: Links,
}

/// Asks the closures, in order.
fn ask_each(hooks: &[PreHook], ask: &Ask) -> Asked
    ensures closures { HooksMayAnswer hooks.now ask.now result }
    ensures status { IsTrue (has_lawful_status result) }
{
    for hook in hooks {
        if hook.is_of(ask.point) {
            if let Verdict::Refuse { status, reason } = hook.judge(ask) {
                return Asked::Refused { status, reason };
            }
        }
    }
    match ask.point {
        Point::Create | Point::Terminate => Asked::Allowed,
        Point::Finish => Asked::AllowedFinish,
    }
}

/// Asks the closure that sees the request, after those before it answered `before`. If they refused, it is not asked.
fn ask_last(hook: &RequestHook, links: &Links, ask: &Ask, origin: &Origin, before: Asked) -> Asked
    requires { IsTrue (has_lawful_status before) }
    ensures closures { IsAddedAt hook.now ask.now origin.now before result }
    ensures status { IsTrue (has_lawful_status result) }
{
    if before.is_refusal() {
        return before;
    }
    origin.leave(links.take());
    let verdict = hook.judge(ask, origin);
    if let Some(link) = origin.take() {
        links.put(link);
    }
    match verdict {
        Verdict::Allow => before,
        Verdict::Refuse { status, reason } => Asked::Refused { status, reason },
    }
}

/// Asks the closure that sees the request, if there is one.
fn ask_if_last(
    last: &Option<RequestHook>,
    links: &Links,
    ask: &Ask,
    origin: &Origin,
    before: Asked,
) -> Asked
    requires { IsTrue (has_lawful_status before) }
    ensures closures { EndsAt last.now ask.now origin.now before result }
    ensures status { IsTrue (has_lawful_status result) }
{
    match last {
        Some(hook) => ask_last(hook, links, ask, origin, before),
        None => before,
    }
}

impl PreHooks {
    ghost use Rattle.std.specs.Prelude.{◌≡◌, None, Some};
    ghost use Rattle.up_hooks.specs.MayAnswer.{ClosuresMayAnswer, ClosuresMayAnswerAt, last_of, listed};

    /// These closures. Takes no memory.
    pub fn new(hooks: Vec<PreHook>) -> Self
        ensures listed { listed result ≡ hooks.items }
        ensures last { last_of result ≡ None }
    {
        let links = Links::none(*hooks.allocator());
        PreHooks {
            hooks,
            last: None,
            links,
        }
    }

    /// These closures, and one that is asked at each point, after those of the point, with the connections that it
    /// keeps between questions. Takes no memory.
    pub fn ending_with(hooks: Vec<PreHook>, last: RequestHook, links: Links) -> Self
        ensures listed { listed result ≡ hooks.items }
        ensures last { last_of result ≡ Some last }
    {
        PreHooks {
            hooks,
            last: Some(last),
            links,
        }
    }

    /// Whether a closure sees the head of the request.
    pub fn see_requests(&self) -> bool {
        self.last.is_some()
    }

    /// Asks the closures of the point, in order, about a request of which nothing else is known.
    pub fn ask(&self, ask: &Ask) -> Asked
        ensures closures { ClosuresMayAnswer self.now ask.now result }
        ensures status { IsTrue (has_lawful_status result) }
    {
        let alloc = *self.hooks.allocator();
        self.ask_about(ask, &Origin::unknown(alloc))
    }

    /// Asks the closures of the point, in order, and then the one that is asked at each point. The first one that
    /// refuses decides, with its own status and reason, and those after it are not called. `Allowed` if none refuses,
    /// also if there is none; at `Point::Finish` this is `AllowedFinish`. Takes no memory.
    pub fn ask_about(&self, ask: &Ask, origin: &Origin) -> Asked
        ensures about { ClosuresMayAnswerAt self.now ask.now origin.now result }
        ensures closures { ClosuresMayAnswer self.now ask.now result }
        ensures status { IsTrue (has_lawful_status result) }
    {
        let before = ask_each(&self.hooks, ask);
        ask_if_last(&self.last, &self.links, ask, origin, before)
    }
}
