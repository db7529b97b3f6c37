//! Answers a request: plans it, asks the closures, and commits it.
ghost use Rattle.std.specs.Prelude.{◌≡◌, Ok};
ghost use Rattle.up_headers.specs.Table.{FitsWithin};
ghost use Rattle.up_hooks.specs.MayAnswer.{ClosuresMayAnswer};
ghost use Rattle.up_dispatch.specs.Answering.{Answered};
ghost use Rattle.up_dispatch.specs.Keeps.{IsAsked, Keeps, keeping};

use crate::keeper::Keeper;
use crate::reply::reply_to_refusal;
use std::alloc::Global;
use up_events::{Id, MAX_UPLOAD_BYTES};
use up_headers::Request;
use up_hooks::{Origin, PreHooks};
use up_machine::{Asked, Done, Plan, Refusal};
use up_message::Response;

/// What the closures answer to the questions of a plan. If there are two questions, the second is asked only if no
/// closure refuses at the first. If there is none, the result is `Skipped`.
fn ask_as_planned(hooks: &PreHooks, plan: &Plan, origin: &Origin) -> Asked
    ensures { IsAsked (ClosuresMayAnswer hooks.now) (Ok plan.now) result }
{
    match plan {
        Plan::Answer(_) | Plan::Ready => Asked::Skipped,
        Plan::Ask(ask) => hooks.ask_about(ask, origin),
        Plan::AskBoth(first, second) => {
            let asked = hooks.ask_about(first, origin);
            if asked.is_refusal() {
                asked
            } else {
                hooks.ask_about(second, origin)
            }
        }
    }
}

/// Plans a request, asks the closures if the plan has a question, and commits the request. A request whose plan is
/// already an answer changes nothing and is not committed. The id is for a new upload. No lock is held while the
/// closures are asked. The error says why the request is refused.
fn carry_out<K: Keeper>(
    alloc: Global,
    keeper: &mut K,
    hooks: &PreHooks,
    origin: &Origin,
    request: Request,
    id: Id,
) -> Result<Done, Refusal>
    requires bounded { FitsWithin MAX_UPLOAD_BYTES request }
    ensures kept { Keeps (keeping K.plans K.commits (ClosuresMayAnswer hooks.now))
        (K.state keeper.old) request id result (K.state keeper.new) }
    ensures lender { K.lender keeper.new ≡ K.lender keeper.old }
{
    match keeper.plan(alloc, &request)? {
        Plan::Answer(response) => Ok(Done::unchanged(response)),
        plan => {
            let asked = ask_as_planned(hooks, &plan, origin);
            keeper.commit(alloc, request, id, &asked)
        }
    }
}

/// Carries out a request unless it is refused, and returns the answer. The id is for a new upload. If memory runs out,
/// the answer is an empty 503, and nothing has changed.
pub fn answer<K: Keeper>(
    alloc: Global,
    keeper: &mut K,
    hooks: &PreHooks,
    request: Request,
    id: Id,
) -> Response
    requires bounded { FitsWithin MAX_UPLOAD_BYTES request }
    ensures answered { Answered (keeping K.plans K.commits (ClosuresMayAnswer hooks.now))
        (K.state keeper.old) request id result (K.state keeper.new) }
    ensures lender { K.lender keeper.new ≡ K.lender keeper.old }
{
    let origin = Origin::unknown(alloc);
    answer_about(alloc, keeper, hooks, &origin, request, id)
}

/// The same for a request that comes from this message.
pub fn answer_about<K: Keeper>(
    alloc: Global,
    keeper: &mut K,
    hooks: &PreHooks,
    origin: &Origin,
    request: Request,
    id: Id,
) -> Response
    requires bounded { FitsWithin MAX_UPLOAD_BYTES request }
    ensures answered { Answered (keeping K.plans K.commits (ClosuresMayAnswer hooks.now))
        (K.state keeper.old) request id result (K.state keeper.new) }
    ensures lender { K.lender keeper.new ≡ K.lender keeper.old }
{
    match carry_out(alloc, keeper, hooks, origin, request, id) {
        Ok(done) => done.response,
        Err(refusal) => reply_to_refusal(alloc, &refusal),
    }
}
