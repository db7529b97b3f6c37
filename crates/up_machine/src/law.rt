//! Laws about the decisions on requests, and about the events that they result in.
ghost use Rattle.up_machine.specs.Details.{DetailsAreOfCreation, DetailsStay};
ghost use Rattle.up_machine.specs.Finishing.{CompletingTellsFinish, FinishIsAllowed};
ghost use Rattle.up_machine.specs.Plans.{RefusalsAreKept};

/// What a plan refuses, a commit of the same request to the same book refuses in the same way, whatever the closures
/// said.
pub fn refusals_of_plans_are_kept()
    ensures { RefusalsAreKept }
{}

/// A request that is carried out results in a post-finish exactly if it makes an upload complete, which is what the
/// closures of `Point::Finish` are asked. So they were asked about every post-finish, and none of them refused it.
pub fn post_finish_is_asked()
    ensures complete { CompletingTellsFinish }
    ensures allowed { FinishIsAllowed }
{}

/// What is told of an upload with its events is what its creation said: its kind, its metadata and its parts. No other
/// request changes that, as long as the upload is there.
pub fn details_are_of_the_creation()
    ensures creation { DetailsAreOfCreation }
    ensures stay { DetailsStay }
{}
