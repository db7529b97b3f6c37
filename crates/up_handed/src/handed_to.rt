//! Which events were handed over.
use up_hooks::PostHook;

/// A receiver of events, as proofs see it: any post-hook. It requires nothing of threads, so that a post-hook can pass
/// on the inner one.
pub trait HandedTo {
    ghost use Rattle.std.specs.Prelude.{List};
    ghost use Rattle.up_events.specs.declared.event.Event.{Event};

    /// The events that were handed over to it, in order.
    ghost events: { Self → List Event };
}

impl<H: PostHook> HandedTo for H {
    ghost events = { λ h. H.handed h };
}
