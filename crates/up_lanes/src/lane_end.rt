//! What remains of a lane when it ends.
ghost use Rattle.std.specs.Prelude.{◌≡◌, ◌%◌, ◌^◌, length, true};
ghost use Rattle.up_events.specs.Log.{IsLawful};
ghost use Rattle.up_queue.specs.Line.{items_if};
ghost use Rattle.up_lanes.specs.HowOf.{is_drained};
ghost use Rattle.up_lanes.specs.LawfulOnce.{lawful_once};

use crate::known::Known;
use up_events::Id;
use up_hooks::PostHook;
use up_queue::TakeEnd;

/// How a lane ended.
#[derive(Clone, Copy, Debug, PartialEq, Eq)]
pub enum How {
    /// It took the end, which was put after its last event.
    Drained,
    /// Its post-hook was not ready for one more event: it had not settled the last one, or memory ran out.
    Stopped,
}

impl How {
    /// Whether the lane took the end.
    pub fn is_drained(&self) -> bool
        ensures { result ≡ is_drained self.now }
    {
        match self {
            How::Drained => true,
            How::Stopped => false,
        }
    }
}

/// What remains of a lane. What it took from its queue is what it handed to its post-hook, followed by the end exactly
/// if it is drained. If it is drained, the post-hook has settled all events.
#[derive(Drop)]
pub struct LaneEnd<H: PostHook> {
    /// The lane. The first lane is 0.
    pub lane: u64,
    pub hook: H,
    pub take_end: TakeEnd,
    pub how: How,
    /// The number of items that the lane took, modulo 2^64.
    pub(crate) taken: u64,
    /// The upload of the last event, if this was its removal and may not be settled yet.
    pub(crate) removed: Option<Id>,
    /// What its uploads were created with, as far as it was told.
    pub(crate) known: Known,
    pub ghost kept: { take_end.taken ≡ items_if (H.handed hook) (is_drained how) },
    pub ghost lawful: { IsLawful (H.handed hook) } by { lawful_once (H.handed hook) },
    pub ghost counted: { taken ≡ length take_end.taken % 2 ^ 64 },
    pub ghost settled: { is_drained how ≡ true → H.is_settled hook ≡ true },
}
