//! Laws about the definitions.
ghost use Rattle.std.specs.Prelude.{◌≡◌};
ghost use Rattle.up_events.specs.Limits.{max_upload_bytes, max_lanes};
ghost use Rattle.up_events.specs.Log.{FrontsAreLawful, LogsAreLawful, LogsGrowAtTheirEnd, LogsTellEvents};
ghost use Rattle.up_events.specs.Delivery.{NumberedIsDelivered};

use crate::limits::{MAX_LANES, MAX_UPLOAD_BYTES};

/// For every legal list of changes, the log of a lane is lawful: the events of each upload are numbered 1, 2, 3 and so
/// on, with post-create first, post-finish at most once, and nothing after post-terminate. In the log of its lane, an
/// upload has exactly the events that its changes result in.
pub fn logs_are_lawful()
    ensures lawful { LogsAreLawful }
    ensures events { LogsTellEvents }
{}

/// If every event that was handed over is in the log of one lane, and the events of each upload were handed over with
/// the numbers 1, 2, 3 and so on, then they are a prefix of the upload's events, each once and in order.
pub fn numbered_events_are_delivered()
    ensures { NumberedIsDelivered }
{}

/// One more change adds its events at the end of the log of its upload's lane, and leaves every other log unchanged.
pub fn logs_grow_at_their_end()
    ensures { LogsGrowAtTheirEnd }
{}

/// Every prefix of a lawful list of events is lawful.
pub fn fronts_are_lawful()
    ensures { FrontsAreLawful }
{}

/// The constants have the values that the definitions give.
pub fn limits_are_exact()
    ensures lanes { MAX_LANES ≡ max_lanes }
    ensures bytes { MAX_UPLOAD_BYTES ≡ max_upload_bytes }
{}
