//! The post-hooks of a server's lanes.
ghost use Rattle.std.specs.Prelude.{◌≡◌, [], All, IfOk, length};
ghost use Rattle.up_hooks.specs.Recorded.{AnswersWithCodes};

use crate::post_hook::{Outcome, PostHook};
use crate::recorder::Recorder;
use std::alloc::Global;
use up_events::{Event, NoMemory};

/// A recorder for each lane, which was handed nothing. They all have this closure, which must accept every event, and
/// may return `Failed` only with the codes 1 to 99. `NoMemory` if memory runs out.
pub fn new_recorders<F: Fn(&Event) -> Outcome + Send + Copy>(
    alloc: Global,
    lanes: u64,
    answer: F,
) -> Result<Vec<Recorder<F>>, NoMemory>
    requires callable { F.IsAlwaysCallable answer }
    requires codes { AnswersWithCodes F.Fn answer }
    ensures one_for_each { IfOk result (λ made. length made.items ≡ lanes) }
    ensures new { IfOk result (λ made. All
        (λ recorder. ⟦<Recorder<F> as PostHook>⟧.is_sound recorder
        × (⟦<Recorder<F> as PostHook>⟧.handed recorder ≡ []))
        made.items) }
{
    let mut made = Vec::new(alloc);
    for _ in 0..lanes {
        made.push(Recorder::new(alloc, answer))?;
    }
    Ok(made)
}
