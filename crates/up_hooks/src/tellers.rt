//! The post-hooks of the lanes of a server that runs without end.
ghost use Rattle.std.specs.Prelude.{◌≡◌, [], All, IfOk, length};
ghost use Rattle.up_hooks.specs.Recorded.{AnswersWithCodes};

use crate::post_hook::{Outcome, PostHook};
use crate::teller::Teller;
use std::alloc::Global;
use up_events::{Event, NoMemory};

/// A teller for each lane, which was handed nothing. They all have this closure, which must accept every event, and may
/// return `Failed` only with the codes 1 to 99. `NoMemory` if memory runs out.
pub fn new_tellers<F: Fn(&Event) -> Outcome + Send + Copy>(
    alloc: Global,
    lanes: u64,
    answer: F,
) -> Result<Vec<Teller<F>>, NoMemory>
    requires callable { F.IsAlwaysCallable answer }
    requires codes { AnswersWithCodes F.Fn answer }
    ensures one_for_each { IfOk result (λ made. length made.items ≡ lanes) }
    ensures new { IfOk result (λ made. All
        (λ teller. ⟦<Teller<F> as PostHook>⟧.is_sound teller
        × (⟦<Teller<F> as PostHook>⟧.handed teller ≡ []))
        made.items) }
{
    let mut made = Vec::new(alloc);
    for _ in 0..lanes {
        made.push(Teller::new(answer))?;
    }
    Ok(made)
}
