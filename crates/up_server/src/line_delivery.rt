//! Events that count once their lines are written.
ghost use Rattle.std.specs.Prelude.{◌≡◌, ◌⊎◌, ◌++◌, ◌∷◌, [], All, IfOk, IsSomeAnd, length};
ghost use Rattle.std.specs.Prelude.{None};
ghost use Rattle.up_server.specs.Written.{written_of};

use crate::event_lines::{EventLines, Written};
use std::alloc::Global;
use std::io::Write;
use std::marker::Send;
use std::sync::Wait;
use up_events::{Event, NoMemory, Trace};
use up_hooks::{Courier, Delivery, PostHook};

/// Delivers the events of a lane as lines, if there are lines. An event is acknowledged once its line is written, and
/// at once if there are no lines. After a line that can't be written nothing is acknowledged any more.
#[derive(Drop)]
pub struct LineDelivery<'a, R, W: Write + Drop> {
    rt: &'a R,
    lines: Option<&'a EventLines<W>>,
    acknowledged: Trace<Event>,
}

impl<'a, R: Eprint + Wait, W: Write + Drop> LineDelivery<'a, R, W> {
    /// Nothing was delivered yet.
    pub fn new(rt: &'a R, lines: Option<&'a EventLines<W>>) -> Self
        ensures { ⟦<LineDelivery<'a, R, W> as Delivery>⟧.acknowledged result ≡ [] }
    {
        LineDelivery {
            rt,
            lines,
            acknowledged: Trace::new(),
        }
    }

    /// Notes that the event is acknowledged, since its line was written, or since there are no lines.
    fn note(&mut self, event: &Event, _written: Option<Written>)
        requires written { (self.old.lines ≡ None)
            ⊎ IsSomeAnd _written (λ written. written_of written ≡ event.now) }
        ensures { ⟦<LineDelivery<'a, R, W> as Delivery>⟧.acknowledged self.new
            ≡ ⟦<LineDelivery<'a, R, W> as Delivery>⟧.acknowledged self.old ++ event.now ∷ [] }
    {
        self.acknowledged.push(event);
    }
}

impl<R: Eprint + Wait, W: Write + Drop> Delivery for LineDelivery<'_, R, W> {
    ghost acknowledged = { λ d. d.acknowledged.items };

    fn deliver(&mut self, event: &Event) -> bool {
        let written = match self.lines {
            Some(lines) => lines.put(self.rt, event),
            None => None,
        };
        if self.lines.is_some() && written.is_none() {
            return false;
        }
        self.note(event, written);
        true
    }
}

/// A courier for each lane, which was handed nothing, and delivers its events as lines, if there are lines. `NoMemory`
/// if memory runs out.
pub fn line_couriers<'a, R: Eprint + Wait + Sync, W: Write + Drop + Send>(
    rt: &'a R,
    alloc: Global,
    lanes: u64,
    lines: Option<&'a EventLines<W>>,
) -> Result<Vec<Courier<LineDelivery<'a, R, W>>>, NoMemory>
    ensures one_for_each { IfOk result (λ made. length made.items ≡ lanes) }
    ensures new { IfOk result (λ made. All
        (λ courier. ⟦<Courier<LineDelivery<'a, R, W>> as PostHook>⟧.is_sound courier
        × (⟦<Courier<LineDelivery<'a, R, W>> as PostHook>⟧.handed courier ≡ []))
        made.items) }
{
    let mut made = Vec::new(alloc);
    for _ in 0..lanes {
        made.push(Courier::new(LineDelivery::new(rt, lines)))?;
    }
    Ok(made)
}
