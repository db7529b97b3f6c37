//! A post-hook that reports which uploads have ended.
ghost use Rattle.std.specs.Prelude.{◌≡◌};

use std::marker::Send;
use up_events::{Event, Hook, Id, NoMemory};
use up_hooks::{Outcome, PostHook};
use up_machine::Details;

/// An upload that has ended.
#[derive(Clone, Copy, PartialEq, Eq)]
pub struct EndedUpload {
    pub id: Id,
    /// The number of its events.
    pub events: u64,
    /// The number of its bytes.
    pub bytes: u64,
}

/// The receiver of reports about uploads that have ended.
pub trait Endings: Send {
    /// The upload has ended, and all of its events were handed over.
    fn note(&self, upload: EndedUpload);
}

/// A post-hook that hands each event to the inner one, and reports which uploads have ended. It reports an upload once
/// the inner post-hook is ready for another event after the last one of the upload. If the inner post-hook counts the
/// events that it was handed, as `Continued` does, it has then counted that last one.
#[derive(Drop)]
pub struct Noting<H, E> {
    hook: H,
    endings: E,
    /// The upload whose last event was the last that was handed over.
    last: Option<EndedUpload>,
}

impl<H: PostHook, E: Endings> PostHook for Noting<H, E> {
    ghost is_sound = { λ n. H.is_sound n.hook };

    ghost handed = { λ n. H.handed n.hook };

    ghost has_room = { λ n. H.has_room n.hook };

    ghost is_settled = { λ n. H.is_settled n.hook };

    ghost may_answer = { λ n. H.may_answer n.hook };

    fn is_settled(&self) -> bool {
        self.hook.is_settled()
    }

    fn ready(&mut self) -> Result<(), NoMemory> {
        self.hook.ready()?;
        if let Some(upload) = self.last {
            self.endings.note(upload);
            self.last = None;
        }
        Ok(())
    }

    fn holds_back(&self) -> bool {
        self.hook.holds_back()
    }

    fn needs_details(&self) -> bool {
        self.hook.needs_details()
    }

    fn asks_about(&self) -> Option<Id> {
        self.hook.asks_about()
    }

    fn learn(&mut self, details: Details) {
        self.hook.learn(details);
    }

    fn hand(&mut self, event: &Event) -> Outcome {
        if event.hook == Hook::Terminate {
            self.last = Some(EndedUpload {
                id: event.id,
                events: event.number,
                bytes: event.offset,
            });
        }
        self.hook.hand(event)
    }
}

impl<H: PostHook, E: Endings> Noting<H, E> {
    ghost use Rattle.up_handed.specs.Notes.{noting_hook};

    /// A post-hook that hands the events to `hook`, and reports to `endings`.
    pub fn new(hook: H, endings: E) -> Self
        ensures hook { noting_hook result ≡ hook }
    {
        Noting {
            hook,
            endings,
            last: None,
        }
    }
}

impl<H, E> Noting<H, E> {
    ghost use Rattle.up_handed.specs.Notes.{noting_hook};

    /// The inner post-hook.
    pub fn hook(&self) -> &H
        ensures { result.now ≡ noting_hook self.now }
    {
        &self.hook
    }
}
