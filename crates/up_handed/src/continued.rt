//! A post-hook that continues where earlier runs ended.
ghost use Rattle.std.specs.Prelude.{◌≡◌, ◌⊎◌, ◌+◌, ◌<◌, ◌≤◌, ◌^◌, ◌&&◌, ◌||◌, []};
ghost use Rattle.std.specs.Prelude.{List, length, min, max, not, true, false, OnOk, OnErr, IsTrue};
ghost use Rattle.up_events.specs.declared.event.Event.{Event as Told};
ghost use Rattle.up_handed.specs.Counts.{count_of, device_of};
ghost use Rattle.up_handed.specs.OnDisk.{IsOnDisk, CountsAllButOne};
ghost use Rattle.up_hooks.specs.declared.post_hook.Outcome.{Outcome as Answer};
ghost use Rattle.up_hooks.specs.declared.post_hook.Outcome.TheVariants.{Done};

use crate::handed::Handed;
use sqlite_disk::Disk;
use up_events::{Event, Id, NoMemory, Trace};
use up_hooks::{Outcome, PostHook};
use up_machine::Details;

/// A post-hook for a run after earlier runs have handed over the first events of the lane. The lane hands it all of its
/// events, from the first one on. It skips those that earlier runs handed over, hands each further event to the inner
/// post-hook, and adds one to the count once the inner post-hook has settled the event. So the count includes all events
/// or all but the last, and after a crash at most the last one is handed over again. While an event is not counted yet,
/// there is no room for another. There is room for an event that it skips whether or not the inner post-hook has room.
///
/// A shorter log may leave out events that earlier runs handed over. The count includes these events too.
#[derive(Drop)]
pub struct Continued<H, D: Disk> {
    hook: H,
    handed: Handed<D>,
    told: Trace<Event>,
    /// The number of events that earlier runs handed over and that a shorter log leaves out.
    left_out: u64,
    /// The number of events that earlier runs handed over, of those that are still in the log.
    before: u64,
    /// The number of these events that were skipped.
    passed: u64,
    /// Whether the last event was handed over and is not counted yet.
    is_owed: bool,
    ghost passes: { passed ≡ min (length told.items) before },
    ghost all: { is_owed ≡ false → count_of handed ≡ left_out + max before (length told.items) },
    ghost on_disk: { is_owed ≡ false → IsOnDisk D.Disk (device_of handed) (count_of handed) },
    ghost last: { is_owed ≡ true → before < length told.items },
    ghost all_but_one: { is_owed ≡ true → count_of handed + 1 ≡ left_out + length told.items },
    ghost fits: { left_out + before < 2 ^ 64 },
    pub ghost counted: { CountsAllButOne D.Disk (device_of handed)
        (left_out + before) (left_out + length told.items) },
}

impl<H: PostHook, D: Disk + Send> PostHook for Continued<H, D> {
    ghost use Rattle.up_handed.specs.Continues.{GoesOn, IsAllCounted, IsStopped};
    ghost use Rattle.up_handed.specs.Continues.{handed_events, inner_hook, skips_next};

    ghost is_sound = { GoesOn H.PostHook };

    ghost handed = { λ c. c.told.items };

    ghost has_room = { λ c. not c.is_owed && (skips_next c || H.has_room c.hook) };

    ghost is_settled = { λ c. not c.is_owed && H.is_settled c.hook };

    ghost may_answer = { λ c event outcome.
        ((c.passed < c.before) × (outcome ≡ Done)) ⊎ H.may_answer c.hook event outcome };

    fn is_settled(&self) -> bool {
        !self.is_owed && self.hook.is_settled()
    }

    fn ready(&mut self) -> Result<(), NoMemory>
        requires { GoesOn H.PostHook self.old }
        ensures sound { GoesOn H.PostHook self.new }
        ensures same { handed_events self.new ≡ handed_events self.old }
        ensures alike { (event : Told) (outcome : Answer)
            → ⟦<Continued<H, D> as PostHook>⟧.may_answer self.new event outcome
            → ⟦<Continued<H, D> as PostHook>⟧.may_answer self.old event outcome }
        ensures room { OnOk result (⟦<Continued<H, D> as PostHook>⟧.has_room self.new ≡ true) }
        ensures settled { OnOk result (⟦<Continued<H, D> as PostHook>⟧.is_settled self.new ≡ true) }
        ensures stays_settled { ⟦<Continued<H, D> as PostHook>⟧.is_settled self.old ≡ true
            → ⟦<Continued<H, D> as PostHook>⟧.is_settled self.new ≡ true }
        // After `Ok`, each event that was handed over is counted. After an error this holds too, or the inner post-hook
        // has not settled the last event, or the disk has failed.
        ensures counted { OnOk result (IsAllCounted D.Disk self.new) }
        ensures cause { OnErr result (IsAllCounted D.Disk self.new
            ⊎ (H.is_settled (inner_hook self.new) ≡ false)
            ⊎ IsStopped D.Disk self.old self.new) }
    {
        let is_next_skipped = self.passed < self.before;
        if is_next_skipped && self.hook.is_settled() {
            return Ok(());
        }
        let ready = self.hook.ready();
        if self.is_owed && self.hook.is_settled() {
            let earlier = self.left_out + self.before;
            if self.handed.add(&self.hook, earlier).is_err() {
                return Err(NoMemory);
            }
            self.is_owed = false;
        }
        ready
    }

    fn holds_back(&self) -> bool {
        self.hook.holds_back()
    }

    fn needs_details(&self) -> bool {
        self.hook.needs_details()
    }

    fn asks_about(&self) -> Option<Id> {
        self.hook.asks_about()
    }

    fn learn(&mut self, details: Details) {
        self.hook.learn(details);
    }

    fn hand(&mut self, event: &Event) -> Outcome {
        self.told.push(event);
        if self.passed < self.before {
            self.passed += 1;
            return Outcome::Done;
        }
        let earlier = self.left_out + self.before;
        let outcome = self.hook.hand(event);
        self.is_owed = !self.hook.is_settled() || self.handed.add(&self.hook, earlier).is_err();
        outcome
    }
}

impl<H: PostHook, D: Disk + Send> Continued<H, D> {
    ghost use Rattle.up_handed.specs.Continues.{before_of, inner_hook, handed_of, left_out_of};

    /// A post-hook that was handed nothing, for a run that continues after as many events as `handed` counts. This
    /// number is on the disk, as it is after the count was opened.
    pub fn new(hook: H, handed: Handed<D>) -> Self
        requires sound { H.is_sound hook }
        requires handed { H.handed hook ≡ [] }
        requires on_disk { IsOnDisk D.Disk (device_of handed) (count_of handed) }
        ensures hook { inner_hook result ≡ hook }
        ensures before { before_of result ≡ count_of handed }
        ensures all { left_out_of result ≡ 0 }
        ensures handed { handed_of result ≡ handed }
        ensures sound { ⟦<Continued<H, D> as PostHook>⟧.is_sound result }
        ensures events { ⟦<Continued<H, D> as PostHook>⟧.handed result ≡ [] }
    {
        Continued::without(hook, handed, 0)
    }

    /// The same, for a run in which a shorter log leaves out `left_out` of these events.
    pub fn without(hook: H, handed: Handed<D>, left_out: u64) -> Self
        requires sound { H.is_sound hook }
        requires handed { H.handed hook ≡ [] }
        requires on_disk { IsOnDisk D.Disk (device_of handed) (count_of handed) }
        requires fits { left_out ≤ count_of handed }
        ensures hook { inner_hook result ≡ hook }
        ensures before { left_out + before_of result ≡ count_of handed }
        ensures left_out { left_out_of result ≡ left_out }
        ensures handed { handed_of result ≡ handed }
        ensures sound { ⟦<Continued<H, D> as PostHook>⟧.is_sound result }
        ensures events { ⟦<Continued<H, D> as PostHook>⟧.handed result ≡ [] }
    {
        let before = handed.count() - left_out;
        Continued {
            hook,
            handed,
            told: Trace::new(),
            left_out,
            before,
            passed: 0,
            is_owed: false,
        }
    }
}

impl<H, D: Disk> Continued<H, D> {
    ghost use Rattle.up_handed.specs.Continues.{before_of, handed_events, inner_hook, handed_of, left_out_of};

    /// The number of events that earlier runs handed over, of those that are still in the log.
    pub fn before(&self) -> u64
        ensures { result ≡ before_of self.now }
    {
        self.before
    }

    /// The number of events that all runs together have handed over, as the disk counts them, with those that a shorter
    /// log leaves out.
    pub fn count(&self) -> u64
        ensures { result ≡ count_of (handed_of self.now) }
    {
        self.handed.count()
    }

    /// The inner post-hook, which was handed the events that earlier runs did not hand over.
    pub fn hook(&self) -> &H
        ensures { result.now ≡ inner_hook self.now }
    {
        &self.hook
    }

    /// The inner post-hook, and the count, which includes all events that were handed over, or all but the last.
    pub fn into_parts(self) -> (H, Handed<D>)
        ensures hook { result.0 ≡ inner_hook self }
        ensures handed { result.1 ≡ handed_of self }
        ensures counted { CountsAllButOne D.Disk (device_of result.1)
            (left_out_of self + before_of self) (left_out_of self + length (handed_events self)) }
    {
        (self.hook, self.handed)
    }
}
