//! A post-hook that hands over no event before it may.
ghost use Rattle.std.specs.Prelude.{◌≡◌, [], All, IfOk, IsTrue, true, vec_len};
ghost use Rattle.up_handed.specs.Withholds.{withheld_hooks};

use std::alloc::{AllocError, Global};
use std::marker::Send;
use up_events::{Event, Id, NoMemory};
use up_hooks::{Outcome, PostHook};
use up_machine::Details;

/// Who knows whether events may be handed over.
pub trait Permission: Send {
    /// The fact that has to hold before an event is handed over.
    ghost given: { Self → Type 0 };

    /// Whether events may be handed over by now. Once they may, they always may.
    fn is_given(&self) -> bool
        ensures { IsTrue result → given self.now };
}

/// A post-hook that hands each event to the inner one, but none before the permission is given: until then it has room
/// for no event.
#[derive(Drop)]
pub struct Withheld<H, P> {
    hook: H,
    permission: P,
    /// Whether the permission was found to be given.
    is_open: bool,
}

impl<H: PostHook, P: Permission> PostHook for Withheld<H, P> {
    ghost use Rattle.std.specs.Prelude.{◌≡◌, ◌&&◌, [], true, false};
    ghost use Rattle.up_handed.specs.Withholds.{IsWithheld};

    ghost is_sound = { λ w. H.is_sound w.hook × IsWithheld H.PostHook P.given w };

    ghost handed = { λ w. H.handed w.hook };

    ghost has_room = { λ w. w.is_open && H.has_room w.hook };

    ghost is_settled = { λ w. H.is_settled w.hook };

    ghost may_answer = { λ w. H.may_answer w.hook };

    fn is_settled(&self) -> bool {
        self.hook.is_settled()
    }

    fn ready(&mut self) -> Result<(), NoMemory> {
        if !self.is_open && !self.permission.is_given() {
            return Err(NoMemory);
        }
        self.is_open = true;
        self.hook.ready()
    }

    fn holds_back(&self) -> bool {
        !self.is_open
    }

    fn needs_details(&self) -> bool {
        self.hook.needs_details()
    }

    fn asks_about(&self) -> Option<Id> {
        self.hook.asks_about()
    }

    fn learn(&mut self, details: Details) {
        self.hook.learn(details);
    }

    fn hand(&mut self, event: &Event) -> Outcome {
        self.hook.hand(event)
    }
}

impl<H: PostHook, P: Permission> Withheld<H, P> {
    ghost use Rattle.up_handed.specs.Withholds.{withheld_hook};

    /// A post-hook that hands the events to `hook`, which was handed none, once the permission is given.
    pub fn new(hook: H, permission: P) -> Self
        requires sound { H.is_sound hook }
        requires handed { H.handed hook ≡ [] }
        ensures hook { withheld_hook result ≡ hook }
        ensures sound { ⟦<Withheld<H, P> as PostHook>⟧.is_sound result }
        ensures events { ⟦<Withheld<H, P> as PostHook>⟧.handed result ≡ [] }
    {
        Withheld {
            hook,
            permission,
            is_open: false,
        }
    }
}

impl<H, P> Withheld<H, P> {
    ghost use Rattle.up_handed.specs.Withholds.{withheld_hook};

    /// The inner post-hook.
    pub fn hook(&self) -> &H
        ensures { result.now ≡ withheld_hook self.now }
    {
        &self.hook
    }
}

/// Makes each post-hook hand over no event before the permission is given, in the same order. `AllocError` if memory
/// runs out.
pub fn withhold_each<H: PostHook + Drop, P: Permission + Copy + Drop>(
    alloc: Global,
    hooks: Vec<H>,
    permission: P,
) -> Result<Vec<Withheld<H, P>>, AllocError>
    requires new { All (λ h. H.is_sound h × (H.handed h ≡ [])) hooks.items }
    ensures one_for_each { IfOk result (λ made. vec_len made ≡ vec_len hooks) }
    ensures hooks { IfOk result (λ made. withheld_hooks made.items ≡ hooks.items) }
    ensures new { IfOk result (λ made. All
        (λ w. ⟦<Withheld<H, P> as PostHook>⟧.is_sound w
        × (⟦<Withheld<H, P> as PostHook>⟧.handed w ≡ [])) made.items) }
{
    let mut made = Vec::with_capacity(alloc, hooks.len())?;
    for hook in hooks {
        made.push(Withheld::new(hook, permission))?;
    }
    Ok(made)
}
