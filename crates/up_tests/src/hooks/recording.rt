//! Post-hooks that keep the events that they were handed.
ghost use Rattle.std.specs.Prelude.{IsTrue};
ghost use Rattle.up_hooks.specs.Recorded.{has_code};

use crate::same::expect_same;
use std::alloc::Global;
use std::sync::atomic::{AtomicU64, Ordering};
use up_events::{Event, Hook, Id, NoMemory};
use up_hooks::{Outcome, PostHook, Recorder};

fn event(number: u64, hook: Hook, offset: u64) -> Event {
    Event {
        id: Id::new(1),
        number,
        hook,
        offset,
        length: Some(11),
    }
}

/// Hands over the events of these pairs, in order, and returns them with the outcomes.
fn hand_all<H: PostHook>(
    alloc: Global,
    hook: &mut H,
    pairs: &[(Event, Outcome)],
) -> Result<Vec<(Event, Outcome)>, NoMemory>
    requires { H.is_sound hook.old }
{
    let mut handed = Vec::new(alloc);
    for (event, _) in pairs {
        hook.ready()?;
        handed.push((*event, hook.hand(event)))?;
    }
    Ok(handed)
}

#[test]
fn goes_on_after_a_failure(rt: HostRuntime) {
    let calls = AtomicU64::new(0);
    let mut recorder = Recorder::new(
        rt.alloc(),
        |event: &Event| -> Outcome
            ensures { IsTrue (has_code result) }
        {
            calls.fetch_add(1, Ordering::SeqCst);
            match event.hook {
                Hook::Create => Outcome::Done,
                Hook::Receive => Outcome::Failed(7),
                Hook::Finish => Outcome::Failed(99),
                Hook::Terminate => Outcome::Failed(1),
            }
        },
    );
    let wanted = [
        (event(1, Hook::Create, 0), Outcome::Done),
        (event(2, Hook::Receive, 6), Outcome::Failed(7)),
        (event(3, Hook::Receive, 11), Outcome::Failed(7)),
        (event(4, Hook::Finish, 11), Outcome::Failed(99)),
        (event(5, Hook::Terminate, 11), Outcome::Failed(1)),
    ];
    let handed = hand_all(rt.alloc(), &mut recorder, &wanted).expect(&rt, "memory");
    expect_same(&rt, &handed.as_slice(), &wanted.as_slice());
    expect_same(&rt, &recorder.list(), &wanted.as_slice());
    expect_same(&rt, &calls.load(Ordering::SeqCst), &5);
}
