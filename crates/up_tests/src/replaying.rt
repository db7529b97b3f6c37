//! A run of the server with one conversation.
ghost use Rattle.std.specs.Prelude.{IsTrue};
ghost use Rattle.up_hooks.specs.Recorded.{AnswersWithCodes, has_code};

use std::alloc::Global;
use std::marker::Sync;
use std::sync::Wait;
use std::thread::Threads;
use up_events::Event;
use up_hooks::{Outcome, PreHooks, new_recorders};
use up_server::{Hooks, ServerFault, replay};
use up_wire::{Output, Sink, Source};
use up_words::Settings;

/// A post-hook that does nothing, and never fails.
pub fn done(_: &Event) -> Outcome
    ensures { IsTrue (has_code result) }
{
    Outcome::Done
}

/// A run with these closures, whose post-hooks return the outcomes of `answer`.
pub fn run_with<
    F: Fn(&Event) -> Outcome + Send + Copy + Drop,
    R: Source,
    W: Sink,
    T: Threads + Wait + Sync,
>(
    rt: &T,
    alloc: Global,
    hooks: PreHooks,
    answer: F,
    source: &mut R,
    sink: &mut W,
) -> Result<(), ServerFault>
    requires callable { F.IsAlwaysCallable answer }
    requires codes { AnswersWithCodes F.Fn answer }
{
    let settings = Settings::default();
    let Ok(recorders) = new_recorders(alloc, settings.lanes, answer) else {
        return Err(ServerFault::Memory);
    };
    let hooks = Hooks {
        pre: hooks,
        post: recorders,
    };
    replay(rt, alloc, hooks, &settings, source, sink)
}

/// How a run with this source ends, and what it writes. No closures are asked, and the post-hooks return the outcomes
/// of `answer`.
pub fn replayed<F: Fn(&Event) -> Outcome + Send + Copy + Drop, R: Source, T: Threads + Wait + Sync>(
    rt: &T,
    alloc: Global,
    answer: F,
    source: &mut R,
) -> (Result<(), ServerFault>, Vec<u8>)
    requires callable { F.IsAlwaysCallable answer }
    requires codes { AnswersWithCodes F.Fn answer }
{
    let hooks = PreHooks::new(Vec::new(alloc));
    let mut sink = Output::new(Vec::new(alloc));
    let ended = run_with(rt, alloc, hooks, answer, source, &mut sink);
    (ended, sink.into_inner())
}
