//! Runs of the server.
ghost use Rattle.std.specs.Prelude.{◌≡◌, IsTrue};
ghost use Rattle.up_hooks.specs.Verdicts.{is_allowed_verdict};
ghost use Rattle.up_rules.specs.Rules.{judged};

use crate::talks::twin::replies_of_book;
use std::alloc::{AllocError, Global};
use std::marker::Sync;
use std::sync::Wait;
use std::thread::Threads;
use up_events::Event;
use up_hooks::{Outcome, PreHook, PreHooks, new_recorders};
use up_machine::{Ask, Verdict};
use up_rules::rules_of;
use up_server::{Hooks, ServerFault, replay};
use up_wire::{Input, Output};
use up_words::{Settings, Words};

/// The result of a run.
#[derive(Drop)]
pub struct Served {
    pub ended: Result<(), ServerFault>,
    pub written: Vec<u8>,
    /// The number of asked bytes that were not read.
    pub unread: usize,
    /// The replies of a book alone, and the number of changes that it accepts, as in the report.
    pub twin: Vec<u8>,
}

/// Serves the bytes as one conversation, with these closures and with post-hooks that return `Done`.
fn run<T: Threads + Wait + Sync>(
    rt: &T,
    alloc: Global,
    hooks: PreHooks,
    settings: &Settings,
    asked: &[u8],
) -> Result<Served, AllocError> {
    let twin = replies_of_book(rt, alloc, &hooks, settings, asked)?;
    let mut source = Input::new(asked);
    let mut sink = Output::new(Vec::new(alloc));
    let answer = |_: &Event| Outcome::Done;
    let ended = match new_recorders(alloc, settings.lanes, answer) {
        Ok(recorders) => {
            let hooks = Hooks {
                pre: hooks,
                post: recorders,
            };
            replay(rt, alloc, hooks, settings, &mut source, &mut sink)
        }
        Err(_) => Err(ServerFault::Memory),
    };
    Ok(Served {
        ended,
        written: sink.into_inner(),
        unread: source.into_inner().len(),
        twin,
    })
}

/// Serves the bytes as the words ask for it: the closures of their rules are asked in the order of the help.
pub fn serve<T: Threads + Wait + Sync>(
    rt: &T,
    alloc: Global,
    words: &Words,
    asked: &[u8],
) -> Result<Served, AllocError> {
    let mut hooks = Vec::new(alloc);
    for rule in rules_of(alloc, words)? {
        let point = rule.point();
        let judge = move |ask: &Ask| -> Verdict
            ensures answer { result ≡ judged rule ask.now }
            ensures lawful { IsTrue (is_allowed_verdict result) }
        { rule.judge(ask) };
        hooks.push(PreHook::new(point, Box::new(alloc, judge)?))?;
    }
    run(rt, alloc, PreHooks::new(hooks), &words.settings, asked)
}
