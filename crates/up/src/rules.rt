//! The closures for the rules that the arguments ask for.
ghost use Rattle.std.specs.Prelude.{◌≡◌, IsTrue};
ghost use Rattle.up_hooks.specs.Verdicts.{is_allowed_verdict};
ghost use Rattle.up_rules.specs.Rules.{judged};

use crate::fault::Fault;
use crate::running::run_with;
use crate::store_files::OpenStore;
use std::io::Write;
use std::marker::{Send, Sync};
use std::net::TcpListener;
use std::random::RandomSource;
use std::sync::Wait;
use std::thread::Threads;
use std::time::Clock;
use up_hook_client::HookClient;
use up_hooks::{Links, Origin, PreHook, PreHooks, RequestHook};
use up_machine::{Ask, Verdict};
use up_rules::rules_of;
use up_server::{EventLines, ServerFault};
use up_words::Words;

/// How many connections to the hook server are kept between its answers to closures.
const KEPT: u64 = 16;

/// Serves what the arguments ask for, with the closures for their rules. These are asked in the order in which the help
/// lists the rules, and then the hook server is asked, if there is one. Takes the listener and the store, if there are
/// any. The error says why the run failed.
pub fn run_by_rules<
    'a,
    R: Input + Print + Eprint + AllocGlobal + Clock + RandomSource + Threads + Wait + Sync + 'a,
    W: Write + Drop + Send + 'a,
>(
    rt: &'a R,
    words: &'a Words,
    lines: Option<&'a EventLines<W>>,
    listener: &mut Option<TcpListener>,
    store: &mut Option<OpenStore<'_>>,
    client: &'a Option<HookClient<HostRuntime>>,
) -> Result<(), Fault> {
    let mut hooks = Vec::new(rt.alloc());
    for rule in rules_of(rt.alloc(), words)? {
        let point = rule.point();
        let judge = move |ask: &Ask| -> Verdict
            ensures answer { result ≡ judged rule ask.now }
            ensures lawful { IsTrue (is_allowed_verdict result) }
        { rule.judge(ask) };
        hooks.push(PreHook::new(point, Box::new(rt.alloc(), judge)?))?;
    }
    let hooks = match client {
        Some(client) => {
            let client = client.clone()?;
            let judge = move |ask: &Ask, origin: &Origin| -> Verdict
                ensures lawful { IsTrue (is_allowed_verdict result) }
            { client.judge(ask, origin).verdict() };
            let last = RequestHook::new(Box::new(rt.alloc(), judge)?);
            let links = Links::new(rt.alloc(), KEPT).map_err(|_| ServerFault::Memory)?;
            PreHooks::ending_with(hooks, last, links)
        }
        None => PreHooks::new(hooks),
    };
    run_with(rt, words, lines, listener, hooks, store, client.as_ref())
}
