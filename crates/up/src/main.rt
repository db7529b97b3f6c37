//! The program. `replay` serves the messages on standard input as one conversation, and `serve` serves the connections
//! of a listener. The arguments set the size of the server, and the rules that its closures keep.
#![tactic(auto)]

mod fault;
mod hook_server;
mod listener;
mod notice_lines;
mod over_store;
mod room;
mod rules;
mod running;
mod store_files;
mod store_folder;
mod store_lines;
mod store_missing;
mod streams;
mod told;

use crate::fault::Fault;
use crate::hook_server::client_of;
use crate::listener::listen;
use crate::rules::run_by_rules;
use crate::store_files::{OpenStore, store_of};
use crate::streams::open_closed_streams;
use clap::error::ErrorKind;
use std::alloc::Global;
use std::io;
use std::marker::Sync;
use std::net::TcpListener;
use std::process::ExitCode;
use std::random::RandomSource;
use std::sync::Wait;
use std::thread::Threads;
use std::time::Clock;
use up_hook_client::HookClient;
use up_server::{EventLines, ServerFault};
use up_words::{Words, WordsFault, words};

/// The arguments, without the name of the program.
fn arguments(rt: &HostRuntime) -> Result<Vec<String>, Fault> {
    let all = match std::env::args(rt) {
        Ok(all) => all,
        Err(error) if error.kind() == io::ErrorKind::InvalidData => return Err(Fault::NoText),
        Err(_) => return Err(Fault::Server(ServerFault::Memory)),
    };
    all.skip(1)
        .collect(rt.alloc())
        .map_err(|_| Fault::Server(ServerFault::Memory))
}

/// What the arguments ask for. `None` if it is only the version, which was then printed on standard output.
fn asked<R: Print>(rt: &R, alloc: Global, arguments: Vec<String>) -> Result<Option<Words>, Fault> {
    match words(alloc, arguments) {
        Ok(words) => Ok(Some(words)),
        Err(WordsFault::Refused(text)) if text.kind() == ErrorKind::DisplayVersion => {
            match rt.print(text) {
                Ok(()) => Ok(None),
                Err(_) => Err(Fault::Server(ServerFault::Write)),
            }
        }
        Err(fault) => Err(Fault::from(fault)),
    }
}

/// What the words ask for. `None` if it is only the version, which was then printed. No standard stream is closed when
/// the first file is opened.
fn wanted(rt: &HostRuntime) -> Result<Option<Words>, Fault> {
    open_closed_streams(rt)?;
    asked(rt, rt.alloc(), arguments(rt)?)
}

/// What a run is given besides the words.
#[derive(Drop)]
struct Opened<'a> {
    /// The store, if the words ask for one. Its files are open.
    store: Option<OpenStore<'a>>,
    /// Where connections arrive, if the words ask for some.
    listener: Option<TcpListener>,
    /// The hook server, if the words ask for one.
    client: Option<HookClient<HostRuntime>>,
}

/// Opens what the words ask for.
fn opened_for<'a>(rt: &'a HostRuntime, words: &Words) -> Result<Opened<'a>, Fault> {
    let client = client_of(rt, words)?;
    let store = store_of(rt, words)?;
    let listener = match &words.serve {
        Some(serving) => Some(listen(rt, serving)?),
        None => None,
    };
    Ok(Opened {
        store,
        listener,
        client,
    })
}

/// Serves with what was opened.
fn run<R: Input + Print + Eprint + AllocGlobal + Clock + RandomSource + Threads + Wait + Sync>(
    rt: &R,
    words: &Words,
    opened: &mut Opened<'_>,
) -> Result<(), Fault> {
    let lines = EventLines::new(rt.alloc(), io::writer(rt))?;
    let wanted = match &words.serve {
        Some(serving) if serving.events => Some(&lines),
        _ => None,
    };
    run_by_rules(
        rt,
        words,
        wanted,
        &mut opened.listener,
        &mut opened.store,
        &opened.client,
    )
}

fn main(rt: HostRuntime) -> ExitCode {
    let ended = match wanted(&rt) {
        Ok(Some(words)) => match opened_for(&rt, &words) {
            Ok(mut opened) => run(&rt, &words, &mut opened),
            Err(fault) => Err(fault),
        },
        Ok(None) => Ok(()),
        Err(fault) => Err(fault),
    };
    match ended {
        Ok(()) => ExitCode::SUCCESS,
        Err(fault) => {
            fault.tell(&rt);
            fault.status()
        }
    }
}
