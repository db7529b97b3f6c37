//! A run of the server, once the closures of its rules are made.
ghost use Rattle.std.specs.Prelude.{◌≡◌, [], All, IfOk, IfSome, IsTrue, length};
ghost use Rattle.up_hooks.specs.Recorded.{AnswersWithCodes, has_code};

use crate::fault::Fault;
use crate::notice_lines::NoticeLines;
use crate::over_store::{run_lined, run_stored};
use crate::store_files::OpenStore;
use crate::told::told_couriers;
use std::alloc::{AllocError, Global};
use std::io::{self, BufReader, BufWriter, Write};
use std::marker::{Send, Sync};
use std::net::{Net, TcpListener, TcpStream};
use std::random::RandomSource;
use std::sync::Wait;
use std::sync::atomic::AtomicBool;
use std::thread::Threads;
use std::time::Clock;
use up_dispatch::{AtOnce, Service};
use up_events::Event;
use up_hook_client::HookClient;
use up_hooks::{Outcome, PreHooks, new_recorders, new_tellers};
use up_server::{
    AfterLines, Connections, Ending, EventLines, Hooks, Notices, Patience, RandomIds, ServerFault,
    Shown, Visits, Watch, keep_serving, replay,
};
use up_wire::Output;
use up_words::{Serving, Settings, Words};

/// The descriptor of standard input.
const STDIN: i32 = 0;

/// Where connections are counted, if the words ask for lines that say how the server is doing.
fn watch_of(words: &Words) -> Option<Watch> {
    let seconds = words.serve.as_ref()?.status?;
    Some(Watch::each(seconds))
}

/// What ends the run in order, if the words ask for more than a number of connections.
fn ending_of(alloc: Global, words: &Words) -> Result<Option<Ending>, AllocError> {
    match &words.serve {
        Some(serving) if serving.until_eof => {
            let ending = Ending::new(alloc, STDIN, serving.grace, serving.patience, serving.open)?;
            Ok(Some(ending))
        }
        _ => Ok(None),
    }
}

/// What a run is given beside its connections and hooks.
#[derive(Drop)]
pub struct Beside<'a, R> {
    words: &'a Words,
    pub settings: Settings,
    notices: NoticeLines<'a, R>,
    watch: Option<Watch>,
    ending: Option<Ending>,
    /// Whether a line of events could not be written, if there are lines.
    have_failed: Option<&'a AtomicBool>,
}

impl<'a, R> Beside<'a, R> {
    /// How connections are served, if the words ask for some.
    fn serving(&self) -> Option<&'a Serving> {
        self.words.serve.as_ref()
    }

    fn notices(&self) -> &NoticeLines<'a, R> {
        &self.notices
    }

    fn watch(&self) -> Option<&Watch> {
        self.watch.as_ref()
    }

    fn ending(&self) -> Option<&Ending> {
        self.ending.as_ref()
    }
}

/// Where connections arrive, and the closures that are asked about their uploads.
#[derive(Drop)]
pub struct Arrivals {
    listener: TcpListener,
    hooks: PreHooks,
}

/// Which connections are served, and how, if the words ask for some.
pub fn visits_of<'a, R, S>(
    beside: &'a Beside<'a, R>,
    service: &'a S,
) -> Option<Visits<'a, NoticeLines<'a, R>, S>> {
    let serving = beside.serving()?;
    Some(Visits {
        connections: serving.connections,
        open: serving.open,
        patience: Patience {
            seconds: serving.patience,
            least_rate: serving.least_rate,
        },
        watch: beside.watch(),
        ending: beside.ending(),
        notices: beside.notices(),
        service,
    })
}

/// Whether events are only counted: the run has no end of its own, events are written as lines, or there is a store.
fn is_counted(words: &Words) -> bool {
    match &words.serve {
        Some(serving) => {
            serving.connections.is_none() || serving.events || serving.store.is_some()
        }
        None => false,
    }
}

/// What a run of this size is given beside its connections and hooks.
fn beside_of<'a, R: Eprint + AllocGlobal, W: Write + Drop>(
    rt: &'a R,
    words: &'a Words,
    lines: Option<&'a EventLines<W>>,
    settings: Settings,
) -> Result<Beside<'a, R>, Fault>
    ensures { IfOk result (λ beside. beside.settings ≡ settings) }
{
    let ending = ending_of(rt.alloc(), words)?;
    Ok(Beside {
        words,
        settings,
        notices: NoticeLines::new(rt),
        watch: watch_of(words),
        ending,
        have_failed: lines.map(|lines| lines.have_failed()),
    })
}

/// Serves what the words ask for, with these closures. Takes the listener and the store, if there are any. The
/// post-hooks tell the hook server of each event, if there is one, and write it as a line, if there are lines.
pub fn run_with<
    'a,
    R: Input + Print + Eprint + AllocGlobal + Clock + RandomSource + Threads + Wait + Sync + 'a,
    W: Write + Drop + Send + 'a,
    C: Net<Listener = TcpListener, Stream = TcpStream> + Clock + Eprint + AllocGlobal + Sync + 'a,
>(
    rt: &'a R,
    words: &'a Words,
    lines: Option<&'a EventLines<W>>,
    listener: &mut Option<TcpListener>,
    hooks: PreHooks,
    store: &mut Option<OpenStore<'_>>,
    client: Option<&'a HookClient<C>>,
) -> Result<(), Fault> {
    let settings = match &*store {
        Some(store) => store.files.settings,
        None => words.settings,
    };
    let beside = beside_of(rt, words, lines, settings)?;
    run_beside(
        rt,
        &beside,
        lines,
        listener.take(),
        hooks,
        store.take(),
        client,
    )
}

/// The same, once it is known how large the run is.
fn run_beside<
    R: Input + Print + Eprint + AllocGlobal + Clock + RandomSource + Threads + Wait + Sync,
    W: Write + Drop + Send,
    C: Net<Listener = TcpListener, Stream = TcpStream> + Clock + Eprint + AllocGlobal + Sync,
>(
    rt: &R,
    beside: &Beside<'_, R>,
    lines: Option<&EventLines<W>>,
    listener: Option<TcpListener>,
    hooks: PreHooks,
    store: Option<OpenStore<'_>>,
    client: Option<&HookClient<C>>,
) -> Result<(), Fault>
    requires same { IfSome store (λ store.
        store.files.settings.lanes ≡ beside.now.settings.lanes) }
{
    let answer = move |event: &Event| -> Outcome
        ensures { IsTrue (has_code result) }
    {
        match lines {
            Some(lines) => lines.tell(rt, event),
            None => Outcome::Done,
        }
    };
    let Some(listener) = listener else {
        return run_input(rt, beside, hooks, answer);
    };
    let arrivals = Arrivals { listener, hooks };
    match (client, store) {
        (Some(client), store) => run_told(rt, beside, arrivals, lines, store, client),
        (None, Some(store)) => run_lined(rt, beside, arrivals, lines, store),
        (None, None) if is_counted(beside.words) => run_counted(rt, beside, arrivals, answer),
        (None, None) => run_recorded(rt, beside, arrivals, answer),
    }
}

/// Where a report is written.
type ReportSink<'a, R> = Output<BufWriter<AfterLines<'a, io::Printer<'a, R>>>>;

/// Where the report is written, and where the ids of new uploads come from.
fn sink_and_ids<'a, R: Print + AllocGlobal + RandomSource>(
    rt: &'a R,
    beside: &Beside<'a, R>,
) -> Result<(ReportSink<'a, R>, RandomIds), Fault> {
    let writer = AfterLines {
        writer: io::writer(rt),
        have_failed: beside.have_failed,
    };
    let sink = Output::new(BufWriter::new(rt.alloc(), writer)?);
    let ids = RandomIds::new(rt, beside.words.shard())?;
    Ok((sink, ids))
}

/// Serves what the listener accepts, with these post-hooks, and writes the report.
pub fn run_on<
    H: Shown + Drop,
    N: Notices,
    S: Service + Sync,
    R: Print + Eprint + AllocGlobal + RandomSource + Threads + Wait + Sync,
>(
    rt: &R,
    beside: &Beside<'_, R>,
    visits: &Visits<'_, N, S>,
    arrivals: Arrivals,
    post_hooks: Vec<H>,
) -> Result<(), Fault>
    requires one_for_each { length post_hooks.items ≡ beside.now.settings.lanes }
    requires new { All (λ h. H.is_sound h × (H.handed h ≡ [])) post_hooks.items }
{
    let (mut sink, ids) = sink_and_ids(rt, beside)?;
    let Arrivals { listener, hooks } = arrivals;
    let hooks = Hooks {
        pre: hooks,
        post: post_hooks,
    };
    let connections = Connections {
        listener,
        visits,
        ids,
    };
    let alloc = rt.alloc();
    match keep_serving(rt, alloc, hooks, &beside.settings, connections, &mut sink) {
        Ok(()) => Ok(()),
        Err(fault) => Err(Fault::Server(fault)),
    }
}

/// Serves what the listener accepts, with uploads in memory alone. The post-hooks return what `answer` does.
fn run_counted<
    F: Fn(&Event) -> Outcome + Send + Copy + Drop,
    R: Print + Eprint + AllocGlobal + Clock + RandomSource + Threads + Wait + Sync,
>(rt: &R, beside: &Beside<'_, R>, arrivals: Arrivals, answer: F) -> Result<(), Fault>
    requires callable { F.IsAlwaysCallable answer }
    requires codes { AnswersWithCodes F.Fn answer }
{
    let Some(visits) = visits_of(beside, &AtOnce) else {
        return Ok(());
    };
    match new_tellers(rt.alloc(), beside.settings.lanes, answer) {
        Ok(tellers) => run_on(rt, beside, &visits, arrivals, tellers),
        Err(_) => Err(Fault::Server(ServerFault::Memory)),
    }
}

/// Serves what the listener accepts, with uploads in memory alone. Keeps the events, and reports them. The post-hooks
/// return what `answer` does.
fn run_recorded<
    F: Fn(&Event) -> Outcome + Send + Copy + Drop,
    R: Print + Eprint + AllocGlobal + Clock + RandomSource + Threads + Wait + Sync,
>(rt: &R, beside: &Beside<'_, R>, arrivals: Arrivals, answer: F) -> Result<(), Fault>
    requires callable { F.IsAlwaysCallable answer }
    requires codes { AnswersWithCodes F.Fn answer }
{
    let Some(visits) = visits_of(beside, &AtOnce) else {
        return Ok(());
    };
    match new_recorders(rt.alloc(), beside.settings.lanes, answer) {
        Ok(recorders) => run_on(rt, beside, &visits, arrivals, recorders),
        Err(_) => Err(Fault::Server(ServerFault::Memory)),
    }
}

/// Serves what the listener accepts, over the store, if there is one. The post-hooks tell the hook server of each event,
/// and then write it as a line, if there are event lines. An event counts as handed over once the server has
/// acknowledged it and its line is written.
fn run_told<
    R: Print + Eprint + AllocGlobal + Clock + RandomSource + Threads + Wait + Sync,
    W: Write + Drop + Send,
    C: Net<Listener = TcpListener, Stream = TcpStream> + Clock + Eprint + AllocGlobal + Sync,
>(
    rt: &R,
    beside: &Beside<'_, R>,
    arrivals: Arrivals,
    event_lines: Option<&EventLines<W>>,
    store: Option<OpenStore<'_>>,
    client: &HookClient<C>,
) -> Result<(), Fault>
    requires same { IfSome store (λ store.
        store.files.settings.lanes ≡ beside.now.settings.lanes) }
{
    let (alloc, lanes) = (rt.alloc(), beside.settings.lanes);
    let end = beside.ending().map(|ending| ending.until());
    match told_couriers(rt, alloc, lanes, client, event_lines, end) {
        Ok(couriers) => run_couriers(rt, beside, arrivals, couriers, store),
        Err(_) => Err(Fault::Server(ServerFault::Memory)),
    }
}

/// Serves what the listener accepts, over the store, if there is one, with these post-hooks.
fn run_couriers<
    H: Shown + Drop,
    R: Print + Eprint + AllocGlobal + Clock + RandomSource + Threads + Wait + Sync,
>(
    rt: &R,
    beside: &Beside<'_, R>,
    arrivals: Arrivals,
    post_hooks: Vec<H>,
    store: Option<OpenStore<'_>>,
) -> Result<(), Fault>
    requires same { IfSome store (λ store.
        store.files.settings.lanes ≡ beside.now.settings.lanes) }
    requires one_for_each { length post_hooks.items ≡ beside.now.settings.lanes }
    requires new { All (λ h. H.is_sound h × (H.handed h ≡ [])) post_hooks.items }
{
    if let Some(store) = store {
        return run_stored(rt, beside, arrivals, post_hooks, store);
    }
    match visits_of(beside, &AtOnce) {
        Some(visits) => run_on(rt, beside, &visits, arrivals, post_hooks),
        None => Ok(()),
    }
}

/// Serves standard input as one conversation, with these closures. The post-hooks return what `answer` does.
fn run_input<
    F: Fn(&Event) -> Outcome + Send + Copy + Drop,
    R: Input + Print + AllocGlobal + Threads + Wait + Sync,
>(rt: &R, beside: &Beside<'_, R>, hooks: PreHooks, answer: F) -> Result<(), Fault>
    requires callable { F.IsAlwaysCallable answer }
    requires codes { AnswersWithCodes F.Fn answer }
{
    let alloc = rt.alloc();
    let Ok(recorders) = new_recorders(alloc, beside.settings.lanes, answer) else {
        return Err(Fault::Server(ServerFault::Memory));
    };
    let mut sink = Output::new(BufWriter::new(alloc, io::writer(rt))?);
    let mut source = up_wire::Input::new(BufReader::new(alloc, rt.reader())?);
    let hooks = Hooks {
        pre: hooks,
        post: recorders,
    };
    match replay(rt, alloc, hooks, &beside.settings, &mut source, &mut sink) {
        Ok(()) => Ok(()),
        Err(fault) => Err(Fault::Server(fault)),
    }
}
