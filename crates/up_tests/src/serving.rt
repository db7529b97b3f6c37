//! A run of the server with connections.
ghost use Rattle.std.specs.Prelude.{◌≡◌, false, IfOk};
ghost use Rattle.up_dispatch.specs.declared.report.Report.{Report};
ghost use Rattle.up_hooks.specs.Recorded.{AnswersWithCodes};
ghost use Rattle.up_hooks.specs.declared.recorder.Recorder.{Recorder};
ghost use Rattle.up_server.specs.ReportText.{report_text};
ghost use Rattle.up_server.specs.Reported.{IsReportOf, any_stopped};

use std::alloc::Global;
use std::marker::Sync;
use std::net::TcpListener;
use std::sync::Wait;
use std::thread::Threads;
use up_dispatch::{AtOnce, Counting};
use up_events::Event;
use up_hooks::{Outcome, PostHook, PreHooks, Recorder, new_recorders};
use up_server::{Connections, Hooks, Notices, Patience, ServerFault, Visits, serve};
use up_wire::Output;
use up_words::Settings;

/// What is to be served: as many connections (`None` sets no limit), with at most `open` of them open at a time.
/// `notices` is told when none can be let in.
pub fn visits<N>(connections: Option<u64>, open: u64, notices: &N) -> Visits<'_, N, AtOnce> {
    Visits {
        service: &AtOnce,
        connections,
        open,
        patience: Patience::default(),
        watch: None,
        ending: None,
        notices,
    }
}

/// The report of a server after its last connection has ended. It has these closures, its post-hooks return the
/// outcomes of `answer`, and its ids are counted.
pub fn reported<
    F: Fn(&Event) -> Outcome + Send + Copy + Drop,
    N: Notices,
    T: Threads + Wait + Eprint + Sync,
>(
    rt: &T,
    alloc: Global,
    hooks: PreHooks,
    answer: F,
    settings: &Settings,
    listener: TcpListener,
    visits: &Visits<'_, N, AtOnce>,
) -> Result<Vec<u8>, ServerFault>
    requires callable { F.IsAlwaysCallable answer }
    requires codes { AnswersWithCodes F.Fn answer }
    ensures { IfOk result (λ text. (report : Report (Recorder F))
        × IsReportOf ⟦<Recorder<F> as PostHook>⟧.handed settings.now.lanes report
        × (any_stopped report.lanes.items ≡ false)
        × (text.items ≡ report_text report)) }
{
    let Ok(recorders) = new_recorders(alloc, settings.lanes, answer) else {
        return Err(ServerFault::Memory);
    };
    let hooks = Hooks {
        pre: hooks,
        post: recorders,
    };
    let connections = Connections {
        listener,
        visits,
        ids: Counting::new(),
    };
    let mut sink = Output::new(Vec::new(alloc));
    serve(rt, alloc, hooks, settings, connections, &mut sink)?;
    Ok(sink.into_inner())
}
