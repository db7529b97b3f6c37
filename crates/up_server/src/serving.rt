//! A run of the server over one input.
ghost use Rattle.std.specs.Prelude.{◌≡◌, ◌⊎◌, ℕ, [], All, Err, length};
ghost use Rattle.up_hooks.specs.MayAnswer.{ClosuresMayAnswer};
ghost use Rattle.up_hooks.specs.declared.recorder.Recorder.{Recorder};
ghost use Rattle.up_queue.specs.EndViews.{QueueId};
ghost use Rattle.up_wire.specs.Device.{Device};
ghost use Rattle.up_server.specs.Run.{IsServedRun, IsReported};
ghost use Rattle.up_server.specs.declared.served.Served.{Served};

use crate::hooks::Hooks;
use crate::run_outcome::run_outcome;
use crate::running::run;
use crate::served::Served;
use crate::server_fault::ServerFault;
use std::alloc::Global;
use std::marker::{Brand, Sync};
use std::sync::Wait;
use std::thread::Threads;
use up_dispatch::BoardParts;
use up_events::Event;
use up_hooks::{Outcome, PostHook, Recorder};
use up_wire::{Sink, Source};
use up_words::Settings;

/// Serves the messages of `source` as one conversation on a new board, with ids counted from 1, while each lane hands
/// its events to the recorder at its place in a thread of its own. Writes the replies to `sink`, ends the lanes and
/// writes the report. The closures of `hooks` are asked before an upload is made, completed or removed. Returns the
/// first fault in the order of `ServerFault`; after `Memory` and `Write` there may be no report.
pub fn replay<F: Fn(&Event) -> Outcome + Send + Drop, R: Source, W: Sink, T: Threads + Wait + Sync>(
    rt: &T,
    alloc: Global,
    hooks: Hooks<Recorder<F>>,
    settings: &Settings,
    source: &mut R,
    sink: &mut W,
) -> Result<(), ServerFault>
    requires one_for_each { length hooks.post.items ≡ settings.now.lanes }
    requires new { All (λ r. ⟦<Recorder<F> as PostHook>⟧.is_sound r
        × (⟦<Recorder<F> as PostHook>⟧.handed r ≡ [])) hooks.post.items }
    ensures { (result ≡ Err ServerFault.Memory)
        ⊎ ((queue : ℕ → QueueId) × (served : Served (Recorder F)) × (replied : Device)
        × IsServedRun ⟦<Recorder<F> as PostHook>⟧.handed queue (ClosuresMayAnswer hooks.pre)
        settings.now
        served (R.device source.old) (R.device source.new) (W.device sink.old) replied
        × All (λ lane. ⟦<Recorder<F> as PostHook>⟧.is_sound lane.hook) served.report.lanes.items
        × IsReported served replied (W.device sink.new) result) }
{
    let Ok(parts) = BoardParts::new(alloc, settings.lanes, settings.capacity) else {
        return Err(ServerFault::Memory);
    };
    let Ok(served) = run::<Brand, _, _, _, _>(rt, alloc, parts, hooks, settings, source, sink)
    else {
        return Err(ServerFault::Memory);
    };
    run_outcome(sink, &served)
}
