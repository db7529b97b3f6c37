//! The report at the end of a run.
ghost use Rattle.std.specs.Prelude.{◌≡◌};
ghost use Rattle.up_server.specs.ReportText.{report_by};
ghost use Rattle.up_server.specs.Reported.{IsOutcomeOfText, any_stopped, is_stopped};
ghost use Rattle.up_server.specs.Run.{IsReported};

use crate::report::write_report;
use crate::served::Served;
use crate::server_fault::ServerFault;
use crate::shown::Shown;
use up_dispatch::{Ended, LaneReport, Report};
use up_events::Event;
use up_hooks::{Outcome, Recorder};
use up_lanes::How;
use up_wire::Sink;

/// Whether the lane stopped before it took its end.
fn is_stopped<H>(lane: &LaneReport<H>) -> bool
    ensures { result ≡ is_stopped lane.now.how }
{
    matches!(lane.how, How::Stopped)
}

/// Whether any lane stopped.
fn any_stopped<H>(lanes: &[LaneReport<H>]) -> bool
    ensures { result ≡ any_stopped lanes.now }
{
    lanes.iter().any(is_stopped)
}

/// Writes the report. `Write` if that fails, else `Stopped` if a lane stopped.
pub fn report_outcome<H: Shown, W: Sink>(
    sink: &mut W,
    report: &Report<H>,
) -> Result<(), ServerFault>
    ensures { IsOutcomeOfText (report_by H.count H.text report.now)
        (any_stopped report.now.lanes.items)
        (W.device sink.old) (W.device sink.new) result }
{
    match write_report(sink, report) {
        Ok(()) if any_stopped(report.lanes.as_slice()) => Err(ServerFault::Stopped),
        Ok(()) => Ok(()),
        Err(_) => Err(ServerFault::Write),
    }
}

/// Writes the report after the replies, unless these could not be written. The error is the first of `Write`, `Read`
/// and `Stopped` that applies.
pub fn run_outcome<F: Fn(&Event) -> Outcome + Send, W: Sink>(
    sink: &mut W,
    served: &Served<Recorder<F>>,
) -> Result<(), ServerFault>
    ensures { IsReported served.now (W.device sink.old) (W.device sink.new) result }
{
    match served.ended {
        Ended::WriteFailed => Err(ServerFault::Write),
        Ended::ReadFailed => match write_report(sink, &served.report) {
            Ok(()) => Err(ServerFault::Read),
            Err(_) => Err(ServerFault::Write),
        },
        Ended::Closed | Ended::Cut => report_outcome(sink, &served.report),
    }
}
