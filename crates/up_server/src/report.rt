//! The report of a run, as text.
ghost use Rattle.std.specs.Prelude.{◌≡◌, flat_map, OnErr};
ghost use Rattle.up_wire.specs.Device.{GaveUp};
ghost use Rattle.up_wire.specs.Response.{Writes};
ghost use Rattle.up_server.specs.ReportText.{count_line, event_line, event_text, lane_line, lane_text};
ghost use Rattle.up_server.specs.ReportText.{lanes_text, report_by, how_of, length_text, outcome_of};

use crate::shown::Shown;
use itoa::Buffer;
use up_dispatch::{LaneReport, Report};
use up_events::Event;
use up_hooks::Outcome;
use up_lanes::How;
use up_wire::{Sink, WriteFailed, flush, write_pieces};

/// Writes the report, and makes the sink send it on: an empty line, `accepted` with the number of accepted changes,
/// then for each lane a line with its number, how it ended and how many events it handed over, and after it the text
/// about its post-hook. The error is that a write or the flush gave up on the sink.
pub fn write_report<H: Shown, W: Sink>(sink: &mut W, report: &Report<H>) -> Result<(), WriteFailed>
    ensures written { Writes (W.device sink.old).bytes (W.device sink.new).bytes
        (report_by H.count H.text report.now) result }
    ensures failed { OnErr result (GaveUp (W.device sink.new) (W.device sink.new).interruptions) }
{
    write_count(sink, report.accepted.len())?;
    write_lanes(sink, report.lanes.as_slice())?;
    flush(sink)
}

/// Writes an empty line, and the number of accepted changes.
fn write_count<W: Sink>(sink: &mut W, count: u64) -> Result<(), WriteFailed>
    ensures written { Writes (W.device sink.old).bytes (W.device sink.new).bytes
        (count_line count) result }
    ensures failed { OnErr result (GaveUp (W.device sink.new) (W.device sink.new).interruptions) }
{
    let mut digits = Buffer::new();
    let pieces: [&[u8]; 3] = [b"\naccepted ", digits.format(count).as_bytes(), b"\n"];
    write_pieces(sink, &pieces)
}

/// Writes the lanes, which are numbered from 0.
fn write_lanes<H: Shown, W: Sink>(sink: &mut W, lanes: &[LaneReport<H>]) -> Result<(), WriteFailed>
    ensures written { Writes (W.device sink.old).bytes (W.device sink.new).bytes
        (lanes_text H.count H.text 0 lanes.now) result }
    ensures failed { OnErr result (GaveUp (W.device sink.new) (W.device sink.new).interruptions) }
{
    for (number, lane) in lanes.iter().enumerate() {
        write_lane(sink, number, lane)?;
    }
    Ok(())
}

/// Writes the line of a lane, and the text about its post-hook.
fn write_lane<H: Shown, W: Sink>(
    sink: &mut W,
    number: usize,
    lane: &LaneReport<H>,
) -> Result<(), WriteFailed>
    ensures written { Writes (W.device sink.old).bytes (W.device sink.new).bytes
        (lane_text H.count H.text number lane.now) result }
    ensures failed { OnErr result (GaveUp (W.device sink.new) (W.device sink.new).interruptions) }
{
    write_lane_line(sink, number, lane.how, lane.hook.count_handed())?;
    lane.hook.write_text(sink)
}

/// The word for how a lane ended.
fn how_of(how: How) -> &'static [u8]
    ensures { result.now ≡ how_of how }
{
    match how {
        How::Drained => b" drained ",
        How::Stopped => b" stopped ",
    }
}

/// Writes the line of a lane.
fn write_lane_line<W: Sink>(
    sink: &mut W,
    number: usize,
    how: How,
    count: u64,
) -> Result<(), WriteFailed>
    ensures written { Writes (W.device sink.old).bytes (W.device sink.new).bytes
        (lane_line number how count) result }
    ensures failed { OnErr result (GaveUp (W.device sink.new) (W.device sink.new).interruptions) }
{
    let mut digits = Buffer::new();
    let mut handed = Buffer::new();
    let pieces: [&[u8]; 5] = [
        b"lane ",
        digits.format(number).as_bytes(),
        how_of(how),
        handed.format(count).as_bytes(),
        b"\n",
    ];
    write_pieces(sink, &pieces)
}

/// Writes each event as a line, with what the post-hook answered to it. The error is that a write gave up on the sink.
pub fn write_events<W: Sink>(sink: &mut W, events: &[(Event, Outcome)]) -> Result<(), WriteFailed>
    ensures written { Writes (W.device sink.old).bytes (W.device sink.new).bytes
        (flat_map event_line events.now) result }
    ensures failed { OnErr result (GaveUp (W.device sink.new) (W.device sink.new).interruptions) }
{
    for event in events {
        write_event(sink, event)?;
    }
    Ok(())
}

/// Writes an event as a line, with what its post-hook answered, and makes the sink send the line on. The error is that
/// a write or the flush gave up on the sink.
pub fn write_event_line<W: Sink>(
    sink: &mut W,
    recorded: &(Event, Outcome),
) -> Result<(), WriteFailed>
    ensures written { Writes (W.device sink.old).bytes (W.device sink.new).bytes
        (event_line recorded.now) result }
    ensures failed { OnErr result (GaveUp (W.device sink.new) (W.device sink.new).interruptions) }
{
    write_event(sink, recorded)?;
    flush(sink)
}

/// Writes an event as a line, with what its post-hook answered.
fn write_event<W: Sink>(sink: &mut W, recorded: &(Event, Outcome)) -> Result<(), WriteFailed>
    ensures written { Writes (W.device sink.old).bytes (W.device sink.new).bytes
        (event_line recorded.now) result }
    ensures failed { OnErr result (GaveUp (W.device sink.new) (W.device sink.new).interruptions) }
{
    write_event_text(sink, &recorded.0)?;
    write_outcome(sink, recorded.1)
}

/// A length in digits, or a dash if it is not known.
fn length_text(digits: &mut Buffer, length: Option<u64>) -> &[u8]
    ensures { result.now ≡ length_text length }
{
    match length {
        Some(length) => digits.format(length).as_bytes(),
        None => b"-",
    }
}

/// Writes an event: its id, number, hook, offset and length.
fn write_event_text<W: Sink>(sink: &mut W, event: &Event) -> Result<(), WriteFailed>
    ensures written { Writes (W.device sink.old).bytes (W.device sink.new).bytes
        (event_text event.now) result }
    ensures failed { OnErr result (GaveUp (W.device sink.new) (W.device sink.new).interruptions) }
{
    let text = event.id.text();
    let mut number = Buffer::new();
    let mut offset = Buffer::new();
    let mut length = Buffer::new();
    let pieces: [&[u8]; 9] = [
        &text,
        b" ",
        number.format(event.number).as_bytes(),
        b" ",
        event.hook.name().as_bytes(),
        b" ",
        offset.format(event.offset).as_bytes(),
        b"/",
        length_text(&mut length, event.length),
    ];
    write_pieces(sink, &pieces)
}

/// Writes what a post-hook answered, which ends the line of its event.
fn write_outcome<W: Sink>(sink: &mut W, outcome: Outcome) -> Result<(), WriteFailed>
    ensures written { Writes (W.device sink.old).bytes (W.device sink.new).bytes
        (outcome_of outcome) result }
    ensures failed { OnErr result (GaveUp (W.device sink.new) (W.device sink.new).interruptions) }
{
    let code = match outcome {
        Outcome::Done => return write_pieces(sink, &[b" done\n"]),
        Outcome::Failed(code) => code,
    };
    let mut digits = Buffer::new();
    let pieces: [&[u8]; 3] = [b" failed ", digits.format(code).as_bytes(), b"\n"];
    write_pieces(sink, &pieces)
}
