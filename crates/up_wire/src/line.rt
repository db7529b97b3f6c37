//! Reading one line of a source.
ghost use Rattle.std.specs.Prelude.{◌≡◌, ◌+◌, ◌<◌, ◌≤◌, ◌++◌, vec_len};
ghost use Rattle.up_wire.specs.Limits.{max_interruptions};
ghost use Rattle.up_wire.specs.Steps.{HasRead, EndsInFeed, is_line_end, IsLineTaken};

use crate::device::{ReadSome, Source};
use crate::room::make_room;
use crate::step::MAX_INTERRUPTIONS;

/// The result of taking a line.
#[derive(Clone, Copy)]
pub(crate) enum Line {
    /// All of it, with its line feed.
    Whole,
    /// The text is full, and has no line feed yet.
    Full,
    Ended,
    Failed,
    NoMemory,
}

/// The room of a line at first, in bytes.
const FIRST_ROOM: usize = 512;

/// Whether the bytes end in a line feed.
fn ends_in_feed(text: &[u8]) -> bool
    ensures { EndsInFeed text.now result }
{
    match text {
        [.., last] => *last == b'\n',
        [] => false,
    }
}

/// Whether the line is only a line end: CRLF, or a line feed.
pub(crate) fn is_line_end(line: &[u8]) -> bool
    ensures { result ≡ is_line_end line.now }
{
    match line {
        [b'\n'] => true,
        [b'\r', b'\n'] => true,
        _ => false,
    }
}

/// Moves the rest of a line to the end of `text`, its line feed included. The text may grow to `most` bytes.
pub(crate) fn take_line<R: Source>(
    source: &mut R,
    interruptions: &mut u32,
    text: &mut Vec<u8>,
    most: usize,
) -> Line
    requires patient { interruptions.old < max_interruptions }
    requires within { vec_len text.old ≤ most }
    ensures answer { HasRead (R.device source.old) (R.device source.new)
        interruptions.old interruptions.new
        (λ line ending. (text.new.items ≡ text.old.items ++ line)
        × IsLineTaken most text.new.items line ending result) }
    ensures within { vec_len text.new ≤ most }
{
    'runs: while text.len() < most {
        if !make_room(text, most as u64, FIRST_ROOM) {
            return Line::NoMemory;
        }
        let room = (text.capacity() - text.len()).min(most - text.len());
        match source.take_in_line(text, room) {
            ReadSome::Moved(_) => {
                if ends_in_feed(text) {
                    return Line::Whole;
                }
            }
            ReadSome::End => return Line::Ended,
            ReadSome::Failed => return Line::Failed,
            ReadSome::Interrupted => {
                *interruptions += 1;
                if *interruptions == MAX_INTERRUPTIONS {
                    return Line::Failed;
                }
            }
        }
    }
    Line::Full
}
