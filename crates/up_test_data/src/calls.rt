//! Calls those functions of the crates whose contracts say what holds if memory runs out, according to the rows of a
//! text, and prints the state before and after each call. `tests/memory.py` makes requests for memory fail meanwhile.
//!
//! A line that is empty or begins with `#` is ignored. A row is:
//!
//! ```text
//! pairs_of TEXT            of a metadata text
//! note NUMBER              `Journal::note` of a new upload without bytes, whose id has this number
//! lane_queue CAPACITY      an item passes through the queue
//! request_of MESSAGE       a method and a target; then, each after a bar, a field `Name: value`, or the body
//! plan MESSAGE             `Book::plan` of its request
//! commit NUMBER MESSAGE    `Book::commit` of its request; the id of a new upload has this number
//! board                    `BoardParts::new`, `Board::new`, five uploads, each `Lane::step` of two lanes, and
//!                          `Board::finish`
//! ```
//!
//! For each call there are three lines: the state before it, the call with its result, and the state after it. If
//! memory runs out in a call, the call is made again, a few times. If memory runs out anywhere else, no line of that
//! call is printed, and the calls end with an error. Printing takes no memory.
mod bench;
mod boards;
mod lines;
mod messages;
mod words;

use crate::calls::bench::Bench;
use std::alloc::Global;
use std::io;
use std::sync::Wait;

/// Makes the call of each row.
fn call_rows(
    rt: &(impl Print + Wait),
    alloc: Global,
    bench: &mut Bench,
    text: &str,
) -> io::Result<()> {
    for row in text.lines() {
        let (name, given) = row.split_once(' ').unwrap_or((row, ""));
        match name {
            "" | "#" => {}
            "board" => boards::call_all(rt, alloc, &mut bench.lines)?,
            _ => bench.call_on(rt, alloc, name, given)?,
        }
    }
    Ok(())
}

/// Makes the calls of all rows of a text, and prints them. An error if nothing can be printed, or if memory runs out
/// outside a call.
pub fn call_all(rt: &(impl Print + AllocGlobal + Wait), text: &str) -> io::Result<()> {
    let mut bench = Bench::new(rt.alloc())?;
    call_rows(rt, rt.alloc(), &mut bench, text)
}
